//! Laws of sets of reservations.
ghost use Rattle.conflict_core.specs.Enough.{EnoughIsDecided, FittingHasMemoryFaults};
ghost use Rattle.conflict_core.specs.Laws.{KeptStaysAllowed, KeptJoins, FewerCanBeMet, MetOrNot};

/// An allowed assignment stays allowed where only some reservations are kept, and their servers.
pub fn kept_stays_allowed()
    ensures { KeptStaysAllowed }
{}

/// Kept requests join to the case of the members: what a removed reservation holds is held by one that is gone.
pub fn kept_joins()
    ensures { KeptJoins }
{}

/// A set of reservations that can be met can be met without any one of its members.
pub fn fewer_can_be_met()
    ensures { FewerCanBeMet }
{}

/// No set both can be met and can't.
pub fn met_or_not()
    ensures { MetOrNot }
{}

/// With a budget that suffices for each set, the answer is a core exactly where the reservations can't all be met, and a plan
/// for all exactly where they can.
pub fn enough_is_decided()
    ensures { EnoughIsDecided }
{}

/// Where the program of each set fits, the only fault is want of memory.
pub fn fitting_has_memory_faults()
    ensures { FittingHasMemoryFaults }
{}
