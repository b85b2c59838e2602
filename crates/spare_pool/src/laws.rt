ghost use Rattle.spare_pool.specs.StepLaws.{StepKeepsRule, ReplacedKeepsUnits, ShortIsMissing, OthersKeepUnits, StepIsThere, StepIsUnique, RunIsThere, RunLaws};

/// A step keeps the rule of a state: every server serves at most one reservation, which has a value above 0 for its type.
pub fn step_keeps_rule()
    ensures { StepKeepsRule }
{}

/// Where a server was replaced, the reservation has at least the units that it had.
pub fn replaced_keeps_units()
    ensures { ReplacedKeepsUnits }
{}

/// Where units are missing, the reservation has exactly so many less than it had, more than none, and no spare gave as much as
/// the server that failed.
pub fn short_is_missing()
    ensures { ShortIsMissing }
{}

/// A step changes the units of no reservation but of the one that lost a server.
pub fn others_keep_units()
    ensures { OthersKeepUnits }
{}

/// Every change has exactly one step.
pub fn step_is_one()
    ensures there { StepIsThere }
    ensures unique { StepIsUnique }
{}

/// Every list of changes has a run, which keeps the rule, and after which a reservation has lost at most the units that were
/// told to be missing.
pub fn every_run()
    ensures there { RunIsThere }
    ensures laws { RunLaws }
{}
