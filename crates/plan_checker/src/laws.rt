//! Laws of the definitions.
ghost use Rattle.plan_checker.specs.Laws.{AcceptedHasNoReason, NoReasonIsAccepted, NoReasonKeepsPromises, TargetIsAllowed, WrittenHasShape};

/// A document for which no reason holds keeps its promises: its plans are allowed, state their cost, and no allowed
/// assignment of single servers costs less by more than the stated gap. Where it says that there is no plan, no
/// assignment is allowed.
pub fn no_reason_keeps_promises()
    ensures { NoReasonKeepsPromises }
{}

/// No reason holds exactly where the document is accepted: it states the protections of the case, each of its parts is right, its list of chosen reservations is
/// the chosen list, and its answer goes with its gaps, its leaves or its budget.
pub fn no_reason_means_accepted()
    ensures accepted { NoReasonIsAccepted }
    ensures back { AcceptedHasNoReason }
{}

/// A document that was read over the region and the requests of a case has the shape that `check` asks for.
pub fn written_has_shape()
    ensures { WrittenHasShape }
{}

/// Where an accepted document puts the servers is allowed in its case: it fits and serves the case, and keeps each need.
pub fn target_is_allowed()
    ensures { TargetIsAllowed }
{}
