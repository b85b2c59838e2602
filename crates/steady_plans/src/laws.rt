ghost use Rattle.steady_plans.specs.Laws.{CostChangesLocally};
ghost use Rattle.steady_plans.specs.Steady.{SteadyIsLeastNearby};

/// A steady assignment costs at most what any allowed one costs that differs from it at one server.
pub fn steady_is_least_nearby()
    ensures { SteadyIsLeastNearby }
{}

/// What a phase costs changes, where one server gets a reservation in place of none, by the cost of its move, the terms
/// of that reservation and its excess on the server's rack.
pub fn cost_changes_locally()
    ensures { CostChangesLocally }
{}
