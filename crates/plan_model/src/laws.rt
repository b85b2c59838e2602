ghost use Rattle.plan_model.specs.Laws.{AllowedSurvivesLosses, TakingAwayNeverRaises, NoServersNoNeed, JoinsToOneCase, SixServers, FiveServers, OneSwap, RacksEvenedOut};

/// An allowed assignment gives each reservation what it needs, also after any one loss that its protection names.
pub fn allowed_survives_losses()
    ensures { AllowedSurvivesLosses }
{}

/// Taking a server away from its reservation raises nobody's units, in all or on a switchboard.
pub fn taking_away_never_raises()
    ensures { TakingAwayNeverRaises }
{}

/// A region without servers keeps no need above 0.
pub fn no_servers_no_need()
    ensures { NoServersNoNeed }
{}

/// There is one case that a region, requests and bindings join to.
pub fn joins_to_one_case()
    ensures { JoinsToOneCase }
{}

/// Six servers on three switchboards for a need of 40, computed.
pub fn six_servers()
    ensures { SixServers }
{}

/// Five of these servers, computed.
pub fn five_servers()
    ensures { FiveServers }
{}

/// A swap between two reservations, computed.
pub fn one_swap()
    ensures { OneSwap }
{}

/// The excess of a reservation over its rack limit, computed.
pub fn racks_evened_out()
    ensures { RacksEvenedOut }
{}
