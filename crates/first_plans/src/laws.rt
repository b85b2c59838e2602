ghost use Rattle.first_plans.specs.FirstPlan.{MoreTakesChangeNothing};
ghost use Rattle.first_plans.specs.Laws.{FirstPlansByProtection, FirstPlansOfEight};

/// No reservation of a first plan takes more servers than there are: the takes end where no server may be taken.
pub fn more_takes_change_nothing()
    ensures { MoreTakesChangeNothing }
{}

/// First plans for two switchboards of four servers each, computed.
pub fn first_plans_of_eight()
    ensures { FirstPlansOfEight }
{}

/// First plans of four servers in two datacenters, one for each protection, computed.
pub fn first_plans_by_protection()
    ensures { FirstPlansByProtection }
{}
