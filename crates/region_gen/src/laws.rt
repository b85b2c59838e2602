ghost use Rattle.region_gen.specs.Laws.{TwelveDraws};

/// The draws of the sample of number 7 with three switchboards.
pub fn twelve_draws()
    ensures { TwelveDraws }
{}
