//! Multipliers of a program's rows.
ghost use Rattle.std.specs.Prelude.{IsTrue};
ghost use Rattle.bound_certificate.specs.Rule.{multipliers_rule};

use ras_table::List;

/// The multiplier of a row, over the denominator.
#[derive(Clone, Copy, Debug, PartialEq)]
pub struct Top {
    pub row: u32,
    pub num: u64,
}

/// The multiplier `num / den` of each row that is listed, and 0 of the others.
/// The denominator and each numerator are from 1 to 2^60, and the rows rise.
#[derive(Debug, Drop)]
pub struct Multipliers {
    pub den: u64,
    pub tops: List<Top>,
    pub ghost kept: { IsTrue (multipliers_rule den tops) },
}
