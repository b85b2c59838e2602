//! A point of fractions.
ghost use Rattle.std.specs.Prelude.{IsTrue};
ghost use Rattle.ip_model.specs.Rule.{point_rule};

use ras_table::List;

/// The point `whole_j + part_j / den`, with `den` from 1 to 2^60 and each part below it.
#[derive(Debug, Drop)]
pub struct Point {
    pub den: u64,
    pub whole: List<u32>,
    pub part: List<u64>,
    pub ghost kept: { IsTrue (point_rule den whole part) },
}
