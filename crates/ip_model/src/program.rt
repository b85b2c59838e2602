//! A program with the rule that it always keeps.
ghost use Rattle.std.specs.Prelude.{IsTrue};
ghost use Rattle.ip_model.specs.Rule.{program_rule};

use crate::parts::{Column, Line};
use ras_table::List;

/// An integer program: the least value of `base` plus cost times number, over the whole numbers of the columns from 0 to their tops
/// that meet each row.
///
/// It always keeps its rule. There are at most 2,048 columns and 2,048 rows. The base is at most 2^48, each cost at most 10,000,
/// each top at most 20,000,000, and each `least` of a magnitude of at most 20,000,000. The terms of a row have rising columns in range
/// and factors of magnitude 1 to 1,000. A row has at most one helper, with factor 1. A helper costs at least 1, and its top is at least
/// what each of its rows asks of it at any whole numbers of the other columns within their tops.
#[derive(Debug, Drop)]
pub struct Program {
    pub base: u64,
    pub columns: List<Column>,
    pub rows: List<Line>,
    pub ghost kept: { IsTrue (program_rule base columns rows) },
}
