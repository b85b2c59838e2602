//! What a relaxation answers.

use crate::table::Tableau;
use bound_certificate::Multipliers;
use ip_model::Point;

/// The answer of the written simplex method, with the tableau that it reached.
#[derive(Drop)]
pub enum Relaxed {
    /// The tableau is over: its exact point lies in the relaxation, and its exact duals bound the relaxation by the point's value.
    Least {
        point: Point,
        duals: Multipliers,
        at: Tableau,
    },
    /// The tableau is over, and its exact refutation refutes the box.
    Empty {
        duals: Multipliers,
        at: Tableau,
    },
    /// The written pivot at this row and column does not fit, or the choice of the column where that is None.
    Wide {
        at: Tableau,
        row: u32,
        col: Option<u32>,
        duals: Multipliers,
    },
    /// The tableau is over, and its exact point and duals, or its exact refutation, do not fit a certificate's limits.
    Misfit {
        at: Tableau,
        duals: Multipliers,
    },
    /// So many pivots were made, and the tableau is not over.
    Spent {
        at: Tableau,
        made: u64,
        duals: Multipliers,
    },
}
