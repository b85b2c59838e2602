//! Tableaus of fractions.
ghost use Rattle.exact_simplex.specs.Shapes.{HasShape};

use crate::tableau_row::TableauRow;
use ras_table::List;

/// A tableau of the written simplex method, over exact fractions.
///
/// Row 0 is the sum of cost times column. The rows after it are the steps of the columns above their lows, then the surpluses
/// of the program's rows, then the rooms of the columns below their highs. Column 0 holds the rows' values, and each later column
/// the rows' factors of one unit row.
#[derive(Drop)]
pub struct Tableau {
    pub(crate) cells: List<TableauRow>,
    pub(crate) units: List<u32>,
    pub ghost shape: { HasShape cells units },
}
