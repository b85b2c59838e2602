ghost use Rattle.std.specs.Prelude.{◌≡◌, true, IfOk, slice_get};
ghost use Rattle.ras_inventory.specs.Cells.{name_in, is_name_cell, holder_in, flag_in};

use ras_table::{Cell, Name, Row};
use std::alloc::{AllocError, Global};

/// A copy of the name in a cell.
pub fn name_at<const N: usize>(alloc: Global, row: &Row<N>, i: u32) -> Result<Name, AllocError>
    requires { is_name_cell (slice_get row.now i) ≡ true }
    ensures { IfOk result (λ name. name ≡ name_in (slice_get row.now i)) }
{
    match row.cell(i) {
        Some(Cell::Name(name)) => name.copy(alloc),
        _ => unreachable!(),
    }
}

/// A copy of the name in a cell, or None where it holds no name.
pub fn holder_at<const N: usize>(
    alloc: Global,
    row: &Row<N>,
    i: u32,
) -> Result<Option<Name>, AllocError>
    ensures { IfOk result (λ holder. holder ≡ holder_in (slice_get row.now i)) }
{
    match row.cell(i) {
        Some(Cell::Name(name)) => match name.copy(alloc) {
            Ok(copy) => Ok(Some(copy)),
            Err(error) => Err(error),
        },
        _ => Ok(None),
    }
}

/// The flag in a cell, and false where it holds none.
pub fn flag_at<const N: usize>(row: &Row<N>, i: u32) -> bool
    ensures { result ≡ flag_in (slice_get row.now i) }
{
    match row.cell(i) {
        Some(Cell::Flag(flag)) => *flag,
        _ => false,
    }
}
