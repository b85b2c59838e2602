//! Each helper at the least number that its rows ask.
ghost use Rattle.std.specs.Prelude.{◌≡◌, ℕ, ◌+◌, ◌<◌, ◌≤◌, pos, ◌+ℤ◌, ◌<ℤ◌, ◌≤ℤ◌, false, if◌then◌else◌, IfNone, IfOk, IfSome, IsTrue, length, slice_index};
ghost use Rattle.ip_model.specs.Limits.{helper_at, top_of};
ghost use Rattle.closed_boxes.specs.Helpers.{IsShortAt, KeepsCounts, ServesBefore};
ghost use Rattle.closed_boxes.specs.Settling.{IsSettlement};

use crate::rows::{helper_of, is_helper, lacking};
use ip_model::{Column, Program};
use ras_table::List;
use std::alloc::{AllocError, Global};

/// What comes of counts.
#[derive(Debug, Drop)]
pub enum Settled {
    /// The counts, with each helper at the least number that its rows ask.
    Whole(List<u32>),
    /// A row without a helper that the counts do not meet.
    Short { row: u32 },
}

/// Puts each helper at 0.
fn clear_helpers(columns: &[Column], numbers: &mut [u32])
    requires { length numbers.old ≡ length columns.now }
    ensures { (j : ℕ) → slice_index numbers.new j ≡ (if helper_at columns.now j then 0 else slice_index numbers.old j) }
{
    for (j, column) in columns.iter().enumerate() {
        if is_helper(column.mark) {
            numbers[j] = 0;
        }
    }
}

/// A number of a helper, raised by what a row lacks.
fn raised(number: u32, lack: i128) -> u32
    requires some { pos 0 <ℤ lack }
    requires most { (pos number +ℤ lack) ≤ℤ pos 20000000 }
    ensures { pos result ≡ pos number +ℤ lack }
{
    number + lack as u32
}

/// Raises a row's helper by what the row lacks. Whether the row is met then.
fn serve_row(program: &Program, row: usize, point: &mut [u32]) -> bool
    requires row { row < length program.now.rows }
    requires so_far { ServesBefore program.now row point.old }
    ensures served { IsTrue result → ServesBefore program.now (row + 1) point.new }
    ensures short { result ≡ false → IsShortAt program.now row point.new }
    ensures counts { KeepsCounts program.now.columns point.old point.new }
{
    let lack = lacking(program, row, point);
    if lack <= 0 {
        return true;
    }
    let Some(helper) = helper_of(program, row) else {
        return false;
    };
    point[helper as usize] = raised(point[helper as usize], lack);
    true
}

/// Raises helpers until each row is met. The first row that has no helper and is not met, if there is one.
fn serve_rows(program: &Program, point: &mut [u32]) -> Option<u32>
    requires { ServesBefore program.now 0 point.old }
    ensures served { IfNone result (ServesBefore program.now (length program.now.rows) point.new) }
    ensures short { IfSome result (λ row. IsShortAt program.now row point.new) }
    ensures counts { KeepsCounts program.now.columns point.old point.new }
{
    for row in 0..program.rows.len() {
        if !serve_row(program, row as usize, point) {
            return Some(row);
        }
    }
    None
}

/// The counts, with each helper at 0.
fn bare_counts(alloc: Global, program: &Program, counts: &List<u32>) -> Result<Vec<u32>, AllocError>
    requires { length counts.now ≡ length program.now.columns }
    ensures size { IfOk result (λ bare. length bare.items ≡ length program.now.columns) }
    ensures numbers { IfOk result (λ bare. (j : ℕ) → slice_index bare.items j ≡ (if helper_at program.now.columns j then 0 else slice_index counts.now j)) }
{
    let mut bare = counts.as_slice().to_vec(alloc)?;
    clear_helpers(program.columns.as_slice(), bare.as_mut_slice());
    Ok(bare)
}

/// The least whole point with these counts, or a row that keeps any point from having them. Of `counts`, which has a number for each
/// column, those of the count columns matter. The only fault is want of memory.
pub fn settle_helpers(
    alloc: Global,
    program: &Program,
    counts: &List<u32>,
) -> Result<Settled, AllocError>
    requires size { length counts.now ≡ length program.now.columns }
    requires within { (j : ℕ) → helper_at program.now.columns j ≡ false → slice_index counts.now j ≤ top_of program.now.columns j }
    ensures { IfOk result (λ settled. IsSettlement program.now counts.now settled) }
{
    let mut point = bare_counts(alloc, program, counts)?;
    if let Some(row) = serve_rows(program, point.as_mut_slice()) {
        return Ok(Settled::Short { row });
    }
    Ok(Settled::Whole(List::from_vec(point)))
}
