//! The box of a program and its whole points.
ghost use Rattle.std.specs.Prelude.{◌≡◌, ℕ, ◌+◌, ◌*◌, ◌<◌, ◌≤◌, ◌↔◌, ◌^◌, ℤ, pos, ◌*ℤ◌, unsigned_abs, IfOk, IsTrue, All, length, slice_index};
ghost use Rattle.ip_model.specs.Points.{full_box_of, IsWholePoint, MeetsLine, value_of};
ghost use Rattle.ip_model.specs.Limits.{top_of};

use crate::parts::{Bounds, Column, Line, Term};
use crate::program::Program;
use ras_table::List;
use std::alloc::{AllocError, Global};

/// The box from 0 to the tops. The only fault is want of memory.
pub fn full_box(alloc: Global, program: &Program) -> Result<Bounds, AllocError>
    ensures { IfOk result (λ bounds. bounds ≡ full_box_of program.now) }
{
    let columns = program.columns.as_slice();
    let low = vec![in alloc; 0u32; columns.len()]?;
    let high: Vec<u32> = columns.iter().map(|column| column.top).collect(alloc)?;
    Ok(Bounds {
        low: List::from_vec(low),
        high: List::from_vec(high),
    })
}

/// The value of a whole point: base plus the sum of cost times number.
pub fn value(program: &Program, point: &List<u32>) -> u64
    requires { IsWholePoint program.now point.now }
    ensures { result ≡ value_of program.now point.now }
{
    let columns = program.columns.as_slice();
    let numbers = point.as_slice();
    let mut total = program.base;
    for (j, column) in columns.iter().enumerate() {
        total += u64::from(column.cost) * u64::from(numbers[j]);
    }
    total
}

/// Factor times number.
fn product(term: &Term, numbers: &[u32]) -> i128
    requires { term.now.column < length numbers.now }
    ensures value { result ≡ term.now.factor *ℤ pos (slice_index numbers.now term.now.column) }
    ensures size { unsigned_abs result ≤ 2 ^ 63 }
{
    i128::from(term.factor) * i128::from(numbers[term.column as usize])
}

/// Whether the sum of factor times number reaches what the row asks.
fn meets_line(line: &Line, numbers: &[u32]) -> bool
    requires { All (λ term. term.column < length numbers.now) line.now.terms }
    ensures { IsTrue result ↔ MeetsLine 1 (slice_index numbers.now) line.now }
{
    let mut total: i128 = 0;
    for term in line.terms.as_slice() {
        total += product(term, numbers);
    }
    total >= i128::from(line.least)
}

/// Whether each number is at most its column's top.
fn within_tops(columns: &[Column], numbers: &[u32]) -> bool
    requires { length numbers.now ≡ length columns.now }
    ensures { IsTrue result ↔ ((j : ℕ) → j < length columns.now → slice_index numbers.now j ≤ top_of columns.now j) }
{
    for (j, column) in columns.iter().enumerate() {
        if numbers[j] > column.top {
            return false;
        }
    }
    true
}

/// Whether the numbers meet each row.
fn meets_rows(program: &Program, numbers: &[u32]) -> bool
    requires { length numbers.now ≡ length program.now.columns }
    ensures { IsTrue result ↔ All (MeetsLine 1 (slice_index numbers.now)) program.now.rows }
{
    for line in program.rows.as_slice() {
        if !meets_line(line, numbers) {
            return false;
        }
    }
    true
}

/// Whether the point has one number for each column, lies in the box from 0 to the tops and meets each row.
pub fn whole_point_ok(program: &Program, point: &List<u32>) -> bool
    ensures { IsTrue result ↔ IsWholePoint program.now point.now }
{
    let columns = program.columns.as_slice();
    let numbers = point.as_slice();
    numbers.len() == columns.len() && within_tops(columns, numbers) && meets_rows(program, numbers)
}
