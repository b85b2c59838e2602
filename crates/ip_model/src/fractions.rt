//! Points of fractions: whether they lie in the relaxation, and their value.
ghost use Rattle.std.specs.Prelude.{◌≡◌, ℕ, ◌+◌, ◌*◌, ◌<◌, ◌≤◌, ◌↔◌, ◌^◌, ℤ, pos, ◌*ℤ◌, unsigned_abs, IsTrue, All, length, slice_index};
ghost use Rattle.ip_model.specs.Points.{full_box_of, numerator, value_over, value_up_of, IsBoxOf, IsPointOf, LiesIn, MeetsLine};

use crate::parts::{Bounds, Line, Term};
use crate::point::Point;
use crate::program::Program;

/// The numerator of a column's number over the point's denominator.
fn numerator_at(point: &Point, j: usize) -> u128
    requires whole { j < length point.now.whole }
    requires part { j < length point.now.part }
    ensures value { result ≡ numerator point.now j }
    ensures size { result ≤ 2 ^ 93 }
{
    u128::from(point.whole.as_slice()[j]) * u128::from(point.den)
        + u128::from(point.part.as_slice()[j])
}

/// Whether each number lies in the box.
fn lies_in(program: &Program, bounds: &Bounds, point: &Point) -> bool
    requires is_box { IsBoxOf program.now bounds.now }
    requires wholes { length point.now.whole ≡ length program.now.columns }
    requires parts { length point.now.part ≡ length program.now.columns }
    ensures { IsTrue result ↔ LiesIn program.now bounds.now point.now.den (numerator point.now) }
{
    let low = bounds.low.as_slice();
    let high = bounds.high.as_slice();
    let den = u128::from(point.den);
    for j in 0..program.columns.as_slice().len() {
        let number = numerator_at(point, j);
        if number < den * u128::from(low[j]) || number > den * u128::from(high[j]) {
            return false;
        }
    }
    true
}

/// Factor times numerator.
fn product_over(term: &Term, point: &Point) -> i128
    requires whole { term.now.column < length point.now.whole }
    requires part { term.now.column < length point.now.part }
    requires factor { unsigned_abs term.now.factor ≤ 1000 }
    ensures value { result ≡ term.now.factor *ℤ pos (numerator point.now term.now.column) }
    ensures size { unsigned_abs result ≤ 2 ^ 103 }
{
    i128::from(term.factor) * numerator_at(point, term.column as usize) as i128
}

/// What a row asks, times the denominator.
fn asked(den: u64, least: i32) -> i128
    ensures { result ≡ pos den *ℤ least }
{
    i128::from(den) * i128::from(least)
}

/// Whether the point meets a row.
fn meets_line_over(line: &Line, point: &Point) -> bool
    requires few { length line.now.terms ≤ 2048 }
    requires wholes { All (λ term. term.column < length point.now.whole) line.now.terms }
    requires parts { All (λ term. term.column < length point.now.part) line.now.terms }
    requires factors { All (λ term. unsigned_abs term.factor ≤ 1000) line.now.terms }
    ensures { IsTrue result ↔ MeetsLine point.now.den (numerator point.now) line.now }
{
    let mut total: i128 = 0;
    for term in line.terms.as_slice() {
        total += product_over(term, point);
    }
    total >= asked(point.den, line.least)
}

/// Whether the point meets each row.
fn meets_rows_over(program: &Program, point: &Point) -> bool
    requires wholes { length point.now.whole ≡ length program.now.columns }
    requires parts { length point.now.part ≡ length program.now.columns }
    ensures { IsTrue result ↔ All (MeetsLine point.now.den (numerator point.now)) program.now.rows }
{
    for line in program.rows.as_slice() {
        if !meets_line_over(line, point) {
            return false;
        }
    }
    true
}

/// Whether the point of fractions has one number for each column, lies in the box and meets each row.
pub fn point_ok(program: &Program, bounds: &Bounds, point: &Point) -> bool
    requires { IsBoxOf program.now bounds.now }
    ensures { IsTrue result ↔ IsPointOf program.now bounds.now point.now }
{
    let columns = program.columns.as_slice().len();
    point.whole.as_slice().len() == columns
        && point.part.as_slice().len() == columns
        && lies_in(program, bounds, point)
        && meets_rows_over(program, point)
}

/// The point's value over its denominator.
fn value_over_den(program: &Program, point: &Point) -> u128
    requires wholes { length point.now.whole ≡ length program.now.columns }
    requires parts { length point.now.part ≡ length program.now.columns }
    requires lies { LiesIn program.now (full_box_of program.now) point.now.den (numerator point.now) }
    ensures value { result ≡ value_over program.now point.now.den (numerator point.now) }
    ensures size { result ≤ point.now.den * (2 ^ 48 + 2048 * 200000000000) }
{
    let mut total = u128::from(point.den) * u128::from(program.base);
    for (j, column) in program.columns.as_slice().iter().enumerate() {
        total += u128::from(column.cost) * numerator_at(point, j);
    }
    total
}

/// The value of a point of the full box, rounded up to a whole number.
pub fn point_value_up(program: &Program, point: &Point) -> u64
    requires wholes { length point.now.whole ≡ length program.now.columns }
    requires parts { length point.now.part ≡ length program.now.columns }
    requires lies { LiesIn program.now (full_box_of program.now) point.now.den (numerator point.now) }
    ensures { result ≡ value_up_of program.now point.now }
{
    let den = u128::from(point.den);
    ((value_over_den(program, point) + (den - 1)) / den) as u64
}
