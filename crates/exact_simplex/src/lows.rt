//! Sums at the low numbers of a box, and the slopes of rows.
ghost use Rattle.std.specs.Prelude.{◌≡◌, ℕ, ◌+◌, ◌*◌, ◌<◌, ◌≤◌, ◌^◌, ◌==◌, ℤ, pos, ◌+ℤ◌, ◌*ℤ◌, unsigned_abs, All, AllPairs, IfOk, if◌then◌else◌, length, slice_index};
ghost use Rattle.ip_model.specs.Limits.{cost_of};
ghost use Rattle.ip_model.specs.Points.{IsBoxOf};
ghost use Rattle.ip_model.specs.Sums.{factor_of, sum_below, terms_at};
ghost use Rattle.exact_simplex.specs.Beginning.{AreSlopes};

use ip_model::{Bounds, Column, Program, Term};
use std::alloc::{AllocError, Global};

/// A cost or a factor times a low number.
fn product(factor: i64, low: u32) -> i64
    requires factor { unsigned_abs factor ≤ 2 ^ 14 }
    requires low { low ≤ 2 ^ 25 }
    ensures value { result ≡ factor *ℤ pos low }
    ensures size { unsigned_abs result ≤ 2 ^ 39 }
{
    factor * i64::from(low)
}

/// Cost times low number of a column.
fn cost_at_low(program: &Program, bounds: &Bounds, j: usize) -> i64
    requires is_box { IsBoxOf program.now bounds.now }
    requires column { j < length program.now.columns }
    ensures value { result ≡ pos (cost_of program.now.columns j) *ℤ pos (slice_index bounds.now.low j) }
    ensures size { unsigned_abs result ≤ 2 ^ 39 }
{
    product(
        i64::from(program.columns.as_slice()[j].cost),
        bounds.low.as_slice()[j],
    )
}

/// The sum of cost times low number.
pub fn costs_at_lows(program: &Program, bounds: &Bounds) -> i64
    requires { IsBoxOf program.now bounds.now }
    ensures { result ≡ sum_below (length program.now.columns) (λ j. pos (cost_of program.now.columns j) *ℤ pos (slice_index bounds.now.low j)) }
{
    let mut total: i64 = 0;
    for j in 0..program.columns.as_slice().len() {
        total += cost_at_low(program, bounds, j);
    }
    total
}

/// Factor times low number of a term.
fn term_at_low(term: &Term, low: &[u32]) -> i64
    requires column { term.now.column < length low.now }
    requires factor { unsigned_abs term.now.factor ≤ 1000 }
    requires lows { (j : ℕ) → slice_index low.now j ≤ 2 ^ 25 }
    ensures value { result ≡ term.now.factor *ℤ pos (slice_index low.now term.now.column) }
    ensures size { unsigned_abs result ≤ 2 ^ 39 }
{
    product(i64::from(term.factor), low[term.column as usize])
}

/// The sum of factor times low number.
pub fn terms_at_lows(terms: &[Term], low: &[u32]) -> i64
    requires few { length terms.now ≤ 2048 }
    requires columns { All (λ t. t.column < length low.now) terms.now }
    requires factors { All (λ t. unsigned_abs t.factor ≤ 1000) terms.now }
    requires lows { (j : ℕ) → slice_index low.now j ≤ 2 ^ 25 }
    ensures value { result ≡ terms_at terms.now (slice_index low.now) }
    ensures size { unsigned_abs result ≤ 2 ^ 50 }
{
    let mut total: i64 = 0;
    for term in terms {
        total += term_at_low(term, low);
    }
    total
}

/// The costs.
pub fn cost_slopes(alloc: Global, columns: &[Column]) -> Result<Vec<i64>, AllocError>
    ensures { IfOk result (λ slopes. AreSlopes slopes.items (length columns.now) (λ j. pos (cost_of columns.now j))) }
{
    let mut slopes = Vec::with_capacity(alloc, columns.len())?;
    for column in columns {
        slopes.push(i64::from(column.cost))?;
    }
    Ok(slopes)
}

/// A slope with one more factor.
fn added(slope: i64, factor: i32) -> i64
    requires slope { unsigned_abs slope ≤ 2 ^ 30 }
    requires factor { unsigned_abs factor ≤ 1000 }
    ensures { result ≡ slope +ℤ factor }
{
    slope + i64::from(factor)
}

/// The factors of a row.
pub fn factor_slopes(alloc: Global, terms: &[Term], size: usize) -> Result<Vec<i64>, AllocError>
    requires few { length terms.now ≤ 2048 }
    requires columns { All (λ t. t.column < size) terms.now }
    requires factors { All (λ t. unsigned_abs t.factor ≤ 1000) terms.now }
    ensures { IfOk result (λ slopes. AreSlopes slopes.items size (factor_of terms.now)) }
{
    let mut slopes = vec![in alloc; 0i64; size]?;
    for term in terms {
        let column = term.column as usize;
        let sum = added(slopes[column], term.factor);
        slopes[column] = sum;
    }
    Ok(slopes)
}
