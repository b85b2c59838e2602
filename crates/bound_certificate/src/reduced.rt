//! The costs of the columns less what the rows take off, over whole numbers.
ghost use Rattle.std.specs.Prelude.{◌≡◌, ℕ, ◌+◌, ◌*◌, ◌<◌, ◌≤◌, ◌^◌, ℤ, pos, ◌+ℤ◌, ◌-ℤ◌, ◌*ℤ◌, unsigned_abs, All, AllPairs, length, slice_index, slice_index_or};
ghost use Rattle.std.specs.Int.{int_min};
ghost use Rattle.ip_model.specs.Limits.{cost_of};
ghost use Rattle.ip_model.specs.Points.{IsBoxOf};
ghost use Rattle.ip_model.specs.Sums.{factor_of};
ghost use Rattle.bound_certificate.specs.Bound.{box_sum, combined_factor, combined_least, weighted_total};
ghost use Rattle.bound_certificate.specs.Rising.{TopInRange};

use crate::multipliers::Top;
use ip_model::{Bounds, Column, Program, Term};

/// Writes the cost of each column, taken `scale` times.
fn put_costs(columns: &[Column], scale: u64, reduced: &mut [i128])
    requires { length columns.now ≤ length reduced.old }
    ensures { (j : ℕ) → j < length columns.now → slice_index_or reduced.new j (pos 0) ≡ pos (scale * cost_of columns.now j) }
{
    for (j, column) in columns.iter().enumerate() {
        reduced[j] = i128::from(scale) * i128::from(column.cost);
    }
}

/// Numerator times what a row has.
fn share(num: u64, factor: i32) -> i128
    ensures value { result ≡ pos num *ℤ factor }
    ensures size { unsigned_abs result ≤ 2 ^ 95 }
{
    i128::from(num) * i128::from(factor)
}

/// Takes numerator times factor off each column of a row.
fn take_off_row(terms: &[Term], num: u64, reduced: &mut [i128])
    requires few { length terms.now ≤ 2048 }
    requires in_range { All (λ term. term.column < length reduced.old) terms.now }
    requires small { (j : ℕ) → unsigned_abs (slice_index_or reduced.old j (pos 0)) ≤ 2 ^ 110 }
    ensures { (j : ℕ) → slice_index_or reduced.new j (pos 0) ≡ slice_index_or reduced.old j (pos 0) -ℤ pos num *ℤ factor_of terms.now j }
{
    for term in terms {
        let column = term.column as usize;
        reduced[column] -= share(num, term.factor);
    }
}

/// The lesser of the products of a cost with the low and the high number.
fn least_product(cost: i128, low: u32, high: u32) -> i128
    requires cost { unsigned_abs cost ≤ 2 ^ 82 }
    requires low { low ≤ 2 ^ 25 }
    requires high { high ≤ 2 ^ 25 }
    ensures value { result ≡ int_min (cost *ℤ pos low) (cost *ℤ pos high) }
    ensures size { unsigned_abs result ≤ 2 ^ 107 }
{
    let at_low = cost * i128::from(low);
    let at_high = cost * i128::from(high);
    at_low.min(at_high)
}

/// The least sum of cost times number over the box.
fn box_total(bounds: &Bounds, reduced: &[i128]) -> i128
    requires few { length reduced.now ≤ 2048 }
    requires lows { length bounds.now.low ≡ length reduced.now }
    requires highs { length bounds.now.high ≡ length reduced.now }
    requires low { (j : ℕ) → slice_index bounds.now.low j ≤ 2 ^ 25 }
    requires high { (j : ℕ) → slice_index bounds.now.high j ≤ 2 ^ 25 }
    requires small { (j : ℕ) → unsigned_abs (slice_index_or reduced.now j (pos 0)) ≤ 2 ^ 82 }
    ensures value { result ≡ box_sum (length reduced.now) (λ j. slice_index_or reduced.now j (pos 0)) bounds.now }
    ensures size { unsigned_abs result ≤ 2 ^ 118 }
{
    let low = bounds.low.as_slice();
    let high = bounds.high.as_slice();
    let mut total: i128 = 0;
    for (j, cost) in reduced.iter().enumerate() {
        total += least_product(*cost, low[j], high[j]);
    }
    total
}

/// Takes off each column what the rows have there, as often as the numerators say.
fn take_off_rows(program: &Program, tops: &[Top], reduced: &mut [i128])
    requires few { length tops.now ≤ 2048 }
    requires rows { All (λ top. top.row < length program.now.rows) tops.now }
    requires nums { All TopInRange tops.now }
    requires size { length reduced.old ≡ length program.now.columns }
    requires small { (j : ℕ) → unsigned_abs (slice_index_or reduced.old j (pos 0)) ≤ 2 ^ 80 }
    ensures value { (j : ℕ) → slice_index_or reduced.new j (pos 0) ≡ slice_index_or reduced.old j (pos 0) -ℤ combined_factor program.now.rows tops.now j }
    ensures small { (j : ℕ) → unsigned_abs (slice_index_or reduced.new j (pos 0)) ≤ 2 ^ 82 }
{
    let rows = program.rows.as_slice();
    for top in tops {
        let line = &rows[top.row as usize];
        take_off_row(line.terms.as_slice(), top.num, reduced);
    }
}

/// The sum over the rows of numerator times what the row is to reach.
fn least_total(program: &Program, tops: &[Top]) -> i128
    requires few { length tops.now ≤ 2048 }
    requires rows { All (λ top. top.row < length program.now.rows) tops.now }
    ensures value { result ≡ combined_least program.now.rows tops.now }
    ensures size { unsigned_abs result ≤ 2 ^ 106 }
{
    let rows = program.rows.as_slice();
    let mut total: i128 = 0;
    for top in tops {
        let line = &rows[top.row as usize];
        total += share(top.num, line.least);
    }
    total
}

/// The base, taken `scale` times.
fn base_share(program: &Program, scale: u64) -> i128
    requires { scale ≤ 2 ^ 60 }
    ensures value { result ≡ pos (scale * program.now.base) }
    ensures size { unsigned_abs result ≤ 2 ^ 108 }
{
    i128::from(scale) * i128::from(program.base)
}

fn sum_of_parts(base: i128, least: i128, boxes: i128) -> i128
    requires base { unsigned_abs base ≤ 2 ^ 108 }
    requires least { unsigned_abs least ≤ 2 ^ 106 }
    requires boxes { unsigned_abs boxes ≤ 2 ^ 118 }
    ensures value { result ≡ base +ℤ least +ℤ boxes }
    ensures size { unsigned_abs result ≤ 2 ^ 119 }
{
    base + least + boxes
}

/// The base and what the rows are to reach, weighted by the numerators, plus the least of the reduced costs over the box.
/// Base and costs are taken `scale` times.
pub fn total(
    program: &Program,
    bounds: &Bounds,
    tops: &[Top],
    scale: u64,
    reduced: &mut [i128],
) -> i128
    requires is_box { IsBoxOf program.now bounds.now }
    requires rows { All (λ top. top.row < length program.now.rows) tops.now }
    requires nums { All TopInRange tops.now }
    requires rising { AllPairs (λ s t. s.row < t.row) tops.now }
    requires size { length reduced.old ≡ length program.now.columns }
    requires scale { scale ≤ 2 ^ 60 }
    ensures value { result ≡ weighted_total program.now bounds.now tops.now scale }
    ensures size { unsigned_abs result ≤ 2 ^ 119 }
{
    put_costs(program.columns.as_slice(), scale, reduced);
    take_off_rows(program, tops, reduced);
    sum_of_parts(
        base_share(program, scale),
        least_total(program, tops),
        box_total(bounds, reduced),
    )
}
