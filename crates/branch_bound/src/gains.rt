//! The column to split by the gains of the first dual pivot on both sides.
ghost use Rattle.std.specs.Prelude.{◌≡◌, ℕ, ◌+◌, ◌<◌, ◌≤◌, ◌^◌, ◌<ℤ◌, ◌⊎◌, pos, suc, false, length, slice_index, IfNone, IfSome};
ghost use Rattle.ip_model.specs.Limits.{helper_at};
ghost use Rattle.branch_bound.specs.Columns.{IsFractional};

use crate::columns::is_fractional;
use exact_fraction::{Fraction, whole};
use exact_simplex::Tableau;
use ip_model::{Point, Program};
use std::cmp::Ordering;

/// The greatest gain of a side, for one to which no unit moves the column.
pub(crate) const MOST_GAIN: u64 = 1 << 30;

/// A side of a split.
#[derive(Clone, Copy)]
enum Side {
    Down,
    Up,
}

/// What the cost rises by as a column moves by 1 to a side, by the unit that makes it least.
#[derive(Clone, Copy)]
enum Rate {
    /// No unit moves the column to this side.
    Blocked,
    Least(Fraction),
    /// A quotient does not fit.
    Unfit,
}

/// A column that can be split, and its score.
#[derive(Clone, Copy)]
struct Choice {
    column: u32,
    score: u64,
}

/// The lesser one of a rate and the quotient of a cost by a factor.
fn lesser_rate(rate: Rate, cost: Fraction, factor: Fraction) -> Rate
    requires { pos 0 <ℤ factor.num }
{
    let Some(quotient) = cost.div(factor) else {
        return Rate::Unfit;
    };
    match rate {
        Rate::Blocked => Rate::Least(quotient),
        Rate::Least(least) => match quotient.cmp(least) {
            Ordering::Less => Rate::Least(quotient),
            _ => rate,
        },
        Rate::Unfit => rate,
    }
}

/// How far one unit moves a column to a side, by its factor in the column's row.
fn move_to(side: Side, factor: Fraction) -> Fraction {
    match side {
        Side::Down => factor.negated(),
        Side::Up => factor,
    }
}

/// The rate of the column of a row to a side.
fn rate_to(side: Side, at: &Tableau, row: u32) -> Rate
    requires { row < length at.now.cells }
{
    let mut rate = Rate::Blocked;
    for cell in at.kept(row).as_slice() {
        let step = move_to(side, cell.value);
        if cell.column > 0 && step.num > 0 {
            rate = lesser_rate(rate, at.cell(0, cell.column), step);
        }
    }
    rate
}

/// The gain in parts of 2^20, rounded down, from 1 to the greatest.
fn scaled(gain: Fraction) -> u64
    ensures { result ≤ 2 ^ 30 }
{
    let Some(parts) = gain.mul(whole(1 << 20)) else {
        return 1;
    };
    let rounded = parts.num.div_euclid(parts.den);
    if rounded < 1 {
        1
    } else if rounded > i128::from(MOST_GAIN) {
        MOST_GAIN
    } else {
        rounded as u64
    }
}

/// The number steps / den.
fn distance(steps: u64, den: u64) -> Option<Fraction>
    requires above_none { 0 < den }
    requires steps { steps ≤ den }
    requires most { den ≤ 2 ^ 60 }
{
    whole(steps as i64).div(whole(den as i64))
}

/// The scaled gain of a side, whose whole number is so far away.
fn side_gain(rate: Rate, way: Option<Fraction>) -> u64
    ensures { result ≤ 2 ^ 30 }
{
    match (rate, way) {
        (Rate::Blocked, _) => MOST_GAIN,
        (Rate::Least(least), Some(way)) => match least.mul(way) {
            Some(gain) => scaled(gain),
            None => 1,
        },
        _ => 1,
    }
}

/// The product of the gains on both sides of a column in which the point is between two whole numbers.
pub(crate) fn score(point: &Point, at: &Tableau, column: u32) -> u64
    requires column { column < length point.now.part }
    requires row { suc column < length at.now.cells }
{
    let part = point.part.as_slice()[column as usize];
    let down = side_gain(
        rate_to(Side::Down, at, column + 1),
        distance(part, point.den),
    );
    let up = side_gain(
        rate_to(Side::Up, at, column + 1),
        distance(point.den - part, point.den),
    );
    down * up
}

/// The held choice, or the next where its score is greater.
fn better(held: Option<Choice>, next: Choice) -> Choice
    ensures first { IfNone held (result ≡ next) }
    ensures either { IfSome held (λ choice. (result ≡ choice) ⊎ (result ≡ next)) }
{
    match held {
        Some(choice) if choice.score >= next.score => choice,
        _ => next,
    }
}

/// The count column, among those in which the point is between two whole numbers, with the greatest product of the gains that the first
/// dual pivot makes on both sides of its split, by the least tableau whose point it is. It is the first of these where they are alike.
///
/// A gain is the distance to the side's whole number times the least quotient of a unit's cost by its move to that side. It is counted in
/// parts of 2^20, rounded down, from 1 to 2^30: 2^30 where no unit moves the column to that side, 1 where an operation does not fit.
pub fn split_column(program: &Program, point: &Point, at: &Tableau) -> Option<u32>
    requires size { length point.now.part ≡ length program.now.columns }
    requires rows { length at.now.cells ≡ suc (length program.now.columns + length program.now.rows + length program.now.columns) }
    requires units { length at.now.units ≡ length program.now.columns }
    ensures some { IfSome result (λ column. IsFractional program.now point.now column) }
    ensures none { IfNone result ((j : ℕ) → j < length program.now.columns → helper_at program.now.columns j ≡ false → slice_index point.now.part j ≡ 0) }
{
    let mut held: Option<Choice> = None;
    for column in 0..program.columns.len() {
        if is_fractional(program, point, column) {
            let score = score(point, at, column);
            held = Some(better(held, Choice { column, score }));
        }
    }
    match held {
        Some(choice) => Some(choice.column),
        None => None,
    }
}
