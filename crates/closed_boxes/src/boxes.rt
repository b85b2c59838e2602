//! Boxes whose counts are fixed, closed by whole multipliers.
ghost use Rattle.std.specs.Prelude.{◌≡◌, ℕ, ◌+◌, ◌<◌, ◌≤◌, [], ◌∷◌, pos, IfOk, IsTrue, OnOk, List, length, slice_index};
ghost use Rattle.ip_model.specs.Limits.{cost_of, helper_at};
ghost use Rattle.ip_model.specs.Points.{IsBoxOf};
ghost use Rattle.closed_boxes.specs.Closing.{Closes, HasFixedCounts};
ghost use Rattle.closed_boxes.specs.Helpers.{IsAsked, IsTight};
ghost use Rattle.closed_boxes.specs.Weighing.{AreDuals, Weighs};

use crate::rows::{helper_of, is_tight};
use crate::settle::{Settled, settle_helpers};
use bound_certificate::{Multipliers, Top};
use ip_model::{Bounds, Program, value};
use ras_table::List;
use std::alloc::{AllocError, Global};

/// How a box whose counts are fixed is closed.
#[derive(Debug, Drop)]
pub enum Closed {
    /// The multipliers refute the box.
    Refuted(Multipliers),
    /// A whole point of the box, its value, and multipliers whose leaf bound is that value: no point of the box costs less.
    Whole {
        point: List<u32>,
        value: u64,
        duals: Multipliers,
    },
}

/// The costs of the columns.
fn costs(alloc: Global, program: &Program) -> Result<Vec<u32>, AllocError>
    ensures size { IfOk result (λ costs. length costs.items ≡ length program.now.columns) }
    ensures costs { IfOk result (λ costs. (j : ℕ) → slice_index costs.items j ≡ cost_of program.now.columns j) }
{
    program
        .columns
        .as_slice()
        .iter()
        .map(|column| column.cost)
        .collect(alloc)
}

/// Gives a row what is left of its helper's cost as its multiplier, where the helper is above 0 and is what the row asks.
fn weigh_row(
    program: &Program,
    row: usize,
    point: &[u32],
    left: &mut [u32],
    tops: &mut Vec<Top>,
) -> Result<(), AllocError>
    requires row { row < length program.now.rows }
    requires size { length point.now ≡ length program.now.columns }
    requires so_far { Weighs program.now point.now row tops.old.items left.old }
    ensures { OnOk result (Weighs program.now point.now (row + 1) tops.new.items left.new) }
{
    let Some(helper) = helper_of(program, row) else {
        return Ok(());
    };
    let helper = helper as usize;
    if left[helper] == 0 || point[helper] == 0 || !is_tight(program, row, point) {
        return Ok(());
    }
    tops.push(Top {
        row: row as u32,
        num: u64::from(left[helper]),
    })?;
    left[helper] = 0;
    Ok(())
}

/// For each helper above 0 its cost, as the multiplier of a row that asks the helper's number.
fn duals_of(alloc: Global, program: &Program, point: &[u32]) -> Result<Multipliers, AllocError>
    requires size { length point.now ≡ length program.now.columns }
    requires asked { (j : ℕ) → IsTrue (helper_at program.now.columns j) → 0 < slice_index point.now j → IsAsked program.now point.now (length program.now.rows) j }
    ensures { IfOk result (λ duals. AreDuals program.now point.now duals) }
{
    let mut left = costs(alloc, program)?;
    let mut tops = Vec::new(alloc);
    for row in 0..program.rows.len() {
        weigh_row(program, row as usize, point, left.as_mut_slice(), &mut tops)?;
    }
    Ok(Multipliers {
        den: 1,
        tops: List::from_vec(tops),
    })
}

/// The multiplier 1 of a row alone.
fn row_alone(alloc: Global, row: u32) -> Result<Multipliers, AllocError>
    ensures den { IfOk result (λ y. y.den ≡ 1) }
    ensures tops { IfOk result (λ y. y.tops ≡ record { row = row; num = 1 } ∷ []) }
{
    let tops = vec![in alloc; Top { row, num: 1 }]?;
    Ok(Multipliers {
        den: 1,
        tops: List::from_vec(tops),
    })
}

/// Closes a box whose counts are fixed: it is refuted by a row that they leave short, or its least whole point is shown to be least.
/// The only fault is want of memory.
pub fn close(alloc: Global, program: &Program, bounds: &Bounds) -> Result<Closed, AllocError>
    requires is_box { IsBoxOf program.now bounds.now }
    requires fixed { HasFixedCounts program.now bounds.now }
    ensures { IfOk result (λ closed. Closes program.now bounds.now closed) }
{
    match settle_helpers(alloc, program, &bounds.low)? {
        Settled::Short { row } => Ok(Closed::Refuted(row_alone(alloc, row)?)),
        Settled::Whole(point) => {
            let value = value(program, &point);
            let duals = duals_of(alloc, program, point.as_slice())?;
            Ok(Closed::Whole {
                point,
                value,
                duals,
            })
        }
    }
}
