//! What is found in a box: its relaxation, or its least whole point where its counts are fixed.
ghost use Rattle.std.specs.Prelude.{◌≡◌, ℕ, ◌<◌, false, IfOk, IfSome, length, slice_index};
ghost use Rattle.ip_model.specs.Limits.{helper_at};
ghost use Rattle.ip_model.specs.Points.{IsBoxOf};
ghost use Rattle.bound_certificate.specs.Bound.{RowsInRange};
ghost use Rattle.exact_simplex.specs.Answers.{Certifies};
ghost use Rattle.exact_simplex.specs.Forms.{parts_of};
ghost use Rattle.exact_simplex.specs.Licences.{GivesLicence, IsLicensed};
ghost use Rattle.exact_simplex.specs.Relaxing.{IsStanding};
ghost use Rattle.branch_bound.specs.Columns.{IsWideColumn};
ghost use Rattle.branch_bound.specs.Exploring.{IsExplored};
ghost use Rattle.branch_bound.specs.Openings.{HasFullHelpers};
ghost use Rattle.branch_bound.specs.Origins.{IsOrigin};
ghost use Rattle.branch_bound.specs.Relaxations.{IsAnswer};

use crate::columns::wide_column;
use crate::found::Best;
use crate::gains::split_column;
use crate::leaf::Cut;
use crate::origin::Origin;
use crate::relaxing::{relaxed, relaxed_anew};
use bound_certificate::Multipliers;
use closed_boxes::{Closed, Settled, close, settle_helpers};
use exact_simplex::{Relaxed, Tableau};
use ip_model::{Bounds, Point, Program, value};
use std::alloc::{AllocError, Global};

/// What is found in a box.
#[derive(Debug, Drop)]
pub enum Explored {
    /// The multipliers refute the box.
    Refuted(Multipliers),
    /// A whole point whose value is at most the leaf bound of the multipliers, which some point of the relaxation does not exceed.
    Solved { best: Best, duals: Multipliers },
    /// The box can be split, and the multipliers bound it.
    Divided { cut: Cut, duals: Multipliers },
}

/// What is found in a box whose counts are fixed.
fn closed(alloc: Global, program: &Program, bounds: &Bounds) -> Result<Explored, AllocError>
    requires is_box { IsBoxOf program.now bounds.now }
    requires helpers { HasFullHelpers program.now bounds.now }
    requires fixed { (j : ℕ) → j < length program.now.columns → helper_at program.now.columns j ≡ false → slice_index bounds.now.low j ≡ slice_index bounds.now.high j }
    ensures { IfOk result (λ explored. IsExplored program.now bounds.now explored) }
{
    match close(alloc, program, bounds)? {
        Closed::Refuted(y) => Ok(Explored::Refuted(y)),
        Closed::Whole {
            point,
            value,
            duals,
        } => {
            let best = Best { point, value };
            Ok(Explored::Solved { best, duals })
        }
    }
}

/// The split of a wide column in its middle, which no point shows: the written method does not end in the box with an answer that fits.
fn halved(program: &Program, bounds: &Bounds, column: u32, duals: Multipliers) -> Explored
    requires is_box { IsBoxOf program.now bounds.now }
    requires wide { IsWideColumn program.now bounds.now column }
    requires rows { RowsInRange program.now duals }
    requires licensed { IsLicensed program.now bounds.now }
    ensures { IsExplored program.now bounds.now result }
{
    let low = bounds.low.as_slice()[column as usize];
    let high = bounds.high.as_slice()[column as usize];
    let cut = Cut {
        column,
        at: low + (high - low) / 2,
        shown: None,
    };
    Explored::Divided { cut, duals }
}

/// What is found at a least point of the relaxation whose counts are whole.
fn solved(
    alloc: Global,
    program: &Program,
    bounds: &Bounds,
    point: &Point,
    duals: Multipliers,
) -> Result<Explored, AllocError>
    requires is_box { IsBoxOf program.now bounds.now }
    requires rows { RowsInRange program.now duals }
    requires least { Certifies program.now bounds.now point.now duals }
    requires whole { (j : ℕ) → j < length program.now.columns → helper_at program.now.columns j ≡ false → slice_index point.now.part j ≡ 0 }
    ensures { IfOk result (λ explored. IsExplored program.now bounds.now explored) }
{
    match settle_helpers(alloc, program, &point.whole)? {
        Settled::Whole(point) => {
            let value = value(program, &point);
            let best = Best { point, value };
            Ok(Explored::Solved { best, duals })
        }
        Settled::Short { .. } => unreachable!(),
    }
}

/// What is found at a least point of the relaxation, by the tableau whose point it is.
fn divided(
    alloc: Global,
    program: &Program,
    bounds: &Bounds,
    point: Point,
    duals: Multipliers,
    at: &Tableau,
) -> Result<Explored, AllocError>
    requires is_box { IsBoxOf program.now bounds.now }
    requires rows { RowsInRange program.now duals }
    requires least { Certifies program.now bounds.now point duals }
    requires standing { IsStanding (parts_of program.now bounds.now) at.now }
    ensures { IfOk result (λ explored. IsExplored program.now bounds.now explored) }
{
    let Some(column) = split_column(program, &point, at) else {
        return solved(alloc, program, bounds, &point, duals);
    };
    let at = point.whole.as_slice()[column as usize];
    let cut = Cut {
        column,
        at,
        shown: Some(point),
    };
    Ok(Explored::Divided { cut, duals })
}

/// What is found by the relaxation of a box, which has a wide column, with the tableau that it reached.
fn explored_of(
    alloc: Global,
    program: &Program,
    bounds: &Bounds,
    column: u32,
    found: Relaxed,
) -> Result<(Explored, Tableau), AllocError>
    requires is_box { IsBoxOf program.now bounds.now }
    requires wide { IsWideColumn program.now bounds.now column }
    requires answer { IsAnswer program.now bounds.now found }
    requires licence { GivesLicence program.now bounds.now found }
    ensures explored { IfOk result (λ reached. IsExplored program.now bounds.now reached.0) }
    ensures standing { IfOk result (λ reached. IsStanding (parts_of program.now bounds.now) reached.1) }
{
    match found {
        Relaxed::Least { point, duals, at } => {
            let explored = divided(alloc, program, bounds, point, duals, &at)?;
            Ok((explored, at))
        }
        Relaxed::Empty { duals, at } => Ok((Explored::Refuted(duals), at)),
        Relaxed::Wide {
            at,
            row: _row,
            col: _col,
            duals,
        } => Ok((halved(program, bounds, column, duals), at)),
        Relaxed::Misfit { at, duals } => Ok((halved(program, bounds, column, duals), at)),
        Relaxed::Spent {
            at,
            made: _made,
            duals,
        } => Ok((halved(program, bounds, column, duals), at)),
    }
}

/// What is found in a box, whose relaxation starts from that of the whole program. The only fault is want of memory.
pub fn explore(
    alloc: Global,
    program: &Program,
    origin: &Origin,
    bounds: &Bounds,
) -> Result<Explored, AllocError>
    requires is_box { IsBoxOf program.now bounds.now }
    requires helpers { HasFullHelpers program.now bounds.now }
    requires origin { IsOrigin program.now origin.now }
    ensures { IfOk result (λ explored. IsExplored program.now bounds.now explored) }
{
    let Some(column) = wide_column(program, bounds) else {
        return closed(alloc, program, bounds);
    };
    let found = relaxed(alloc, program, origin, bounds)?;
    let (explored, _at) = explored_of(alloc, program, bounds, column, found)?;
    Ok(explored)
}

/// The same from the start tableau, with the tableau that was reached, where there is one. The only fault is want of memory.
pub fn explore_anew(
    alloc: Global,
    program: &Program,
    bounds: &Bounds,
) -> Result<(Explored, Option<Tableau>), AllocError>
    requires is_box { IsBoxOf program.now bounds.now }
    requires helpers { HasFullHelpers program.now bounds.now }
    ensures explored { IfOk result (λ reached. IsExplored program.now bounds.now reached.0) }
    ensures standing { IfOk result (λ reached. IfSome reached.1 (λ at. IsStanding (parts_of program.now bounds.now) at)) }
{
    let Some(column) = wide_column(program, bounds) else {
        let explored = closed(alloc, program, bounds)?;
        return Ok((explored, None));
    };
    let found = relaxed_anew(alloc, program, bounds)?;
    let (explored, at) = explored_of(alloc, program, bounds, column, found)?;
    Ok((explored, Some(at)))
}
