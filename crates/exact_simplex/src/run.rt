//! The written simplex method.
ghost use Rattle.std.specs.Prelude.{◌≡◌, ℕ, ◌<◌, ◌≤◌, true, None, Some, IfOk, IfSome, IfNone, length, slice_index};
ghost use Rattle.ip_model.specs.Points.{IsBoxOf};
ghost use Rattle.bound_certificate.specs.Bound.{RowsInRange};
ghost use Rattle.bound_certificate.specs.declared.multipliers.Multipliers.{Multipliers};
ghost use Rattle.exact_simplex.specs.Choices.{FirstCandidate};
ghost use Rattle.exact_simplex.specs.Forms.{parts_of};
ghost use Rattle.exact_simplex.specs.Answers.{IsMisfit, IsReachedAfter, IsReachedWithin, IsRelaxed, IsRelaxedFrom, IsWideWithin};
ghost use Rattle.exact_simplex.specs.Certificates.{AreDualsOfStop, AreExactDuals, AreExactRefutation, RefutationFits, UnitsDiffer};
ghost use Rattle.exact_simplex.specs.Licences.{GivesLicence, most_pivots};
ghost use Rattle.exact_simplex.specs.Relaxing.{IsFirstBelow, IsLeastTable, IsStanding, Stands};
ghost use Rattle.exact_simplex.specs.Tableaus.{Scaled};

use crate::multiples::{exact_multipliers, near_multipliers};
use crate::point::point_of;
use crate::relaxed::Relaxed;
use crate::row_weights::{dual_weights, refuting_weights};
use crate::start::start;
use crate::state::{Advance, State};
use crate::table::Tableau;
use bound_certificate::Multipliers;
use ip_model::{Bounds, Program};
use std::alloc::{AllocError, Global};

/// The duals of a tableau, rounded down where they do not fit: multipliers that bound the program from below.
fn near_duals(alloc: Global, program: &Program, at: &Tableau) -> Result<Multipliers, AllocError>
    requires some { 0 < length at.now.cells }
    requires units { UnitsDiffer at.now.units }
    ensures rows { IfOk result (λ y. RowsInRange program.now y) }
    ensures duals { IfOk result (λ y. AreDualsOfStop program.now at.now y) }
{
    let weights = dual_weights(alloc, at, program.rows.len())?;
    near_multipliers(alloc, weights.as_slice())
}

/// The duals of a tableau, where they fit.
fn exact_duals(
    alloc: Global,
    program: &Program,
    at: &Tableau,
) -> Result<Option<Multipliers>, AllocError>
    requires some { 0 < length at.now.cells }
    requires units { UnitsDiffer at.now.units }
    ensures duals { IfOk result (λ found. IfSome found (λ y. AreExactDuals program.now at.now y)) }
    ensures none { IfOk result (λ found. IfNone found ((y : Multipliers) → AreExactDuals program.now at.now y → ⊥)) }
{
    let weights = dual_weights(alloc, at, program.rows.len())?;
    exact_multipliers(alloc, weights.as_slice())
}

/// The refutation of a tableau that is empty at a row, where it fits.
fn exact_refutation(
    alloc: Global,
    program: &Program,
    at: &Tableau,
    row: u32,
) -> Result<Option<Multipliers>, AllocError>
    requires below { IsFirstBelow at.now.cells row }
    requires units { UnitsDiffer at.now.units }
    requires apart { (k : ℕ) → k < length at.now.units → slice_index at.now.units k ≡ row → ⊥ }
    ensures refutation { IfOk result (λ found. IfSome found (λ y. AreExactRefutation program.now at.now y)) }
    ensures none { IfOk result (λ found. IfNone found (RefutationFits program.now at.now → ⊥)) }
{
    let weights = refuting_weights(alloc, at, row, program.rows.len())?;
    exact_multipliers(alloc, weights.as_slice())
}

/// The answer of a tableau that is over and whose certificate does not fit.
fn misfit(
    alloc: Global,
    program: &Program,
    bounds: &Bounds,
    at: Tableau,
) -> Result<Relaxed, AllocError>
    requires some { 0 < length at.cells }
    requires units { UnitsDiffer at.units }
    ensures { IfOk result (λ found. (from : Scaled) (pivots : ℕ) → IsReachedWithin (parts_of program.now bounds.now) from pivots at → IsMisfit program.now bounds.now at → IsRelaxedFrom from program.now bounds.now pivots found) }
{
    let duals = near_duals(alloc, program, &at)?;
    Ok(Relaxed::Misfit { at, duals })
}

/// The answer of a least tableau.
fn least(
    alloc: Global,
    program: &Program,
    bounds: &Bounds,
    at: Tableau,
) -> Result<Relaxed, AllocError>
    requires is_box { IsBoxOf program.now bounds.now }
    requires standing { IsStanding (parts_of program.now bounds.now) at }
    requires least { IsLeastTable at.cells }
    ensures { IfOk result (λ found. (from : Scaled) (pivots : ℕ) → IsReachedWithin (parts_of program.now bounds.now) from pivots at → IsRelaxedFrom from program.now bounds.now pivots found) }
{
    let Some(point) = point_of(alloc, &at, bounds)? else {
        return misfit(alloc, program, bounds, at);
    };
    let Some(duals) = exact_duals(alloc, program, &at)? else {
        return misfit(alloc, program, bounds, at);
    };
    Ok(Relaxed::Least { point, duals, at })
}

/// The answer of a tableau that is empty at a row.
fn empty(
    alloc: Global,
    program: &Program,
    bounds: &Bounds,
    at: Tableau,
    row: u32,
) -> Result<Relaxed, AllocError>
    requires is_box { IsBoxOf program.now bounds.now }
    requires standing { IsStanding (parts_of program.now bounds.now) at }
    requires below { IsFirstBelow at.cells row }
    requires none { FirstCandidate None at.cells row (length at.units) }
    ensures { IfOk result (λ found. (from : Scaled) (pivots : ℕ) → IsReachedWithin (parts_of program.now bounds.now) from pivots at → IsRelaxedFrom from program.now bounds.now pivots found) }
{
    let Some(duals) = exact_refutation(alloc, program, &at, row)? else {
        return misfit(alloc, program, bounds, at);
    };
    Ok(Relaxed::Empty { duals, at })
}

/// The answer where the written pivot at a row does not fit.
fn wide(
    alloc: Global,
    program: &Program,
    bounds: &Bounds,
    at: Tableau,
    row: u32,
    col: Option<u32>,
) -> Result<Relaxed, AllocError>
    requires units { UnitsDiffer at.units }
    requires below { IsFirstBelow at.cells row }
    ensures { IfOk result (λ found. (from : Scaled) (pivots first : ℕ) → FirstCandidate (Some first) at.cells row (length at.units) → IsWideWithin (parts_of program.now bounds.now) from pivots at row col → IsRelaxedFrom from program.now bounds.now pivots found) }
{
    let duals = near_duals(alloc, program, &at)?;
    Ok(Relaxed::Wide {
        at,
        row,
        col,
        duals,
    })
}

/// The answer where all pivots were made and the tableau is not over.
fn spent(
    alloc: Global,
    program: &Program,
    bounds: &Bounds,
    at: Tableau,
    row: u32,
    first: u32,
    made: u64,
) -> Result<Relaxed, AllocError>
    requires units { UnitsDiffer at.units }
    requires below { IsFirstBelow at.cells row }
    requires first { FirstCandidate (Some first) at.cells row (length at.units) }
    ensures { IfOk result (λ found. (from : Scaled) → IsReachedAfter (parts_of program.now bounds.now) from made at → IsRelaxedFrom from program.now bounds.now made found) }
{
    let duals = near_duals(alloc, program, &at)?;
    Ok(Relaxed::Spent { at, made, duals })
}

/// Makes the written pivots from a tableau that stands for the program in the box, up to so many.
///
/// After want of memory the tableau is dropped.
pub fn relax_from(
    alloc: Global,
    program: &Program,
    bounds: &Bounds,
    start: Tableau,
    pivots: u64,
) -> Result<Relaxed, AllocError>
    requires is_box { IsBoxOf program.now bounds.now }
    requires standing { IsStanding (parts_of program.now bounds.now) start }
    ensures { IfOk result (λ found. (from : Scaled) → Stands (parts_of program.now bounds.now) start from → IsRelaxedFrom from program.now bounds.now pivots found) }
{
    let mut at = start;
    for step in 0..pivots {
        match at.state() {
            State::Least => return least(alloc, program, bounds, at),
            State::Empty { row } => return empty(alloc, program, bounds, at, row),
            State::Open { row, first } => match at.advance(alloc, row, first)? {
                Advance::Made { unit: _ } => {}
                Advance::Wide { column } => return wide(alloc, program, bounds, at, row, column),
            },
        }
    }
    match at.state() {
        State::Least => least(alloc, program, bounds, at),
        State::Empty { row } => empty(alloc, program, bounds, at, row),
        State::Open { row, first } => spent(alloc, program, bounds, at, row, first, pivots),
    }
}

/// Makes the written pivots from the start tableau of the program in the box, up to so many.
pub fn relax(
    alloc: Global,
    program: &Program,
    bounds: &Bounds,
    pivots: u64,
) -> Result<Relaxed, AllocError>
    requires { IsBoxOf program.now bounds.now }
    ensures relaxed { IfOk result (λ found. IsRelaxed program.now bounds.now pivots found) }
    ensures licence { IfOk result (λ found. pivots ≡ most_pivots program.now → GivesLicence program.now bounds.now found) }
{
    let at = start(alloc, program, bounds)?;
    relax_from(alloc, program, bounds, at, pivots)
}
