//! The relaxation of a box: from the tableau of the whole program where that serves, else anew.
ghost use Rattle.std.specs.Prelude.{◌≡◌, IfOk, IfSome, IsTrue};
ghost use Rattle.ip_model.specs.declared.parts.Bounds.{Bounds};
ghost use Rattle.ip_model.specs.declared.program.Program.{Program};
ghost use Rattle.ip_model.specs.Points.{IsBoxOf};
ghost use Rattle.exact_simplex.specs.Licences.{GivesLicence, most_pivots};
ghost use Rattle.branch_bound.specs.Origins.{IsOrigin};
ghost use Rattle.branch_bound.specs.Relaxations.{IsAnswer};

use crate::origin::Origin;
use exact_simplex::{Relaxed, rebound, relax, relax_from};
use ip_model::{Bounds, Program};
use std::alloc::{AllocError, Global};

/// The most pivots of the written method.
fn most_pivots(program: &Program) -> u64
    ensures { result ≡ most_pivots program.now }
{
    8 * (u64::from(program.rows.len()) + u64::from(program.columns.len()))
}

/// What the written method answers in the box, from its start tableau. A stop of it gives the box a licence.
pub fn relaxed_anew(
    alloc: Global,
    program: &Program,
    bounds: &Bounds,
) -> Result<Relaxed, AllocError>
    requires { IsBoxOf program.now bounds.now }
    ensures answer { IfOk result (λ found. IsAnswer program.now bounds.now found) }
    ensures licence { IfOk result (λ found. GivesLicence program.now bounds.now found) }
{
    let found = relax(alloc, program, bounds, most_pivots(program))?;
    Ok(found)
}

/// Whether an answer has a point or a refutation, so that it needs no licence.
fn is_decided(found: &Relaxed) -> bool
    ensures { IsTrue result → (program : Program) (box : Bounds) → GivesLicence program box found.now }
{
    matches!(found, Relaxed::Least { .. } | Relaxed::Empty { .. })
}

/// What the pivots from the tableau of the whole program, changed to the box, answer. There is none where there is no such tableau, the
/// change does not fit, or the pivots reach neither a point nor a refutation: a stop of theirs gives no licence.
fn relaxed_on(
    alloc: Global,
    program: &Program,
    origin: &Origin,
    bounds: &Bounds,
) -> Result<Option<Relaxed>, AllocError>
    requires is_box { IsBoxOf program.now bounds.now }
    requires origin { IsOrigin program.now origin.now }
    ensures answer { IfOk result (λ found. IfSome found (λ relaxed. IsAnswer program.now bounds.now relaxed)) }
    ensures licence { IfOk result (λ found. IfSome found (λ relaxed. GivesLicence program.now bounds.now relaxed)) }
{
    let Some(at) = &origin.at else {
        return Ok(None);
    };
    let Some(start) = rebound(alloc, at, program, &origin.full, bounds)? else {
        return Ok(None);
    };
    let found = relax_from(alloc, program, bounds, start, most_pivots(program))?;
    if !is_decided(&found) {
        return Ok(None);
    }
    Ok(Some(found))
}

/// What the relaxation of a box answers: from the tableau of the whole program, or else anew.
pub fn relaxed(
    alloc: Global,
    program: &Program,
    origin: &Origin,
    bounds: &Bounds,
) -> Result<Relaxed, AllocError>
    requires is_box { IsBoxOf program.now bounds.now }
    requires origin { IsOrigin program.now origin.now }
    ensures answer { IfOk result (λ found. IsAnswer program.now bounds.now found) }
    ensures licence { IfOk result (λ found. GivesLicence program.now bounds.now found) }
{
    if let Some(found) = relaxed_on(alloc, program, origin, bounds)? {
        return Ok(found);
    }
    relaxed_anew(alloc, program, bounds)
}
