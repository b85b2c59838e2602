//! The classes of a phase, and its program.
ghost use Rattle.std.specs.Prelude.{◌≡◌, IfOk, IsTrue, is_some};
ghost use Rattle.program_rows.specs.Accepted.{phase_program};
ghost use Rattle.program_rows.specs.Programs.{program_fits};
ghost use Rattle.plan_checker.specs.Shape.{counts_racks};
ghost use Rattle.program_rows.specs.Settings.{phase_classes as phase_classes_of, setting_of, start_fits};

use ip_model::Program;
use plan_model::{Case, Grouping};
use program_rows::{Phase, SizeFault, build, movables};
use std::alloc::{AllocError, Global};
use symmetry_classes::{Classes, group};

/// Whether racks count in a phase.
fn counts_racks(phase: &Phase<'_>) -> bool
    ensures { result ≡ counts_racks phase.now }
{
    match phase {
        Phase::Region => false,
        Phase::Rack { .. } => true,
    }
}

/// The classes of the servers that a phase may move, by this grouping.
///
/// # Errors
/// For want of memory.
pub fn phase_classes(
    alloc: Global,
    case: &Case,
    phase: &Phase<'_>,
    how: Grouping,
) -> Result<Classes, AllocError>
    requires { IsTrue (start_fits case.now phase.now) }
    ensures { IfOk result (λ classes. classes.list ≡ phase_classes_of case.now (setting_of case.now phase.now) how) }
{
    let flags = movables(alloc, case, phase)?;
    group(alloc, case, &flags, counts_racks(phase), how)
}

/// The program of a phase and a grouping, or none where it has too many columns or rows.
pub fn program_of(
    alloc: Global,
    case: &Case,
    phase: &Phase<'_>,
    how: Grouping,
) -> Result<Option<Program>, AllocError>
    requires { IsTrue (start_fits case.now phase.now) }
    ensures program { IfOk result (λ program. program ≡ phase_program case.now (setting_of case.now phase.now) how) }
    ensures size { IfOk result (λ program. is_some program ≡ program_fits case.now (setting_of case.now phase.now) (phase_classes_of case.now (setting_of case.now phase.now) how)) }
{
    let classes = phase_classes(alloc, case, phase, how)?;
    match build(alloc, case, &classes, phase) {
        Ok(program) => Ok(Some(program)),
        Err(SizeFault::Memory) => Err(AllocError),
        Err(_) => Ok(None),
    }
}
