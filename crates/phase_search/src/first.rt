//! The first point of a phase.
ghost use Rattle.std.specs.Prelude.{IfOk, IfSome, IsTrue, option_map};
ghost use Rattle.program_rows.specs.Phases.{phase_allowed, phase_cost};
ghost use Rattle.program_rows.specs.Settings.{setting_of};
ghost use Rattle.phase_search.specs.Phases.{IsFirstPoint, IsReady};

use class_expand::counts;
use ip_model::Program;
use plan_model::{Assignment, Case};
use program_rows::Phase;
use ras_table::List;
use std::alloc::{AllocError, Global};
use symmetry_classes::Classes;

/// The point of a first assignment, if there is one.
pub(crate) fn first_point(
    alloc: Global,
    case: &Case,
    phase: &Phase<'_>,
    classes: &Classes,
    program: &Program,
    first: Option<&Assignment>,
) -> Result<Option<List<u32>>, AllocError>
    requires ready { IsReady case.now phase.now classes.now.list program.now }
    requires allowed { IfSome first (λ a. IsTrue (phase_allowed case.now (setting_of case.now phase.now) a.now)) }
    ensures { IfOk result (λ point. IsFirstPoint program.now (phase_cost case.now (setting_of case.now phase.now)) (option_map (λ a. a.now) first.entry) point) }
{
    let Some(a) = first else {
        return Ok(None);
    };
    let point = counts(alloc, case, phase, classes, program, a)?;
    Ok(Some(point))
}
