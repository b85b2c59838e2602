//! The program of a phase.
ghost use Rattle.std.specs.Prelude.{◌≡◌, ◌≤◌, ◌<◌, ◌++◌, All, IfErr, IfOk, IsTrue, None, OnOk, flat_map, length, map};
ghost use Rattle.std.specs.List.{enumerate_from};
ghost use Rattle.program_rows.specs.Programs.{class_lines, program_base, program_columns, program_lines};
ghost use Rattle.program_rows.specs.Reach.{ReachFits, columns_of_class, reach_columns, reach_of};
ghost use Rattle.program_rows.specs.Settings.{setting_of, start_fits};
ghost use Rattle.program_rows.specs.Sizes.{IsGrouped, IsFault, size_fault_of};
ghost use Rattle.program_rows.specs.Sums.{reach_lines};

use crate::base::base;
use crate::columns::{push_count_columns, push_helper_columns};
use crate::fault::SizeFault;
use crate::lines::{push_all_class_rows, push_all_reach_rows};
use crate::phases::Phase;
use crate::reach::{Reach, reaches};
use crate::servers::active_reservations;
use crate::sizes::{count_class_columns, count_helpers, rows_of_kind};
use ip_model::{Column, Line, Program, RowKind};
use plan_model::Case;
use ras_table::List;
use std::alloc::{AllocError, Global};
use symmetry_classes::{Class, Classes};

/// The kinds of rows, in the order in which a class and then a reservation has them.
pub const ROW_KINDS: [RowKind; 8] = [
    RowKind::ClassMost,
    RowKind::ClassLeast,
    RowKind::Total,
    RowKind::Loss,
    RowKind::LargestShare,
    RowKind::BoardOver,
    RowKind::CenterShort,
    RowKind::RackOver,
];

/// A program has at most so many columns, and at most so many rows.
const MOST: u32 = 2048;

/// The columns: first the counts, class by class, and then the helpers, reservation by reservation.
fn columns_of(
    alloc: Global,
    case: &Case,
    active: &[u32],
    reaches: &[Reach],
    classes: &[Class],
) -> Result<Vec<Column>, AllocError>
    requires active { All (λ r. r < length case.now.wants) active.now }
    requires fit { All (ReachFits case.now) reaches.now }
    requires few { length classes.now ≤ 20000 }
    ensures { IfOk result (λ columns. columns.items ≡ flat_map (columns_of_class case.now active.now) (enumerate_from 0 classes.now) ++ flat_map (reach_columns case.now) reaches.now) }
{
    let mut columns = Vec::new(alloc);
    push_count_columns(case, active, classes, &mut columns)?;
    push_helper_columns(case, reaches, &mut columns)?;
    Ok(columns)
}

/// The rows: first those of the classes, and then those of the reservations.
fn rows_of(
    alloc: Global,
    case: &Case,
    reaches: &[Reach],
    classes: &[Class],
    columns: &[Column],
) -> Result<Vec<Line>, AllocError>
    requires fit { All (ReachFits case.now) reaches.now }
    requires members { All (λ class. length class.members ≤ 20000) classes.now }
    requires few { length classes.now ≤ 20000 }
    requires columns { length columns.now ≤ 2048 }
    ensures { IfOk result (λ rows. rows.items ≡ flat_map (class_lines columns.now) (enumerate_from 0 classes.now) ++ flat_map (reach_lines case.now classes.now columns.now) reaches.now) }
{
    let mut rows = Vec::new(alloc);
    push_all_class_rows(alloc, case, classes, columns, &mut rows)?;
    push_all_reach_rows(alloc, case, classes, columns, reaches, &mut rows)?;
    Ok(rows)
}

/// The classes, within their limits.
fn lent<'a>(case: &Case, phase: &Phase<'_>, classes: &'a Classes) -> &'a [Class]
    requires start { IsTrue (start_fits case.now phase.now) }
    requires grouped { IsGrouped case.now phase.now classes.now.list }
    ensures classes { result.now ≡ classes.now.list }
    ensures few { length result.now ≤ 20000 }
    ensures members { All (λ class. length class.members ≤ 20000) result.now }
{
    classes.list.as_slice()
}

/// How many columns the program has.
fn count_columns(
    case: &Case,
    phase: &Phase<'_>,
    active: &[u32],
    found: &[Reach],
    classes: &[Class],
) -> u32
    requires active { active.now ≡ (setting_of case.now phase.now).active }
    requires there { All (λ r. r < length case.now.wants) active.now }
    requires active_few { length active.now ≤ 64 }
    requires found { found.now ≡ map (reach_of case.now (setting_of case.now phase.now)) active.now }
    requires fit { All (ReachFits case.now) found.now }
    requires found_few { length found.now ≤ 64 }
    requires classes { length classes.now ≤ 20000 }
    ensures { result ≡ length (program_columns case.now (setting_of case.now phase.now) classes.now) }
{
    count_class_columns(case, active, classes) + count_helpers(case, found)
}

/// The program, where its size fits.
fn program_of(
    alloc: Global,
    case: &Case,
    phase: &Phase<'_>,
    active: &[u32],
    found: &[Reach],
    classes: &[Class],
) -> Result<Program, AllocError>
    requires start { IsTrue (start_fits case.now phase.now) }
    requires grouped { IsGrouped case.now phase.now classes.now }
    requires active { active.now ≡ (setting_of case.now phase.now).active }
    requires there { All (λ r. r < length case.now.wants) active.now }
    requires found { found.now ≡ map (reach_of case.now (setting_of case.now phase.now)) active.now }
    requires fit { All (ReachFits case.now) found.now }
    requires classes { length classes.now ≤ 20000 }
    requires members { All (λ class. length class.members ≤ 20000) classes.now }
    requires columns { length (program_columns case.now (setting_of case.now phase.now) classes.now) ≤ 2048 }
    requires rows { length (program_lines case.now (setting_of case.now phase.now) classes.now) ≤ 2048 }
    ensures base { IfOk result (λ program. program.base ≡ program_base case.now (setting_of case.now phase.now)) }
    ensures columns { IfOk result (λ program. program.columns ≡ program_columns case.now (setting_of case.now phase.now) classes.now) }
    ensures rows { IfOk result (λ program. program.rows ≡ program_lines case.now (setting_of case.now phase.now) classes.now) }
{
    let columns = columns_of(alloc, case, active, found, classes)?;
    let rows = rows_of(alloc, case, found, classes, columns.as_slice())?;
    let base = base(case, phase);
    Ok(Program {
        base,
        columns: List::from_vec(columns),
        rows: List::from_vec(rows),
    })
}

/// The integer program of a phase over the classes of the servers that it may move. Its whole points are the allowed
/// assignments, counted by class, and the least value of one is the least cost. Sizes are counted before anything is
/// built. Time near linear in the servers for each active reservation, and in columns times rows.
///
/// # Errors
/// Exactly where the program has more than 2,048 columns, or else more than 2,048 rows; or for want of memory.
pub fn build(
    alloc: Global,
    case: &Case,
    classes: &Classes,
    phase: &Phase<'_>,
) -> Result<Program, SizeFault>
    requires start { IsTrue (start_fits case.now phase.now) }
    requires grouped { IsGrouped case.now phase.now classes.now.list }
    ensures base { IfOk result (λ program. program.base ≡ program_base case.now (setting_of case.now phase.now)) }
    ensures columns { IfOk result (λ program. program.columns ≡ program_columns case.now (setting_of case.now phase.now) classes.now.list) }
    ensures rows { IfOk result (λ program. program.rows ≡ program_lines case.now (setting_of case.now phase.now) classes.now.list) }
    ensures fits { OnOk result (size_fault_of case.now (setting_of case.now phase.now) classes.now.list ≡ None) }
    ensures fault { IfErr result (IsFault (size_fault_of case.now (setting_of case.now phase.now) classes.now.list)) }
{
    let list = lent(case, phase, classes);
    let active = active_reservations(alloc, case, phase)?;
    let reaches = reaches(alloc, case, phase, active.as_slice())?;
    let found = reaches.as_slice();
    let columns = count_columns(case, phase, active.as_slice(), found, list);
    if columns > MOST {
        return Err(SizeFault::Columns(columns));
    }
    let number = list.len() as u32;
    macro_rules! rows_of_kinds {
        ($($place:literal)*) => { 0 $(+ rows_of_kind(case, ROW_KINDS[$place], number, found))* };
    }
    let rows = rows_of_kinds!(0 1 2 3 4 5 6 7);
    if rows > MOST {
        return Err(SizeFault::Rows(rows));
    }
    let program = program_of(alloc, case, phase, active.as_slice(), found, list)?;
    Ok(program)
}
