//! The whole point of an assignment.
ghost use Rattle.std.specs.Prelude.{◌≡◌, ◌<◌, ◌≤◌, ◌^◌, All, IfOk, IsTrue, count_by, length, nat_eq, slice_get};
ghost use Rattle.std.specs.Option.{option_eq};
ghost use Rattle.plan_model.specs.declared.cases.Grouping.{Grouping};
ghost use Rattle.plan_model.specs.Allowed.{fits};
ghost use Rattle.plan_model.specs.Costs.{board_units, greatest};
ghost use Rattle.plan_model.specs.Units.{units_in_center as center_units_of, units_on_board as board_units_of, units_on_rack as rack_units_of, want_of};
ghost use Rattle.ip_model.specs.Points.{IsWholePoint, value_of};
ghost use Rattle.program_rows.specs.Members.{gets, members_with as members_with_of};
ghost use Rattle.program_rows.specs.Phases.{phase_allowed, phase_cost, start_allowed};
ghost use Rattle.program_rows.specs.Settings.{setting_of, phase_classes};
ghost use Rattle.program_rows.specs.Sizes.{IsGrouped};
ghost use Rattle.class_expand.specs.Dealing.{IsProgramFor};
ghost use Rattle.class_expand.specs.Lifting.{counts_of, lack as lack_of, mark_in_range, number_among};

use ip_model::{Mark, Program};
use plan_model::{Assignment, Case, units_in_center, units_on_board, units_on_rack};
use program_rows::Phase;
use ras_table::List;
use std::alloc::{AllocError, Global};
use symmetry_classes::{Class, Classes};

/// Whether two destinations are the same.
fn is_same(first: Option<u32>, second: Option<u32>) -> bool
    ensures { result ≡ option_eq nat_eq first second }
{
    match (first, second) {
        (None, None) => true,
        (Some(q), Some(r)) => q == r,
        (None, Some(_)) => false,
        (Some(_), None) => false,
    }
}

/// How many of these servers get it.
fn count_with(a: &Assignment, members: &[u32], to: Option<u32>) -> u32
    requires within { All (λ s. s < length a.now.of) members.now }
    requires few { length members.now < 2 ^ 32 }
    ensures { result ≡ count_by (gets a.now to) members.now }
{
    let of = a.of.as_slice();
    let mut count = 0u32;
    for member in members {
        if is_same(of[*member as usize], to) {
            count += 1;
        }
    }
    count
}

/// How many members of a class get it.
fn members_with(a: &Assignment, classes: &[Class], class: u32, to: Option<u32>) -> u32
    requires { All (λ k. All (λ s. s < length a.now.of) k.members) classes.now }
    ensures { result ≡ members_with_of a.now to (slice_get classes.now class) }
{
    match classes.get(class as usize) {
        Some(k) => count_with(a, k.members.as_slice(), to),
        None => 0,
    }
}

/// The units of reservation r on one switchboard, at most 20,000,000.
fn on_board(case: &Case, a: &Assignment, r: u32, board: u32) -> u32
    requires fitting { IsTrue (fits case.now a.now) }
    requires there { r < length case.now.wants }
    requires board { board < case.now.boards }
    ensures units { result ≡ board_units_of case.now a.now r board }
    ensures most { result ≤ 20000000 }
{
    units_on_board(case, a, r, board) as u32
}

/// The units of reservation r on one rack, at most 20,000,000.
fn on_rack(case: &Case, a: &Assignment, r: u32, rack: u32) -> u32
    requires fitting { IsTrue (fits case.now a.now) }
    requires there { r < length case.now.wants }
    requires rack { rack < case.now.racks }
    ensures units { result ≡ rack_units_of case.now a.now r rack }
    ensures most { result ≤ 20000000 }
{
    units_on_rack(case, a, r, rack) as u32
}

/// The units of reservation r in one datacenter, at most 20,000,000.
fn in_center(case: &Case, a: &Assignment, r: u32, center: u32) -> u32
    requires fitting { IsTrue (fits case.now a.now) }
    requires there { r < length case.now.wants }
    requires center { center < case.now.centers }
    ensures units { result ≡ center_units_of case.now a.now r center }
    ensures most { result ≤ 20000000 }
{
    units_in_center(case, a, r, center) as u32
}

/// The largest units of reservation r on one switchboard.
fn largest_on_board(case: &Case, a: &Assignment, r: u32) -> u32
    requires fitting { IsTrue (fits case.now a.now) }
    requires there { r < length case.now.wants }
    ensures { result ≡ greatest (board_units case.now a.now r) }
{
    let mut largest = 0u32;
    for board in 0..case.boards {
        largest = largest.max(on_board(case, a, r, board));
    }
    largest
}

/// What reservation r lacks at a near entry.
fn lack(case: &Case, a: &Assignment, r: u32, entry: u32) -> u32
    requires fitting { IsTrue (fits case.now a.now) }
    requires there { r < length case.now.wants }
    requires entry { entry < length (want_of case.now r).near }
    ensures { result ≡ lack_of case.now a.now r (slice_get (want_of case.now r).near entry) }
{
    let want = &case.wants.as_slice()[r as usize];
    let goal = want.near.as_slice()[entry as usize];
    match goal.center {
        Some(center) => goal.least.saturating_sub(in_center(case, a, r, center)),
        None => goal.least,
    }
}

/// The number of a column: the members of a class that go there, or the least that a helper's rows allow.
fn number(case: &Case, classes: &[Class], a: &Assignment, mark: Mark) -> u32
    requires fitting { IsTrue (fits case.now a.now) }
    requires members { All (λ k. All (λ s. s < length a.now.of) k.members) classes.now }
    requires in_range { IsTrue (mark_in_range case.now mark) }
    ensures { result ≡ number_among case.now classes.now a.now mark }
{
    match mark {
        Mark::Count { class, to } => members_with(a, classes, class, to),
        Mark::Share { r } => largest_on_board(case, a, r),
        Mark::BoardExcess { r, board } => {
            let limit = case.wants.as_slice()[r as usize].spread_limit;
            on_board(case, a, r, board).saturating_sub(limit)
        }
        Mark::Shortage { r, entry } => lack(case, a, r, entry),
        Mark::RackExcess { r, rack } => {
            let limit = case.wants.as_slice()[r as usize].rack_limit;
            on_rack(case, a, r, rack).saturating_sub(limit)
        }
    }
}

/// The numbers of a program's columns at an assignment that is allowed in the phase: how many members of each class go to
/// each destination, and each helper at the least number that its rows allow. They are a whole point of the program, and
/// its value is the assignment's cost in the phase.
///
/// # Errors
/// For want of memory.
pub fn counts(
    alloc: Global,
    case: &Case,
    phase: &Phase<'_>,
    classes: &Classes,
    program: &Program,
    a: &Assignment,
) -> Result<List<u32>, AllocError>
    requires start { IsTrue (start_allowed case.now phase.now) }
    requires grouped { IsGrouped case.now phase.now classes.now.list }
    requires program { IsProgramFor case.now (setting_of case.now phase.now) classes.now.list program.now }
    requires fitting { IsTrue (fits case.now a.now) }
    requires allowed { IsTrue (phase_allowed case.now (setting_of case.now phase.now) a.now) }
    ensures counts { IfOk result (λ point. (how : Grouping) → classes.now.list ≡ phase_classes case.now (setting_of case.now phase.now) how → point ≡ counts_of case.now (setting_of case.now phase.now) how a.now) }
    ensures whole_point { IfOk result (λ point. IsWholePoint program.now point) }
    ensures value { IfOk result (λ point. value_of program.now point ≡ phase_cost case.now (setting_of case.now phase.now) a.now) }
{
    let list = classes.list.as_slice();
    let mut numbers = Vec::new(alloc);
    for column in program.columns.as_slice() {
        numbers.push(number(case, list, a, column.mark))?;
    }
    let point = List::from_vec(numbers);
    Ok(point)
}
