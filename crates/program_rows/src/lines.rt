//! The rows of the program of a phase.
ghost use Rattle.std.specs.Prelude.{◌≡◌, ◌<◌, ◌≤◌, ◌^◌, ◌++◌, [], ◌∷◌, All, IfOk, IsTrue, OnOk, flat_map, if◌then◌else◌, length, map};
ghost use Rattle.std.specs.List.{enumerate_from, range_with_len};
ghost use Rattle.program_rows.specs.Programs.{board_in_center, class_lines, total_line, loss_line, center_short_lines};
ghost use Rattle.plan_model.specs.Units.{is_for};
ghost use Rattle.program_rows.specs.Reach.{ReachFits, reach_shares};
ghost use Rattle.program_rows.specs.Sums.{sum_fits, line_of, left_line, most_row, least_row, reach_losses, reach_largest_shares, reach_board_overs, reach_rack_overs, reach_lines, short_line};

use crate::columns::{costs, excess_boards, has_share};
use crate::reach::Reach;
use crate::sums::{Among, Row, Sum, written};
use crate::values::want_at;
use ip_model::{Column, Line, Mark, RowKind};
use plan_model::{Case, Goal, Lost, Place, loss_at};
use std::alloc::{AllocError, Global};
use symmetry_classes::Class;

/// Adds a row.
fn push_row(
    alloc: Global,
    case: &Case,
    classes: &[Class],
    columns: &[Column],
    row: &Row<'_>,
    rows: &mut Vec<Line>,
) -> Result<(), AllocError>
    requires fits { IsTrue (sum_fits case.now row.now.sum) }
    requires few { length columns.now ≤ 2048 }
    ensures { OnOk result (rows.new.items ≡ rows.old.items ++ line_of case.now classes.now columns.now row.now ∷ []) }
{
    rows.push(written(alloc, case, classes, columns, row)?)?;
    Ok(())
}

/// Adds the two rows of a class: its columns have as many as it has members.
fn push_class_rows(
    alloc: Global,
    case: &Case,
    classes: &[Class],
    columns: &[Column],
    number: u32,
    members: u32,
    rows: &mut Vec<Line>,
) -> Result<(), AllocError>
    requires members { members ≤ 20000 }
    requires few { length columns.now ≤ 2048 }
    ensures { OnOk result (rows.new.items ≡ rows.old.items ++ line_of case.now classes.now columns.now (most_row number members) ∷ line_of case.now classes.now columns.now (least_row number members) ∷ []) }
{
    let most = Row {
        kind: RowKind::ClassMost,
        sum: Sum::LessClass(number),
        least: -(members as i32),
    };
    push_row(alloc, case, classes, columns, &most, rows)?;
    let least = Row {
        kind: RowKind::ClassLeast,
        sum: Sum::OfClass(number),
        least: members as i32,
    };
    push_row(alloc, case, classes, columns, &least, rows)
}

/// Adds the rows of all classes.
pub(crate) fn push_all_class_rows(
    alloc: Global,
    case: &Case,
    classes: &[Class],
    columns: &[Column],
    rows: &mut Vec<Line>,
) -> Result<(), AllocError>
    requires members { All (λ class. length class.members ≤ 20000) classes.now }
    requires classes { length classes.now < 2 ^ 32 }
    requires few { length columns.now ≤ 2048 }
    ensures { OnOk result (rows.new.items ≡ rows.old.items ++ flat_map (class_lines columns.now) (enumerate_from 0 classes.now)) }
{
    for (number, class) in classes.iter().enumerate() {
        push_class_rows(
            alloc,
            case,
            classes,
            columns,
            number as u32,
            class.members.len(),
            rows,
        )?;
    }
    Ok(())
}

/// Adds the row of what a reservation needs.
fn push_total(
    alloc: Global,
    case: &Case,
    classes: &[Class],
    columns: &[Column],
    r: u32,
    rows: &mut Vec<Line>,
) -> Result<(), AllocError>
    requires there { r < length case.now.wants }
    requires few { length columns.now ≤ 2048 }
    ensures { OnOk result (rows.new.items ≡ rows.old.items ++ total_line case.now classes.now columns.now r ∷ []) }
{
    let row = Row {
        kind: RowKind::Total,
        sum: Sum::Units(r, Among::Every),
        least: want_at(case, r).need as i32,
    };
    push_row(alloc, case, classes, columns, &row, rows)
}

/// Adds the row of what a reservation needs from the classes that are left after a loss.
fn push_left(
    alloc: Global,
    case: &Case,
    classes: &[Class],
    columns: &[Column],
    r: u32,
    left: Among<'_>,
    rows: &mut Vec<Line>,
) -> Result<(), AllocError>
    requires there { r < length case.now.wants }
    requires few { length columns.now ≤ 2048 }
    ensures { OnOk result (rows.new.items ≡ rows.old.items ++ left_line case.now classes.now columns.now r left.entry ∷ []) }
{
    let row = Row {
        kind: RowKind::Loss,
        sum: Sum::Units(r, left),
        least: want_at(case, r).need as i32,
    };
    push_row(alloc, case, classes, columns, &row, rows)
}

/// Adds the row of what a reservation needs after a loss.
fn push_loss(
    alloc: Global,
    case: &Case,
    classes: &[Class],
    columns: &[Column],
    r: u32,
    lost: Lost,
    rows: &mut Vec<Line>,
) -> Result<(), AllocError>
    requires there { r < length case.now.wants }
    requires few { length columns.now ≤ 2048 }
    ensures { OnOk result (rows.new.items ≡ rows.old.items ++ loss_line case.now classes.now columns.now r lost ∷ []) }
{
    match lost {
        Lost::Total => push_left(alloc, case, classes, columns, r, Among::Every, rows),
        Lost::Board(board) => push_left(
            alloc,
            case,
            classes,
            columns,
            r,
            Among::OffBoard(board),
            rows,
        ),
        Lost::Center(center) => {
            let flags = boards_in(alloc, case, Some(center))?;
            push_left(
                alloc,
                case,
                classes,
                columns,
                r,
                Among::OffBoards(flags.as_slice()),
                rows,
            )?;
            Ok(())
        }
    }
}

/// Adds the rows of what a reservation needs after the losses that its protection names.
fn push_losses(
    alloc: Global,
    case: &Case,
    classes: &[Class],
    columns: &[Column],
    reach: &Reach,
    rows: &mut Vec<Line>,
) -> Result<(), AllocError>
    requires reach { ReachFits case.now reach.now }
    requires few { length columns.now ≤ 2048 }
    ensures { OnOk result (rows.new.items ≡ rows.old.items ++ reach_losses case.now classes.now columns.now reach.now) }
{
    let r = reach.reservation;
    let protection = want_at(case, r).protection;
    for number in reach.losses.as_slice() {
        push_loss(
            alloc,
            case,
            classes,
            columns,
            r,
            loss_at(protection, *number),
            rows,
        )?;
    }
    Ok(())
}

/// The switchboards whose units the share column is to reach.
pub(crate) fn share_boards<'a>(case: &Case, reach: &'a Reach) -> &'a [u32]
    requires { ReachFits case.now reach.now }
    ensures { result.now ≡ (if reach_shares case.now reach.now then reach.now.boards else []) }
{
    if has_share(case, reach) {
        reach.boards.as_slice()
    } else {
        &[]
    }
}

/// Adds the rows that keep the share column at the largest switchboard of a reservation.
fn push_largest_shares(
    alloc: Global,
    case: &Case,
    classes: &[Class],
    columns: &[Column],
    reach: &Reach,
    rows: &mut Vec<Line>,
) -> Result<(), AllocError>
    requires reach { ReachFits case.now reach.now }
    requires few { length columns.now ≤ 2048 }
    ensures { OnOk result (rows.new.items ≡ rows.old.items ++ reach_largest_shares case.now classes.now columns.now reach.now) }
{
    let r = reach.reservation;
    for board in share_boards(case, reach) {
        let row = Row {
            kind: RowKind::LargestShare,
            sum: Sum::HelperLess(Mark::Share { r }, r, Among::OnBoard(*board)),
            least: 0,
        };
        push_row(alloc, case, classes, columns, &row, rows)?;
    }
    Ok(())
}

/// Adds the rows of the excess on switchboards of a reservation.
fn push_board_overs(
    alloc: Global,
    case: &Case,
    classes: &[Class],
    columns: &[Column],
    reach: &Reach,
    rows: &mut Vec<Line>,
) -> Result<(), AllocError>
    requires reach { ReachFits case.now reach.now }
    requires few { length columns.now ≤ 2048 }
    ensures { OnOk result (rows.new.items ≡ rows.old.items ++ reach_board_overs case.now classes.now columns.now reach.now) }
{
    let r = reach.reservation;
    let least = -(want_at(case, r).spread_limit as i32);
    for board in excess_boards(case, reach) {
        let helper = Mark::BoardExcess { r, board: *board };
        let row = Row {
            kind: RowKind::BoardOver,
            sum: Sum::HelperLess(helper, r, Among::OnBoard(*board)),
            least,
        };
        push_row(alloc, case, classes, columns, &row, rows)?;
    }
    Ok(())
}

/// Adds the rows of the excess on racks of a reservation.
fn push_rack_overs(
    alloc: Global,
    case: &Case,
    classes: &[Class],
    columns: &[Column],
    reach: &Reach,
    rows: &mut Vec<Line>,
) -> Result<(), AllocError>
    requires reach { ReachFits case.now reach.now }
    requires few { length columns.now ≤ 2048 }
    ensures { OnOk result (rows.new.items ≡ rows.old.items ++ reach_rack_overs case.now classes.now columns.now reach.now) }
{
    let r = reach.reservation;
    let least = -(want_at(case, r).rack_limit as i32);
    for rack in reach.racks.as_slice() {
        let helper = Mark::RackExcess { r, rack: *rack };
        let row = Row {
            kind: RowKind::RackOver,
            sum: Sum::HelperLess(helper, r, Among::InRack(*rack)),
            least,
        };
        push_row(alloc, case, classes, columns, &row, rows)?;
    }
    Ok(())
}

/// Whether a server stands in a datacenter, which the inventory may lack.
fn stands_in(place: &Place, center: Option<u32>) -> bool
    ensures { result ≡ is_for place.now.center center }
{
    match center {
        Some(d) => d == place.center,
        None => false,
    }
}

/// For each switchboard, whether it is in the datacenter.
fn boards_in(alloc: Global, case: &Case, center: Option<u32>) -> Result<Vec<bool>, AllocError>
    ensures { IfOk result (λ flags. flags.items ≡ map (board_in_center case.now center) (range_with_len 0 case.now.boards)) }
{
    let mut flags = vec![in alloc; false; case.boards as usize]?;
    for place in case.places.as_slice() {
        if stands_in(place, center) {
            flags[place.board as usize] = true;
        }
    }
    Ok(flags)
}

/// Adds the row of the shortage at a near entry of a reservation.
fn push_center_short(
    alloc: Global,
    case: &Case,
    classes: &[Class],
    columns: &[Column],
    r: u32,
    entry: u32,
    goal: Goal,
    rows: &mut Vec<Line>,
) -> Result<(), AllocError>
    requires there { r < length case.now.wants }
    requires least { goal.least ≤ 10000000 }
    requires few { length columns.now ≤ 2048 }
    ensures { OnOk result (rows.new.items ≡ rows.old.items ++ short_line case.now classes.now columns.now r (entry, goal) ∷ []) }
{
    let flags = boards_in(alloc, case, goal.center)?;
    let helper = Mark::Shortage { r, entry };
    let row = Row {
        kind: RowKind::CenterShort,
        sum: Sum::HelperPlus(helper, r, Among::OnBoards(flags.as_slice())),
        least: goal.least as i32,
    };
    push_row(alloc, case, classes, columns, &row, rows)?;
    Ok(())
}

/// Adds the rows of the shortages of a reservation.
fn push_center_shorts(
    alloc: Global,
    case: &Case,
    classes: &[Class],
    columns: &[Column],
    r: u32,
    rows: &mut Vec<Line>,
) -> Result<(), AllocError>
    requires there { r < length case.now.wants }
    requires few { length columns.now ≤ 2048 }
    ensures { OnOk result (rows.new.items ≡ rows.old.items ++ center_short_lines case.now classes.now columns.now r) }
{
    let near = want_at(case, r).near.as_slice();
    for (entry, goal) in near.iter().enumerate() {
        if costs(goal) {
            push_center_short(alloc, case, classes, columns, r, entry as u32, *goal, rows)?;
        }
    }
    Ok(())
}

/// Adds the rows of a reservation, kind by kind.
fn push_reach_rows(
    alloc: Global,
    case: &Case,
    classes: &[Class],
    columns: &[Column],
    reach: &Reach,
    rows: &mut Vec<Line>,
) -> Result<(), AllocError>
    requires reach { ReachFits case.now reach.now }
    requires few { length columns.now ≤ 2048 }
    ensures { OnOk result (rows.new.items ≡ rows.old.items ++ reach_lines case.now classes.now columns.now reach.now) }
{
    let r = reach.reservation;
    push_total(alloc, case, classes, columns, r, rows)?;
    push_losses(alloc, case, classes, columns, reach, rows)?;
    push_largest_shares(alloc, case, classes, columns, reach, rows)?;
    push_board_overs(alloc, case, classes, columns, reach, rows)?;
    push_center_shorts(alloc, case, classes, columns, r, rows)?;
    push_rack_overs(alloc, case, classes, columns, reach, rows)
}

/// Adds the rows of all active reservations.
pub(crate) fn push_all_reach_rows(
    alloc: Global,
    case: &Case,
    classes: &[Class],
    columns: &[Column],
    reaches: &[Reach],
    rows: &mut Vec<Line>,
) -> Result<(), AllocError>
    requires reaches { All (ReachFits case.now) reaches.now }
    requires few { length columns.now ≤ 2048 }
    ensures { OnOk result (rows.new.items ≡ rows.old.items ++ flat_map (reach_lines case.now classes.now columns.now) reaches.now) }
{
    for reach in reaches {
        push_reach_rows(alloc, case, classes, columns, reach, rows)?;
    }
    Ok(())
}
