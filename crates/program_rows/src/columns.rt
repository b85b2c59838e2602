//! The columns of the program of a phase.
ghost use Rattle.std.specs.Prelude.{◌≡◌, ◌<◌, ◌^◌, ◌&&◌, ◌++◌, All, OnOk, flat_map, length, nat_lt};
ghost use Rattle.std.specs.List.{enumerate_from};
ghost use Rattle.program_rows.specs.Programs.{count_column as count_column_of, helper_column as helper_column_of, shortage_columns};
ghost use Rattle.program_rows.specs.Reach.{ReachFits, columns_of_class, reach_shares, reach_share, reach_excess, reach_board_excess, reach_rack_excess, reach_columns};

use crate::reach::Reach;
use crate::values::{up_cost, value, want_at};
use ip_model::{Column, Mark};
use plan_model::{Case, Goal};
use std::alloc::AllocError;
use symmetry_classes::Class;

/// The column of a class and a destination: its members that go there, at the cost of one.
fn count_column(case: &Case, number: u32, class: &Class, to: Option<u32>) -> Column
    ensures { result ≡ count_column_of case.now (number, class.now) to }
{
    Column {
        cost: up_cost(case, class.holder, class.busy, to),
        top: class.members.len(),
        mark: Mark::Count { class: number, to },
    }
}

/// The column of a helper.
fn helper_column(mark: Mark, cost: u32, top: u32) -> Column
    ensures { result ≡ helper_column_of mark cost top }
{
    Column { cost, top, mark }
}

/// Adds the columns of a class: a column for each active reservation with a value above 0 for its type, and one for
/// none.
fn push_class_columns(
    case: &Case,
    active: &[u32],
    number: u32,
    class: &Class,
    columns: &mut Vec<Column>,
) -> Result<(), AllocError>
    requires { All (λ r. r < length case.now.wants) active.now }
    ensures { OnOk result (columns.new.items ≡ columns.old.items ++ columns_of_class case.now active.now (number, class.now)) }
{
    for r in active {
        if value(case, *r, class.kind) > 0 {
            columns.push(count_column(case, number, class, Some(*r)))?;
        }
    }
    columns.push(count_column(case, number, class, None))?;
    Ok(())
}

/// Adds the columns of all classes.
pub(crate) fn push_count_columns(
    case: &Case,
    active: &[u32],
    classes: &[Class],
    columns: &mut Vec<Column>,
) -> Result<(), AllocError>
    requires active { All (λ r. r < length case.now.wants) active.now }
    requires few { length classes.now < 2 ^ 32 }
    ensures { OnOk result (columns.new.items ≡ columns.old.items ++ flat_map (columns_of_class case.now active.now) (enumerate_from 0 classes.now)) }
{
    for (number, class) in classes.iter().enumerate() {
        push_class_columns(case, active, number as u32, class, columns)?;
    }
    Ok(())
}

/// Whether a reservation has a share column.
pub(crate) fn has_share(case: &Case, reach: &Reach) -> bool
    requires { ReachFits case.now reach.now }
    ensures { result ≡ reach_shares case.now reach.now }
{
    want_at(case, reach.reservation).buffer_weight > 0 && reach.value > 0
}

/// Adds the column of the largest switchboard of a reservation, where it costs.
fn push_share(case: &Case, reach: &Reach, columns: &mut Vec<Column>) -> Result<(), AllocError>
    requires { ReachFits case.now reach.now }
    ensures { OnOk result (columns.new.items ≡ columns.old.items ++ reach_share case.now reach.now) }
{
    let r = reach.reservation;
    if has_share(case, reach) {
        let cost = want_at(case, r).buffer_weight;
        columns.push(helper_column(Mark::Share { r }, cost, reach.value))?;
    }
    Ok(())
}

/// The switchboards whose excess costs a reservation.
pub(crate) fn excess_boards<'a>(case: &Case, reach: &'a Reach) -> &'a [u32]
    requires { ReachFits case.now reach.now }
    ensures { result.now ≡ reach_excess case.now reach.now }
{
    if want_at(case, reach.reservation).spread_weight > 0 {
        reach.boards.as_slice()
    } else {
        &[]
    }
}

/// Adds the columns of the excess on switchboards of a reservation.
fn push_board_excess(
    case: &Case,
    reach: &Reach,
    columns: &mut Vec<Column>,
) -> Result<(), AllocError>
    requires { ReachFits case.now reach.now }
    ensures { OnOk result (columns.new.items ≡ columns.old.items ++ reach_board_excess case.now reach.now) }
{
    let r = reach.reservation;
    let cost = want_at(case, r).spread_weight;
    for board in excess_boards(case, reach) {
        let mark = Mark::BoardExcess { r, board: *board };
        columns.push(helper_column(mark, cost, reach.value))?;
    }
    Ok(())
}

/// Whether a shortage at a near entry costs.
pub(crate) fn costs(goal: &Goal) -> bool
    ensures { result ≡ (nat_lt 0 goal.now.weight && nat_lt 0 goal.now.least) }
{
    goal.weight > 0 && goal.least > 0
}

/// Adds the columns of the shortages of a reservation.
fn push_shortages(case: &Case, r: u32, columns: &mut Vec<Column>) -> Result<(), AllocError>
    requires { r < length case.now.wants }
    ensures { OnOk result (columns.new.items ≡ columns.old.items ++ shortage_columns case.now r) }
{
    let near = want_at(case, r).near.as_slice();
    for (entry, goal) in near.iter().enumerate() {
        if costs(goal) {
            let mark = Mark::Shortage {
                r,
                entry: entry as u32,
            };
            columns.push(helper_column(mark, goal.weight, goal.least))?;
        }
    }
    Ok(())
}

/// Adds the columns of the excess on racks of a reservation.
fn push_rack_excess(case: &Case, reach: &Reach, columns: &mut Vec<Column>) -> Result<(), AllocError>
    requires { ReachFits case.now reach.now }
    ensures { OnOk result (columns.new.items ≡ columns.old.items ++ reach_rack_excess case.now reach.now) }
{
    let r = reach.reservation;
    let cost = want_at(case, r).rack_weight;
    for rack in reach.racks.as_slice() {
        let mark = Mark::RackExcess { r, rack: *rack };
        columns.push(helper_column(mark, cost, reach.value))?;
    }
    Ok(())
}

/// Adds the helpers of a reservation, kind by kind.
fn push_reach_columns(
    case: &Case,
    reach: &Reach,
    columns: &mut Vec<Column>,
) -> Result<(), AllocError>
    requires { ReachFits case.now reach.now }
    ensures { OnOk result (columns.new.items ≡ columns.old.items ++ reach_columns case.now reach.now) }
{
    push_share(case, reach, columns)?;
    push_board_excess(case, reach, columns)?;
    push_shortages(case, reach.reservation, columns)?;
    push_rack_excess(case, reach, columns)
}

/// Adds the helpers of all active reservations.
pub(crate) fn push_helper_columns(
    case: &Case,
    reaches: &[Reach],
    columns: &mut Vec<Column>,
) -> Result<(), AllocError>
    requires { All (ReachFits case.now) reaches.now }
    ensures { OnOk result (columns.new.items ≡ columns.old.items ++ flat_map (reach_columns case.now) reaches.now) }
{
    for reach in reaches {
        push_reach_columns(case, reach, columns)?;
    }
    Ok(())
}
