//! How many columns and rows the program of a phase has.
ghost use Rattle.std.specs.Prelude.{◌≡◌, ◌<◌, ◌≤◌, All, filter, flat_map, length, nat_lt, sum_by};
ghost use Rattle.std.specs.List.{enumerate_from};
ghost use Rattle.plan_model.specs.Units.{value_for};
ghost use Rattle.program_rows.specs.Programs.{short_entries};
ghost use Rattle.program_rows.specs.Reach.{ReachFits, columns_of_class, reach_columns, reach_share};
ghost use Rattle.program_rows.specs.Sums.{class_rows as class_rows_of, reach_rows as reach_rows_of, rows_of_kind as rows_of_kind_of};

use crate::columns::{costs, excess_boards, has_share};
use crate::lines::share_boards;
use crate::reach::Reach;
use crate::values::{value, want_at};
use ip_model::RowKind;
use plan_model::Case;
use symmetry_classes::Class;

/// How many active reservations have a value above 0 for a type of server.
fn count_destinations(case: &Case, active: &[u32], kind: u32) -> u32
    requires there { All (λ r. r < length case.now.wants) active.now }
    requires few { length active.now ≤ 64 }
    ensures count { result ≡ length (filter (λ r. nat_lt 0 (value_for case.now r kind)) active.now) }
    ensures most { result ≤ 64 }
{
    let mut count = 0u32;
    for r in active {
        if value(case, *r, kind) > 0 {
            count += 1;
        }
    }
    count
}

/// How many columns all classes have.
pub(crate) fn count_class_columns(case: &Case, active: &[u32], classes: &[Class]) -> u32
    requires there { All (λ r. r < length case.now.wants) active.now }
    requires few { length active.now ≤ 64 }
    requires classes { length classes.now ≤ 20000 }
    ensures count { result ≡ length (flat_map (columns_of_class case.now active.now) (enumerate_from 0 classes.now)) }
    ensures most { result ≤ 1300000 }
{
    let mut count = 0u32;
    for class in classes {
        count += count_destinations(case, active, class.kind) + 1;
    }
    count
}

/// How many near entries of a reservation cost where they fall short.
fn count_shortages(case: &Case, r: u32) -> u32
    requires { r < length case.now.wants }
    ensures count { result ≡ length (short_entries case.now r) }
    ensures most { result ≤ 16 }
{
    let near = want_at(case, r).near.as_slice();
    let mut count = 0u32;
    for goal in near {
        if costs(goal) {
            count += 1;
        }
    }
    count
}

/// How many share columns a reservation has.
fn count_shares(case: &Case, reach: &Reach) -> u32
    requires { ReachFits case.now reach.now }
    ensures count { result ≡ length (reach_share case.now reach.now) }
    ensures most { result ≤ 1 }
{
    if has_share(case, reach) { 1 } else { 0 }
}

/// How many helpers a reservation has.
fn count_helpers_of(case: &Case, reach: &Reach) -> u32
    requires { ReachFits case.now reach.now }
    ensures count { result ≡ length (reach_columns case.now reach.now) }
    ensures most { result ≤ 20100 }
{
    count_shares(case, reach)
        + excess_boards(case, reach).len() as u32
        + count_shortages(case, reach.reservation)
        + reach.racks.len()
}

/// How many helpers all active reservations have.
pub(crate) fn count_helpers(case: &Case, reaches: &[Reach]) -> u32
    requires fit { All (ReachFits case.now) reaches.now }
    requires few { length reaches.now ≤ 64 }
    ensures count { result ≡ length (flat_map (reach_columns case.now) reaches.now) }
    ensures most { result ≤ 1286400 }
{
    let mut count = 0u32;
    for reach in reaches {
        count += count_helpers_of(case, reach);
    }
    count
}

/// How many rows of a kind the classes have.
fn class_rows(kind: RowKind, classes: u32) -> u32
    requires { classes ≤ 20000 }
    ensures count { result ≡ class_rows_of kind classes }
    ensures most { result ≤ 20000 }
{
    match kind {
        RowKind::ClassMost => classes,
        RowKind::ClassLeast => classes,
        RowKind::Total => 0,
        RowKind::Loss => 0,
        RowKind::LargestShare => 0,
        RowKind::BoardOver => 0,
        RowKind::CenterShort => 0,
        RowKind::RackOver => 0,
    }
}

/// How many rows of a kind a reservation has.
fn reach_rows(case: &Case, kind: RowKind, reach: &Reach) -> u32
    requires { ReachFits case.now reach.now }
    ensures count { result ≡ reach_rows_of case.now kind reach.now }
    ensures most { result ≤ 20000 }
{
    match kind {
        RowKind::ClassMost => 0,
        RowKind::ClassLeast => 0,
        RowKind::Total => 1,
        RowKind::Loss => reach.losses.len(),
        RowKind::LargestShare => share_boards(case, reach).len() as u32,
        RowKind::BoardOver => excess_boards(case, reach).len() as u32,
        RowKind::CenterShort => count_shortages(case, reach.reservation),
        RowKind::RackOver => reach.racks.len(),
    }
}

/// How many rows of a kind the active reservations have.
fn all_reach_rows(case: &Case, kind: RowKind, reaches: &[Reach]) -> u32
    requires fit { All (ReachFits case.now) reaches.now }
    requires few { length reaches.now ≤ 64 }
    ensures count { result ≡ sum_by (reach_rows_of case.now kind) reaches.now }
    ensures most { result ≤ 1280000 }
{
    let mut count = 0u32;
    for reach in reaches {
        count += reach_rows(case, kind, reach);
    }
    count
}

/// How many rows of a kind the program has.
pub(crate) fn rows_of_kind(case: &Case, kind: RowKind, classes: u32, reaches: &[Reach]) -> u32
    requires classes { classes ≤ 20000 }
    requires fit { All (ReachFits case.now) reaches.now }
    requires few { length reaches.now ≤ 64 }
    ensures count { result ≡ rows_of_kind_of case.now kind classes reaches.now }
    ensures most { result ≤ 1300000 }
{
    class_rows(kind, classes) + all_reach_rows(case, kind, reaches)
}
