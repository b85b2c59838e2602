//! What a row of a program sums up.
ghost use Rattle.std.specs.Prelude.{◌≡◌, ◌<◌, ◌≤◌, IfOk, IsTrue, length, slice_get, if◌then◌else◌};
ghost use Rattle.std.specs.Option.{option_map_or};
ghost use Rattle.plan_model.specs.Units.{value_for};
ghost use Rattle.program_rows.specs.Programs.{is_zero as is_zero_of, in_class as in_class_of, units_at as units_at_of, at_share as at_share_of, at_board_excess as at_board_excess_of, at_shortage as at_shortage_of, at_rack_excess as at_rack_excess_of};
ghost use Rattle.program_rows.specs.Sums.{counts_class as counts_class_of, at_helper as at_helper_of, factor_of, sum_fits, line_of};

use crate::values::value;
use ip_model::{Column, Line, Mark, RowKind, Term};
use plan_model::Case;
use ras_table::List;
use std::alloc::{AllocError, Global};
use symmetry_classes::Class;

/// The classes whose counts give units in a row.
#[derive(Clone, Copy)]
pub enum Among<'a> {
    Every,
    OffBoard(u32),
    OnBoard(u32),
    /// Those on a switchboard whose flag is set.
    OnBoards(&'a [bool]),
    /// Those on a switchboard whose flag is not set.
    OffBoards(&'a [bool]),
    InRack(u32),
}

/// The sum of a row: minus a class's counts, a class's counts, units of a reservation, or one helper less or plus
/// such units.
#[derive(Clone, Copy)]
pub enum Sum<'a> {
    LessClass(u32),
    OfClass(u32),
    Units(u32, Among<'a>),
    HelperLess(Mark, u32, Among<'a>),
    HelperPlus(Mark, u32, Among<'a>),
}

/// A row before its terms are written out.
#[derive(Clone, Copy)]
pub struct Row<'a> {
    pub kind: RowKind,
    pub sum: Sum<'a>,
    pub least: i32,
}

/// Whether the class counts.
fn counts_class(among: Among<'_>, class: &Class) -> bool
    ensures { result ≡ counts_class_of among.entry class.now }
{
    match among {
        Among::Every => true,
        Among::OffBoard(board) => class.board != board,
        Among::OnBoard(board) => class.board == board,
        Among::OnBoards(flags) => flags.get(class.board as usize).copied().unwrap_or(false),
        Among::OffBoards(flags) => !flags.get(class.board as usize).copied().unwrap_or(false),
        Among::InRack(rack) => match class.rack {
            Some(k) => k == rack,
            None => false,
        },
    }
}

/// 1 at the counts of a class, and 0 elsewhere.
fn in_class(class: u32, mark: Mark) -> u32
    ensures value { result ≡ in_class_of class mark }
    ensures most { result ≤ 1 }
{
    match mark {
        Mark::Count { class: c, .. } if c == class => 1,
        _ => 0,
    }
}

fn at_share(r: u32, mark: Mark) -> u32
    ensures value { result ≡ at_share_of r mark }
    ensures most { result ≤ 1 }
{
    match mark {
        Mark::Share { r: q } if q == r => 1,
        _ => 0,
    }
}

fn at_board_excess(r: u32, board: u32, mark: Mark) -> u32
    ensures value { result ≡ at_board_excess_of r board mark }
    ensures most { result ≤ 1 }
{
    match mark {
        Mark::BoardExcess { r: q, board: b } if q == r && b == board => 1,
        _ => 0,
    }
}

fn at_shortage(r: u32, entry: u32, mark: Mark) -> u32
    ensures value { result ≡ at_shortage_of r entry mark }
    ensures most { result ≤ 1 }
{
    match mark {
        Mark::Shortage { r: q, entry: e } if q == r && e == entry => 1,
        _ => 0,
    }
}

fn at_rack_excess(r: u32, rack: u32, mark: Mark) -> u32
    ensures value { result ≡ at_rack_excess_of r rack mark }
    ensures most { result ≤ 1 }
{
    match mark {
        Mark::RackExcess { r: q, rack: k } if q == r && k == rack => 1,
        _ => 0,
    }
}

/// 1 at one helper, and 0 elsewhere.
fn at_helper(helper: Mark, mark: Mark) -> u32
    ensures value { result ≡ at_helper_of helper mark }
    ensures most { result ≤ 1 }
{
    match helper {
        Mark::Count { .. } => 0,
        Mark::Share { r } => at_share(r, mark),
        Mark::BoardExcess { r, board } => at_board_excess(r, board, mark),
        Mark::Shortage { r, entry } => at_shortage(r, entry, mark),
        Mark::RackExcess { r, rack } => at_rack_excess(r, rack, mark),
    }
}

/// The value of one member of a class for reservation r, where the class counts.
fn class_units(case: &Case, classes: &[Class], among: Among<'_>, r: u32, class: u32) -> u32
    requires { r < length case.now.wants }
    ensures value { result ≡ option_map_or (λ k. if counts_class_of among.entry k then value_for case.now r k.kind else 0) (slice_get classes.now class) 0 }
    ensures most { result ≤ 1000 }
{
    match classes.get(class as usize) {
        Some(k) => if counts_class(among, k) {
            value(case, r, k.kind)
        } else {
            0
        },
        None => 0,
    }
}

/// The units of reservation r that one at a column gives, over the classes that count.
fn units_at(case: &Case, classes: &[Class], among: Among<'_>, r: u32, mark: Mark) -> u32
    requires { r < length case.now.wants }
    ensures value { result ≡ units_at_of case.now classes.now (counts_class_of among.entry) r mark }
    ensures most { result ≤ 1000 }
{
    match mark {
        Mark::Count { class, to: Some(q) } if q == r => class_units(case, classes, among, r, class),
        _ => 0,
    }
}

/// The factor of a row at a column.
fn factor(case: &Case, classes: &[Class], sum: &Sum<'_>, mark: Mark) -> i32
    requires { IsTrue (sum_fits case.now sum.now) }
    ensures { result ≡ factor_of case.now classes.now sum.now mark }
{
    match *sum {
        Sum::LessClass(class) => -(in_class(class, mark) as i32),
        Sum::OfClass(class) => in_class(class, mark) as i32,
        Sum::Units(r, among) => units_at(case, classes, among, r, mark) as i32,
        Sum::HelperLess(helper, r, among) => {
            at_helper(helper, mark) as i32 - units_at(case, classes, among, r, mark) as i32
        }
        Sum::HelperPlus(helper, r, among) => {
            at_helper(helper, mark) as i32 + units_at(case, classes, among, r, mark) as i32
        }
    }
}

/// Whether a factor is 0.
fn is_zero(factor: i32) -> bool
    ensures { result ≡ is_zero_of factor }
{
    factor == 0
}

/// The row with its terms written out: the columns whose factor is not 0.
pub(crate) fn written(
    alloc: Global,
    case: &Case,
    classes: &[Class],
    columns: &[Column],
    row: &Row<'_>,
) -> Result<Line, AllocError>
    requires fits { IsTrue (sum_fits case.now row.now.sum) }
    requires few { length columns.now ≤ 2048 }
    ensures { IfOk result (λ line. line ≡ line_of case.now classes.now columns.now row.now) }
{
    let mut terms = Vec::new(alloc);
    for (j, column) in columns.iter().enumerate() {
        let factor = factor(case, classes, &row.sum, column.mark);
        if !is_zero(factor) {
            terms.push(Term {
                column: j as u32,
                factor,
            })?;
        }
    }
    Ok(Line {
        terms: List::from_vec(terms),
        least: row.least,
        kind: row.kind,
    })
}
