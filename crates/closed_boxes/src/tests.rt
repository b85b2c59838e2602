//! Tests on a program with two helpers, whose answers were computed by hand.
ghost use Rattle.std.specs.Prelude.{◌≡◌, ℕ, ◌<◌, ◌≤◌, true, false, IsTrue, length, slice_index};
ghost use Rattle.ip_model.specs.Limits.{helper_at, is_helper, top_of};
ghost use Rattle.ip_model.specs.Points.{IsBoxOf};
ghost use Rattle.closed_boxes.specs.Closing.{HasFixedCounts};

use crate::boxes::{Closed, close};
use crate::rows::is_helper;
use crate::settle::{Settled, settle_helpers};
use bound_certificate::Top;
use ip_model::{Bounds, Column, Line, Mark, Program, RowKind, Term};
use ras_table::List;
use std::alloc::{AllocError, Global};
use std::test::Fail;

/// Two counts up to 3 and two helpers up to 100; the costs are 2, 0, 5 and 7, and the base is 4. The counts are to be at least 3 together.
/// The first helper is to be at least 10 times the first count, and at least 4 times the second less 1. The second helper is to be at
/// least 10 times the first count and 4 times the second, less 15.
fn two_helpers(alloc: Global) -> Result<Program, AllocError> {
    let columns = vec![in alloc;
        Column {
            cost: 2,
            top: 3,
            mark: Mark::Count {
                class: 0,
                to: Some(0)
            }
        },
        Column {
            cost: 0,
            top: 3,
            mark: Mark::Count { class: 0, to: None }
        },
        Column {
            cost: 5,
            top: 100,
            mark: Mark::Share { r: 0 }
        },
        Column {
            cost: 7,
            top: 100,
            mark: Mark::BoardExcess { r: 0, board: 0 }
        },
    ]?;
    let both = vec![in alloc;
        Term {
            column: 0,
            factor: 1
        },
        Term {
            column: 1,
            factor: 1
        },
    ]?;
    let first = vec![in alloc;
        Term {
            column: 0,
            factor: -10
        },
        Term {
            column: 2,
            factor: 1
        },
    ]?;
    let second = vec![in alloc;
        Term {
            column: 1,
            factor: -4
        },
        Term {
            column: 2,
            factor: 1
        },
    ]?;
    let over = vec![in alloc;
        Term {
            column: 0,
            factor: -10
        },
        Term {
            column: 1,
            factor: -4
        },
        Term {
            column: 3,
            factor: 1
        },
    ]?;
    let rows = vec![in alloc;
        Line {
            terms: List::from_vec(both),
            least: 3,
            kind: RowKind::ClassLeast
        },
        Line {
            terms: List::from_vec(first),
            least: 0,
            kind: RowKind::LargestShare
        },
        Line {
            terms: List::from_vec(second),
            least: -1,
            kind: RowKind::LargestShare
        },
        Line {
            terms: List::from_vec(over),
            least: -15,
            kind: RowKind::BoardOver
        },
    ]?;
    Ok(Program {
        base: 4,
        columns: List::from_vec(columns),
        rows: List::from_vec(rows),
    })
}

/// The box of these two counts.
fn box_at(alloc: Global, first: u32, second: u32) -> Result<Bounds, AllocError> {
    Ok(Bounds {
        low: List::from_vec(vec![in alloc; first, second, 0, 0]?),
        high: List::from_vec(vec![in alloc; first, second, 100, 100]?),
    })
}

/// Whether a count has one number within its top, or a helper those from 0 to its top.
fn is_fixed_at(column: &Column, low: u32, high: u32) -> bool
    ensures ordered { IsTrue result → low ≤ high }
    ensures within { IsTrue result → high ≤ column.now.top }
    ensures count { IsTrue result → is_helper column.now.mark ≡ false → low ≡ high }
    ensures low { IsTrue result → is_helper column.now.mark ≡ true → low ≡ 0 }
    ensures high { IsTrue result → is_helper column.now.mark ≡ true → high ≡ column.now.top }
{
    if is_helper(column.mark) {
        low == 0 && high == column.top
    } else {
        low == high && high <= column.top
    }
}

/// Whether each column is fixed in this way.
fn are_fixed(columns: &[Column], low: &[u32], high: &[u32]) -> bool
    requires lows { length low.now ≡ length columns.now }
    requires highs { length high.now ≡ length columns.now }
    ensures ordered { IsTrue result → (j : ℕ) → j < length columns.now → slice_index low.now j ≤ slice_index high.now j }
    ensures within { IsTrue result → (j : ℕ) → j < length columns.now → slice_index high.now j ≤ top_of columns.now j }
    ensures count { IsTrue result → (j : ℕ) → j < length columns.now → helper_at columns.now j ≡ false → slice_index low.now j ≡ slice_index high.now j }
    ensures low { IsTrue result → (j : ℕ) → j < length columns.now → helper_at columns.now j ≡ true → slice_index low.now j ≡ 0 }
    ensures high { IsTrue result → (j : ℕ) → j < length columns.now → helper_at columns.now j ≡ true → slice_index high.now j ≡ top_of columns.now j }
{
    for (j, column) in columns.iter().enumerate() {
        if !is_fixed_at(column, low[j], high[j]) {
            return false;
        }
    }
    true
}

/// Whether the counts of a box are fixed.
fn is_fixed(program: &Program, bounds: &Bounds) -> bool
    ensures is_box { IsTrue result → IsBoxOf program.now bounds.now }
    ensures fixed { IsTrue result → HasFixedCounts program.now bounds.now }
{
    let columns = program.columns.as_slice();
    let low = bounds.low.as_slice();
    let high = bounds.high.as_slice();
    low.len() == columns.len() && high.len() == columns.len() && are_fixed(columns, low, high)
}

/// The numbers of the least whole point with the counts of a box whose counts are fixed, or the row that is short.
fn settled(alloc: Global, program: &Program, bounds: &Bounds) -> Result<Vec<u32>, AllocError> {
    if !is_fixed(program, bounds) {
        return Ok(Vec::new(alloc));
    }
    Ok(match settle_helpers(alloc, program, &bounds.low)? {
        Settled::Whole(point) => point.into_vec(),
        Settled::Short { row } => vec![in alloc; row]?,
    })
}

/// How a box whose counts are fixed is closed.
fn closed(alloc: Global, program: &Program, bounds: &Bounds) -> Result<Option<Closed>, AllocError> {
    if !is_fixed(program, bounds) {
        return Ok(None);
    }
    Ok(Some(close(alloc, program, bounds)?))
}

/// The value, where there is one, and the multipliers.
fn told(found: &Option<Closed>) -> (Option<u64>, &[Top]) {
    match found {
        None => (None, &[]),
        Some(Closed::Refuted(y)) => (None, y.tops.as_slice()),
        Some(Closed::Whole { value, duals, .. }) => (Some(*value), duals.tops.as_slice()),
    }
}

#[test]
fn least_helpers(rt: HostRuntime) -> Result<(), Fail> {
    let alloc = rt.alloc();
    let program = two_helpers(alloc)?;
    assert_eq!(rt;
        settled(alloc, &program, &box_at(alloc, 2, 1)?)?.as_slice(),
        [2, 1, 20, 9].as_slice()
    );
    assert_eq!(rt;
        settled(alloc, &program, &box_at(alloc, 0, 3)?)?.as_slice(),
        [0, 3, 11, 0].as_slice()
    );
    assert_eq!(rt;
        settled(alloc, &program, &box_at(alloc, 1, 1)?)?.as_slice(),
        [0].as_slice()
    );
    Ok(())
}

#[test]
fn closed_boxes(rt: HostRuntime) -> Result<(), Fail> {
    let alloc = rt.alloc();
    let program = two_helpers(alloc)?;
    let both = closed(alloc, &program, &box_at(alloc, 2, 1)?)?;
    assert_eq!(rt;
        told(&both),
        (
            Some(171),
            [Top { row: 1, num: 5 }, Top { row: 3, num: 7 }].as_slice()
        )
    );
    let one = closed(alloc, &program, &box_at(alloc, 0, 3)?)?;
    assert_eq!(rt; told(&one), (Some(59), [Top { row: 2, num: 5 }].as_slice()));
    let none = closed(alloc, &program, &box_at(alloc, 1, 1)?)?;
    assert_eq!(rt; told(&none), (None, [Top { row: 0, num: 1 }].as_slice()));
    Ok(())
}
