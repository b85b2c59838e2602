//! Tests on a program of three servers, whose answers were computed by hand.
ghost use Rattle.std.specs.Prelude.{◌≡◌, ◌<◌, ◌⊎◌, pos};

use crate::layout::Layout;
use crate::offer::{Incumbent, improve, improve_by_pairs, improve_rounded};
use ip_model::{Column, Line, Mark, Point, Program, RowKind, Term};
use ras_table::List;
use std::alloc::{AllocError, Global};
use std::test::Fail;

/// Three servers of 2 units each that go to a reservation or to none. One that goes costs 1, and 5 for each unit of the largest share, all
/// being on one switchboard. The base is 4. The reservation needs so many units.
fn three_servers(alloc: Global, need: i32) -> Result<Program, AllocError>
    requires { (need ≡ pos 3) ⊎ (need ≡ pos 7) }
{
    let columns = vec![in alloc;
        Column {
            cost: 1,
            top: 3,
            mark: Mark::Count {
                class: 0,
                to: Some(0)
            }
        },
        Column {
            cost: 0,
            top: 3,
            mark: Mark::Count { class: 0, to: None }
        },
        Column {
            cost: 5,
            top: 6,
            mark: Mark::Share { r: 0 }
        },
    ]?;
    let most = vec![in alloc;
        Term {
            column: 0,
            factor: -1
        },
        Term {
            column: 1,
            factor: -1
        },
    ]?;
    let least = vec![in alloc;
        Term {
            column: 0,
            factor: 1
        },
        Term {
            column: 1,
            factor: 1
        },
    ]?;
    let total = vec![in alloc;
        Term {
            column: 0,
            factor: 2
        },
    ]?;
    let share = vec![in alloc;
        Term {
            column: 0,
            factor: -2
        },
        Term {
            column: 2,
            factor: 1
        },
    ]?;
    let rows = vec![in alloc;
        Line {
            terms: List::from_vec(most),
            least: -3,
            kind: RowKind::ClassMost
        },
        Line {
            terms: List::from_vec(least),
            least: 3,
            kind: RowKind::ClassLeast
        },
        Line {
            terms: List::from_vec(total),
            least: need,
            kind: RowKind::Total
        },
        Line {
            terms: List::from_vec(share),
            least: 0,
            kind: RowKind::LargestShare
        },
    ]?;
    Ok(Program {
        base: 4,
        columns: List::from_vec(columns),
        rows: List::from_vec(rows),
    })
}

/// Two servers of a class each, of which a reservation needs one. The first costs it 3, the second 1.
fn two_classes(alloc: Global) -> Result<Program, AllocError> {
    let columns = vec![in alloc;
        Column {
            cost: 3,
            top: 1,
            mark: Mark::Count {
                class: 0,
                to: Some(0)
            }
        },
        Column {
            cost: 0,
            top: 1,
            mark: Mark::Count { class: 0, to: None }
        },
        Column {
            cost: 1,
            top: 1,
            mark: Mark::Count {
                class: 1,
                to: Some(0)
            }
        },
        Column {
            cost: 0,
            top: 1,
            mark: Mark::Count { class: 1, to: None }
        },
    ]?;
    let first = vec![in alloc;
        Term {
            column: 0,
            factor: 1
        },
        Term {
            column: 1,
            factor: 1
        },
    ]?;
    let second = vec![in alloc;
        Term {
            column: 2,
            factor: 1
        },
        Term {
            column: 3,
            factor: 1
        },
    ]?;
    let total = vec![in alloc;
        Term {
            column: 0,
            factor: 1
        },
        Term {
            column: 2,
            factor: 1
        },
    ]?;
    let rows = vec![in alloc;
        Line {
            terms: List::from_vec(first),
            least: 1,
            kind: RowKind::ClassLeast
        },
        Line {
            terms: List::from_vec(second),
            least: 1,
            kind: RowKind::ClassLeast
        },
        Line {
            terms: List::from_vec(total),
            least: 1,
            kind: RowKind::Total
        },
    ]?;
    Ok(Program {
        base: 0,
        columns: List::from_vec(columns),
        rows: List::from_vec(rows),
    })
}

/// The point `first + part / 4` of the count column of the reservation, and 0 elsewhere.
fn quarters(alloc: Global, first: u32, part: u64) -> Result<Point, AllocError>
    requires { part < 4 }
{
    let whole = vec![in alloc; first, 0, 0]?;
    let part = vec![in alloc; part, 0, 0]?;
    Ok(Point {
        den: 4,
        whole: List::from_vec(whole),
        part: List::from_vec(part),
    })
}

/// The value, where a point was found.
fn value_of(found: &Option<Incumbent>) -> Option<u64> {
    match found {
        None => None,
        Some(best) => Some(best.value),
    }
}

/// The numbers, where a point was found.
fn numbers_of(alloc: Global, found: Option<Incumbent>) -> Vec<u32> {
    match found {
        None => Vec::new(alloc),
        Some(best) => best.point.into_vec(),
    }
}

#[test]
fn rounded_points(rt: HostRuntime) -> Result<(), Fail> {
    let alloc = rt.alloc();
    let program = three_servers(alloc, 3)?;
    let layout = Layout::new(alloc, &program)?;
    let up = improve_rounded(alloc, &program, &layout, &quarters(alloc, 1, 2)?)?;
    assert_eq!(rt; value_of(&up), Some(26));
    assert_eq!(rt; numbers_of(alloc, up).as_slice(), [2, 1, 4].as_slice());
    let mended = improve_rounded(alloc, &program, &layout, &quarters(alloc, 0, 1)?)?;
    assert_eq!(rt; value_of(&mended), Some(26));
    assert_eq!(rt; numbers_of(alloc, mended).as_slice(), [2, 1, 4].as_slice());
    Ok(())
}

#[test]
fn improved_counts(rt: HostRuntime) -> Result<(), Fail> {
    let alloc = rt.alloc();
    let program = three_servers(alloc, 3)?;
    let layout = Layout::new(alloc, &program)?;
    let saved = improve(alloc, &program, &layout, &[3, 0, 9])?;
    assert_eq!(rt; value_of(&saved), Some(26));
    assert_eq!(rt; numbers_of(alloc, saved).as_slice(), [2, 1, 4].as_slice());
    let lost = improve(alloc, &program, &layout, &[2, 2, 4])?;
    assert_eq!(rt; value_of(&lost), None);
    Ok(())
}

#[test]
fn points_without_a_whole_point(rt: HostRuntime) -> Result<(), Fail> {
    let alloc = rt.alloc();
    let program = three_servers(alloc, 7)?;
    let layout = Layout::new(alloc, &program)?;
    let short = improve_rounded(alloc, &program, &layout, &quarters(alloc, 3, 2)?)?;
    assert_eq!(rt; value_of(&short), None);
    Ok(())
}

#[test]
fn pairs_of_moves(rt: HostRuntime) -> Result<(), Fail> {
    let alloc = rt.alloc();
    let program = two_classes(alloc)?;
    let layout = Layout::new(alloc, &program)?;
    let alone = improve(alloc, &program, &layout, &[1, 0, 0, 1])?;
    assert_eq!(rt; value_of(&alone), Some(3));
    let pairs = improve_by_pairs(alloc, &program, &layout, &[1, 0, 0, 1])?;
    assert_eq!(rt; value_of(&pairs), Some(1));
    assert_eq!(rt;
        numbers_of(alloc, pairs).as_slice(),
        [0, 1, 1, 0].as_slice()
    );
    Ok(())
}
