//! Tests on small programs, whose answers were computed apart from this code.
ghost use Rattle.std.specs.Prelude.{◌≡◌, ◌<◌, ◌^◌, All, IfOk, IfSome, None, length, map};
ghost use Rattle.ip_model.specs.Points.{IsBoxOf};
ghost use Rattle.exact_simplex.specs.Forms.{parts_of};
ghost use Rattle.exact_simplex.specs.Relaxing.{IsStanding};
ghost use Rattle.ip_model.specs.declared.parts.Mark.TheVariants.{Count};
ghost use Rattle.ip_model.specs.declared.parts.RowKind.TheVariants.{Total};

use crate::multiples::near_multipliers;
use crate::other_box::rebound;
use crate::relaxed::Relaxed;
use crate::run::{relax, relax_from};
use crate::table::Tableau;
use bound_certificate::Top;
use exact_fraction::whole;
use ip_model::{Bounds, Column, Line, Mark, Program, RowKind, Term, full_box};
use ras_table::List;
use std::alloc::{AllocError, Global};
use std::test::Fail;

/// Columns that count, with these costs and tops.
fn counts(alloc: Global, given: &[(u32, u32)]) -> Result<List<Column>, AllocError>
    requires { length given.now < 2 ^ 32 }
    ensures { IfOk result (λ columns. columns ≡ map (λ g. record { cost = g.0; top = g.1; mark = Count 0 None }) given.now) }
{
    let mut columns = Vec::with_capacity(alloc, given.len())?;
    for pair in given {
        columns.push(Column {
            cost: pair.0,
            top: pair.1,
            mark: Mark::Count { class: 0, to: None },
        })?;
    }
    Ok(List::from_vec(columns))
}

/// A row with these columns and factors.
fn line(alloc: Global, given: &[(u32, i32)], least: i32) -> Result<Line, AllocError>
    requires { length given.now < 2 ^ 32 }
    ensures { IfOk result (λ line. line ≡ record { terms = map (λ g. record { column = g.0; factor = g.1 }) given.now; least = least; kind = Total }) }
{
    let mut terms = Vec::with_capacity(alloc, given.len())?;
    for pair in given {
        terms.push(Term {
            column: pair.0,
            factor: pair.1,
        })?;
    }
    Ok(Line {
        terms: List::from_vec(terms),
        least,
        kind: RowKind::Total,
    })
}

/// Rows with these columns and factors, and what each asks for.
fn lines(alloc: Global, given: &[(&[(u32, i32)], i32)]) -> Result<List<Line>, AllocError>
    requires few { length given.now < 2 ^ 32 }
    requires terms { All (λ g. length g.0.now < 2 ^ 32) given.now }
    ensures { IfOk result (λ lines. lines ≡ map (λ g. record { terms = map (λ t. record { column = t.0; factor = t.1 }) g.0.now; least = g.1; kind = Total }) given.now) }
{
    let mut lines = Vec::with_capacity(alloc, given.len())?;
    for pair in given {
        lines.push(line(alloc, pair.0, pair.1)?)?;
    }
    Ok(List::from_vec(lines))
}

/// One column of which twice is to be at least 5.
fn five(alloc: Global) -> Result<Program, AllocError> {
    let rows = lines(alloc, &[(&[(0, 2)], 5)])?;
    let columns = counts(alloc, &[(3, 5)])?;
    Ok(Program {
        base: 1,
        columns,
        rows,
    })
}

/// Six servers in three classes, one for each of three switchboards, with need 35 of 10 each.
fn pairs(alloc: Global) -> Result<Program, AllocError> {
    let rows = lines(
        alloc,
        &[
            (&[(0, -1), (1, -1)], -2),
            (&[(0, 1), (1, 1)], 2),
            (&[(2, -1), (3, -1)], -2),
            (&[(2, 1), (3, 1)], 2),
            (&[(4, -1), (5, -1)], -2),
            (&[(4, 1), (5, 1)], 2),
            (&[(0, 10), (2, 10), (4, 10)], 35),
            (&[(2, 10), (4, 10)], 35),
            (&[(0, 10), (4, 10)], 35),
            (&[(0, 10), (2, 10)], 35),
        ],
    )?;
    let columns = counts(alloc, &[(1, 2), (0, 2), (1, 2), (0, 2), (1, 2), (0, 2)])?;
    Ok(Program {
        base: 0,
        columns,
        rows,
    })
}

/// The same servers, each a class of its own.
fn singles(alloc: Global) -> Result<Program, AllocError> {
    let rows = lines(
        alloc,
        &[
            (&[(0, -1), (1, -1)], -1),
            (&[(0, 1), (1, 1)], 1),
            (&[(2, -1), (3, -1)], -1),
            (&[(2, 1), (3, 1)], 1),
            (&[(4, -1), (5, -1)], -1),
            (&[(4, 1), (5, 1)], 1),
            (&[(6, -1), (7, -1)], -1),
            (&[(6, 1), (7, 1)], 1),
            (&[(8, -1), (9, -1)], -1),
            (&[(8, 1), (9, 1)], 1),
            (&[(10, -1), (11, -1)], -1),
            (&[(10, 1), (11, 1)], 1),
            (&[(0, 10), (2, 10), (4, 10), (6, 10), (8, 10), (10, 10)], 35),
            (&[(4, 10), (6, 10), (8, 10), (10, 10)], 35),
            (&[(0, 10), (2, 10), (8, 10), (10, 10)], 35),
            (&[(0, 10), (2, 10), (4, 10), (6, 10)], 35),
        ],
    )?;
    let columns = counts(
        alloc,
        &[
            (1, 1),
            (0, 1),
            (1, 1),
            (0, 1),
            (1, 1),
            (0, 1),
            (1, 1),
            (0, 1),
            (1, 1),
            (0, 1),
            (1, 1),
            (0, 1),
        ],
    )?;
    Ok(Program {
        base: 0,
        columns,
        rows,
    })
}

/// No row.
fn no_rows(alloc: Global) -> Result<Program, AllocError> {
    let rows = List::new(alloc, 0)?;
    let columns = counts(alloc, &[(3, 5), (0, 2)])?;
    Ok(Program {
        base: 7,
        columns,
        rows,
    })
}

/// No column.
fn no_columns(alloc: Global) -> Result<Program, AllocError> {
    let rows = lines(alloc, &[(&[], -1)])?;
    let columns = List::new(alloc, 0)?;
    Ok(Program {
        base: 4,
        columns,
        rows,
    })
}

/// Three rows that meet in one point.
fn three_ties(alloc: Global) -> Result<Program, AllocError> {
    let rows = lines(
        alloc,
        &[
            (&[(0, 1), (1, 1)], 4),
            (&[(0, 2), (1, 3)], 8),
            (&[(0, 3), (1, 1)], 12),
        ],
    )?;
    let columns = counts(alloc, &[(2, 10), (3, 10)])?;
    Ok(Program {
        base: 0,
        columns,
        rows,
    })
}

/// Two rows that cross.
fn two_rows(alloc: Global) -> Result<Program, AllocError> {
    let rows = lines(alloc, &[(&[(0, 3), (1, 1)], 7), (&[(0, 1), (1, 2)], 5)])?;
    let columns = counts(alloc, &[(4, 9), (5, 9)])?;
    Ok(Program {
        base: 2,
        columns,
        rows,
    })
}

/// One column above another.
fn ordered(alloc: Global) -> Result<Program, AllocError> {
    let rows = lines(alloc, &[(&[(0, 1), (1, -1)], 1), (&[(1, 2)], 3)])?;
    let columns = counts(alloc, &[(1, 9), (0, 9)])?;
    Ok(Program {
        base: 0,
        columns,
        rows,
    })
}

/// A column that is filled to its top.
fn full(alloc: Global) -> Result<Program, AllocError> {
    let rows = lines(alloc, &[(&[(0, 1), (1, 1)], 4)])?;
    let columns = counts(alloc, &[(1, 2), (5, 9)])?;
    Ok(Program {
        base: 3,
        columns,
        rows,
    })
}

/// Three rows over three columns.
fn three_rows(alloc: Global) -> Result<Program, AllocError> {
    let rows = lines(
        alloc,
        &[
            (&[(0, 2), (1, 1), (2, 1)], 11),
            (&[(0, 1), (1, 3), (2, 1)], 13),
            (&[(0, 1), (1, 1), (2, 4)], 17),
        ],
    )?;
    let columns = counts(alloc, &[(3, 20), (4, 20), (5, 20)])?;
    Ok(Program {
        base: 5,
        columns,
        rows,
    })
}

/// One column of which twice is to be at least 12, above twice its top.
fn too_much(alloc: Global) -> Result<Program, AllocError> {
    let rows = lines(alloc, &[(&[(0, 2)], 12)])?;
    let columns = counts(alloc, &[(3, 5)])?;
    Ok(Program {
        base: 1,
        columns,
        rows,
    })
}

/// No column, and a row that asks for 1.
fn nothing_to_reach(alloc: Global) -> Result<Program, AllocError> {
    let rows = lines(alloc, &[(&[], 1)])?;
    let columns = List::new(alloc, 0)?;
    Ok(Program {
        base: 0,
        columns,
        rows,
    })
}

/// A chain of 8 columns, each at least 1 / 999 of the next, whose last is 1.
fn chain_of_eight(alloc: Global) -> Result<Program, AllocError> {
    let rows = lines(
        alloc,
        &[
            (&[(0, 999), (1, -1)], 0),
            (&[(1, 999), (2, -1)], 0),
            (&[(2, 999), (3, -1)], 0),
            (&[(3, 999), (4, -1)], 0),
            (&[(4, 999), (5, -1)], 0),
            (&[(5, 999), (6, -1)], 0),
            (&[(6, 999), (7, -1)], 0),
            (&[(7, 1)], 1),
        ],
    )?;
    let columns = counts(
        alloc,
        &[
            (1, 1),
            (0, 1),
            (0, 1),
            (0, 1),
            (0, 1),
            (0, 1),
            (0, 1),
            (0, 1),
        ],
    )?;
    Ok(Program {
        base: 0,
        columns,
        rows,
    })
}

/// A chain of 14 columns, each at least 1 / 999 of the next, whose last is 1.
fn chain_of_fourteen(alloc: Global) -> Result<Program, AllocError> {
    let rows = lines(
        alloc,
        &[
            (&[(0, 999), (1, -1)], 0),
            (&[(1, 999), (2, -1)], 0),
            (&[(2, 999), (3, -1)], 0),
            (&[(3, 999), (4, -1)], 0),
            (&[(4, 999), (5, -1)], 0),
            (&[(5, 999), (6, -1)], 0),
            (&[(6, 999), (7, -1)], 0),
            (&[(7, 999), (8, -1)], 0),
            (&[(8, 999), (9, -1)], 0),
            (&[(9, 999), (10, -1)], 0),
            (&[(10, 999), (11, -1)], 0),
            (&[(11, 999), (12, -1)], 0),
            (&[(12, 999), (13, -1)], 0),
            (&[(13, 1)], 1),
        ],
    )?;
    let columns = counts(
        alloc,
        &[
            (1, 1),
            (0, 1),
            (0, 1),
            (0, 1),
            (0, 1),
            (0, 1),
            (0, 1),
            (0, 1),
            (0, 1),
            (0, 1),
            (0, 1),
            (0, 1),
            (0, 1),
            (0, 1),
        ],
    )?;
    Ok(Program {
        base: 0,
        columns,
        rows,
    })
}

/// The relaxation in the box from 0 to the tops.
fn in_full_box(alloc: Global, program: &Program, pivots: u64) -> Result<Relaxed, AllocError> {
    let bounds = full_box(alloc, program)?;
    relax(alloc, program, &bounds, pivots)
}

/// Whether the listed multipliers are these rows and numerators.
fn are(tops: &[Top], wanted: &[(u32, u64)]) -> bool {
    if tops.len() != wanted.len() {
        return false;
    }
    for (i, top) in tops.iter().enumerate() {
        if (top.row, top.num) != wanted[i] {
            return false;
        }
    }
    true
}

/// Whether the value of row 0 is this fraction.
fn has_value(at: &Tableau, num: i128, den: i128) -> bool {
    if at.rows() == 0 {
        return false;
    }
    let cell = at.cell(0, 0);
    cell.num == num && cell.den == den
}

/// Whether the answer is Least with this value of row 0, this denominator with whole numbers and parts, and these duals.
fn is_least(
    answer: &Relaxed,
    value: (i128, i128),
    wanted: (u64, &[u32], &[u64]),
    multipliers: (u64, &[(u32, u64)]),
) -> bool {
    match answer {
        Relaxed::Least { point, duals, at } => {
            has_value(at, value.0, value.1)
                && point.den == wanted.0
                && point.whole.as_slice() == wanted.1
                && point.part.as_slice() == wanted.2
                && duals.den == multipliers.0
                && are(duals.tops.as_slice(), multipliers.1)
        }
        _ => false,
    }
}

/// Whether the answer is Empty with this refutation.
fn is_empty(answer: &Relaxed, den: u64, multipliers: &[(u32, u64)]) -> bool {
    match answer {
        Relaxed::Empty { duals, at: _ } => {
            duals.den == den && are(duals.tops.as_slice(), multipliers)
        }
        _ => false,
    }
}

/// Whether the relaxation of a program is Least with this value of row 0, this point and these duals.
fn gives_least(
    alloc: Global,
    program: Program,
    value: (i128, i128),
    wanted: (u64, &[u32], &[u64]),
    multipliers: (u64, &[(u32, u64)]),
) -> Result<bool, AllocError> {
    let found = in_full_box(alloc, &program, 100)?;
    Ok(is_least(&found, value, wanted, multipliers))
}

/// Whether the relaxation of a program is Empty with this refutation.
fn gives_empty(
    alloc: Global,
    program: Program,
    den: u64,
    multipliers: &[(u32, u64)],
) -> Result<bool, AllocError> {
    let found = in_full_box(alloc, &program, 100)?;
    Ok(is_empty(&found, den, multipliers))
}

/// Whether the relaxation of a program is Misfit.
fn gives_misfit(alloc: Global, program: Program) -> Result<bool, AllocError> {
    let found = in_full_box(alloc, &program, 1000)?;
    Ok(matches!(found, Relaxed::Misfit { .. }))
}

/// Whether the relaxation of a program does not fit at this row and column.
fn gives_wide(alloc: Global, program: Program, row: u32, column: u32) -> Result<bool, AllocError> {
    let found = in_full_box(alloc, &program, 1000)?;
    match &found {
        Relaxed::Wide {
            row: at,
            col: Some(there),
            ..
        } => Ok(*at == row && *there == column),
        _ => Ok(false),
    }
}

/// Whether the relaxation of a program with no pivot is Spent.
fn gives_spent(alloc: Global, program: Program) -> Result<bool, AllocError> {
    let found = in_full_box(alloc, &program, 0)?;
    Ok(matches!(found, Relaxed::Spent { made: 0, .. }))
}

/// The full box with other numbers of column 0, in order and not above its top.
fn with_first(alloc: Global, program: &Program, low: u32, high: u32) -> Result<Bounds, AllocError>
    ensures { IfOk result (λ bounds. IsBoxOf program.now bounds) }
{
    let mut bounds = full_box(alloc, program)?;
    if bounds.low.is_empty() || bounds.high.is_empty() {
        return Ok(bounds);
    }
    let most = high.min(bounds.high.as_slice()[0]);
    bounds.low.set(0, low.min(most));
    bounds.high.set(0, most);
    Ok(bounds)
}

/// The least tableau of a program in a box.
fn least_table(
    alloc: Global,
    program: &Program,
    bounds: &Bounds,
) -> Result<Option<Tableau>, AllocError>
    requires { IsBoxOf program.now bounds.now }
    ensures { IfOk result (λ found. IfSome found (λ at. IsStanding (parts_of program.now bounds.now) at)) }
{
    match relax(alloc, program, bounds, 1000)? {
        Relaxed::Least {
            point: _point,
            duals: _duals,
            at,
        } => Ok(Some(at)),
        _ => Ok(None),
    }
}

/// The relaxation in the box with other numbers of column 0, from the least tableau of the full box.
fn from_full_box(
    alloc: Global,
    program: &Program,
    low: u32,
    high: u32,
) -> Result<Option<Relaxed>, AllocError> {
    let full = with_first(alloc, program, 0, 0xffff_ffff)?;
    let other = with_first(alloc, program, low, high)?;
    let Some(at) = least_table(alloc, program, &full)? else {
        return Ok(None);
    };
    let Some(moved) = rebound(alloc, &at, program, &full, &other)? else {
        return Ok(None);
    };
    Ok(Some(relax_from(alloc, program, &other, moved, 1000)?))
}

/// Whether two tableaus have the same units and cells.
fn are_same(a: &Tableau, b: &Tableau) -> bool {
    if a.rows() != b.rows() || a.columns() != b.columns() {
        return false;
    }
    for k in 0..a.columns() {
        if k > 0 && a.unit(k) != b.unit(k) {
            return false;
        }
        for i in 0..a.rows() {
            let x = a.cell(i, k);
            let y = b.cell(i, k);
            if x.num != y.num || x.den != y.den {
                return false;
            }
        }
    }
    true
}

/// Whether the least tableau of the full box stays as it is in the same box.
fn stays_in_its_box(alloc: Global, program: &Program) -> Result<bool, AllocError> {
    let full = with_first(alloc, program, 0, 0xffff_ffff)?;
    let Some(at) = least_table(alloc, program, &full)? else {
        return Ok(false);
    };
    let Some(moved) = rebound(alloc, &at, program, &full, &full)? else {
        return Ok(false);
    };
    Ok(are_same(&at, &moved))
}

/// Whether both ways to relax in a box with other numbers of column 0 give this value, or Empty where that is None.
fn both_give(
    alloc: Global,
    program: &Program,
    low: u32,
    high: u32,
    value: Option<(i128, i128)>,
) -> Result<bool, AllocError> {
    let other = with_first(alloc, program, low, high)?;
    let afresh = relax(alloc, program, &other, 1000)?;
    let Some(from_parent) = from_full_box(alloc, program, low, high)? else {
        return Ok(false);
    };
    match (&afresh, &from_parent, value) {
        (Relaxed::Least { at: a, .. }, Relaxed::Least { at: b, .. }, Some((num, den))) => {
            Ok(has_value(a, num, den) && has_value(b, num, den))
        }
        (Relaxed::Empty { .. }, Relaxed::Empty { .. }, None) => Ok(true),
        _ => Ok(false),
    }
}

#[test]
fn other_boxes(rt: HostRuntime) -> Result<(), Fail> {
    let alloc = rt.alloc();
    let program = pairs(alloc)?;
    let holds = stays_in_its_box(alloc, &program)?;
    assert!(rt; holds);
    let holds = both_give(alloc, &program, 2, 2, Some((11, 2)))?;
    assert!(rt; holds);
    let holds = both_give(alloc, &program, 0, 0, None)?;
    assert!(rt; holds);
    Ok(())
}

#[test]
fn least(rt: HostRuntime) -> Result<(), Fail> {
    let alloc = rt.alloc();
    let holds = gives_least(
        alloc,
        five(alloc)?,
        (15, 2),
        (2, &[2], &[1]),
        (2, &[(0, 3)]),
    )?;
    assert!(rt; holds);
    let holds = gives_least(
        alloc,
        pairs(alloc)?,
        (21, 4),
        (4, &[1, 0, 1, 0, 1, 0], &[3, 1, 3, 1, 3, 1]),
        (20, &[(7, 1), (8, 1), (9, 1)]),
    )?;
    assert!(rt; holds);
    let holds = gives_least(
        alloc,
        singles(alloc)?,
        (21, 4),
        (
            4,
            &[0, 0, 1, 0, 0, 0, 1, 0, 0, 0, 1, 0],
            &[3, 1, 0, 0, 3, 1, 0, 0, 3, 1, 0, 0],
        ),
        (20, &[(13, 1), (14, 1), (15, 1)]),
    )?;
    assert!(rt; holds);
    let holds = gives_least(
        alloc,
        no_rows(alloc)?,
        (0, 1),
        (1, &[0, 0], &[0, 0]),
        (1, &[]),
    )?;
    assert!(rt; holds);
    Ok(())
}

#[test]
fn least_of_few(rt: HostRuntime) -> Result<(), Fail> {
    let alloc = rt.alloc();
    let holds = gives_least(alloc, no_columns(alloc)?, (0, 1), (1, &[], &[]), (1, &[]))?;
    assert!(rt; holds);
    let holds = gives_least(
        alloc,
        three_ties(alloc)?,
        (8, 1),
        (1, &[4, 0], &[0, 0]),
        (1, &[(0, 2)]),
    )?;
    assert!(rt; holds);
    let holds = gives_least(
        alloc,
        two_rows(alloc)?,
        (76, 5),
        (5, &[1, 1], &[4, 3]),
        (5, &[(0, 3), (1, 11)]),
    )?;
    assert!(rt; holds);
    Ok(())
}

#[test]
fn least_of_crossing_rows(rt: HostRuntime) -> Result<(), Fail> {
    let alloc = rt.alloc();
    let holds = gives_least(
        alloc,
        ordered(alloc)?,
        (5, 2),
        (2, &[2, 1], &[1, 1]),
        (2, &[(0, 2), (1, 1)]),
    )?;
    assert!(rt; holds);
    let holds = gives_least(
        alloc,
        full(alloc)?,
        (12, 1),
        (1, &[2, 2], &[0, 0]),
        (1, &[(0, 5)]),
    )?;
    assert!(rt; holds);
    let holds = gives_least(
        alloc,
        three_rows(alloc)?,
        (558, 17),
        (17, &[2, 2, 2], &[14, 7, 16]),
        (17, &[(0, 11), (1, 14), (2, 15)]),
    )?;
    assert!(rt; holds);
    Ok(())
}

#[test]
fn empty(rt: HostRuntime) -> Result<(), Fail> {
    let alloc = rt.alloc();
    let holds = gives_empty(alloc, too_much(alloc)?, 2, &[(0, 1)])?;
    assert!(rt; holds);
    let holds = gives_empty(alloc, nothing_to_reach(alloc)?, 1, &[(0, 1)])?;
    assert!(rt; holds);
    Ok(())
}

#[test]
fn chains(rt: HostRuntime) -> Result<(), Fail> {
    let alloc = rt.alloc();
    let holds = gives_misfit(alloc, chain_of_eight(alloc)?)?;
    assert!(rt; holds);
    let holds = gives_wide(alloc, chain_of_fourteen(alloc)?, 15, 1)?;
    assert!(rt; holds);
    let holds = gives_spent(alloc, chain_of_fourteen(alloc)?)?;
    assert!(rt; holds);
    Ok(())
}

/// Whether the multipliers with the weights -1, a share of a whole number and 2^21 are these numerators over 2^40.
fn gives_rounded(
    alloc: Global,
    share: (i64, i64),
    multipliers: &[(u32, u64)],
) -> Result<bool, AllocError> {
    if share.1 == 0 {
        return Ok(false);
    }
    let Some(part) = whole(share.0).div(whole(share.1)) else {
        return Ok(false);
    };
    let y = near_multipliers(alloc, &[whole(-1), part, whole(1 << 21)])?;
    Ok(y.den == 1 << 40 && are(y.tops.as_slice(), multipliers))
}

#[test]
fn rounded_down(rt: HostRuntime) -> Result<(), Fail> {
    let wanted = [(1, 733_007_751_850), (2, 1 << 60)];
    let holds = gives_rounded(rt.alloc(), (2, 3), &wanted)?;
    assert!(rt; holds);
    Ok(())
}
