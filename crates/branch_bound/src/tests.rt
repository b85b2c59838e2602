//! Searches of small programs. Their answers were computed by hand, or by trying all numbers of the columns with another program.
ghost use Rattle.std.specs.Prelude.{◌≡◌, ◌<◌, ◌^◌, All, IfOk, IsTrue, None, length, map, true, if◌then◌else◌};
ghost use Rattle.std.specs.List.{list_all};
ghost use Rattle.ip_model.specs.declared.parts.Mark.TheVariants.{Count, Share};
ghost use Rattle.ip_model.specs.declared.parts.RowKind.TheVariants.{Total};
ghost use Rattle.ip_model.specs.Rule.{program_rule};

use crate::best_first::search;
use crate::found::Found;
use ip_model::{Column, Line, Mark, Program, RowKind, Term};
use ras_table::List;
use std::alloc::{AllocError, Global};
use std::test::Fail;

/// The mark of a helper, or of a count.
fn mark_of(helper: bool) -> Mark
    ensures { result ≡ (if helper then Share 0 else Count 0 None) }
{
    if helper {
        Mark::Share { r: 0 }
    } else {
        Mark::Count { class: 0, to: None }
    }
}

/// Columns of these costs and tops, helpers where it is told.
pub fn columns_of(alloc: Global, given: &[(u32, u32, bool)]) -> Result<List<Column>, AllocError>
    requires { length given.now < 2 ^ 32 }
    ensures { IfOk result (λ columns. columns ≡ map (λ g. record { cost = g.0; top = g.1; mark = if g.2 then Share 0 else Count 0 None }) given.now) }
{
    let mut columns = Vec::with_capacity(alloc, given.len())?;
    for triple in given {
        columns.push(Column {
            cost: triple.0,
            top: triple.1,
            mark: mark_of(triple.2),
        })?;
    }
    Ok(List::from_vec(columns))
}

/// A row with these columns and factors.
fn row_of(alloc: Global, given: &[(u32, i32)], least: i32) -> Result<Line, AllocError>
    requires { length given.now < 2 ^ 32 }
    ensures { IfOk result (λ line. line ≡ record { terms = map (λ t. record { column = t.0; factor = t.1 }) given.now; least = least; kind = Total }) }
{
    let mut terms = Vec::with_capacity(alloc, given.len())?;
    for pair in given {
        terms.push(Term {
            column: pair.0,
            factor: pair.1,
        })?;
    }
    Ok(Line {
        terms: List::from_vec(terms),
        least,
        kind: RowKind::Total,
    })
}

/// Rows with these columns and factors, and what each asks for.
pub fn rows_of(alloc: Global, given: &[(&[(u32, i32)], i32)]) -> Result<List<Line>, AllocError>
    requires few { length given.now < 2 ^ 32 }
    requires terms { All (λ g. length g.0.now < 2 ^ 32) given.now }
    ensures { IfOk result (λ rows. rows ≡ map (λ g. record { terms = map (λ t. record { column = t.0; factor = t.1 }) g.0.now; least = g.1; kind = Total }) given.now) }
{
    let mut rows = Vec::with_capacity(alloc, given.len())?;
    for pair in given {
        rows.push(row_of(alloc, pair.0, pair.1)?)?;
    }
    Ok(List::from_vec(rows))
}

/// Rows of three terms each, and what each asks for.
fn rows_of_three(alloc: Global, given: &[([(u32, i32); 3], i32)]) -> Result<List<Line>, AllocError>
    requires { length given.now < 2 ^ 32 }
    ensures { IfOk result (λ rows. rows ≡ map (λ g. record { terms = map (λ t. record { column = t.0; factor = t.1 }) g.0; least = g.1; kind = Total }) given.now) }
{
    let mut rows = Vec::with_capacity(alloc, given.len())?;
    for pair in given {
        rows.push(row_of(alloc, &pair.0, pair.1)?)?;
    }
    Ok(List::from_vec(rows))
}

/// A program of four columns and three rows of three terms each, by its base and these; and the value of its least whole points, if it
/// has any.
type Given = (
    u64,
    [(u32, u32, bool); 4],
    [([(u32, i32); 3], i32); 3],
    Option<u64>,
);

/// A program with these parts.
fn program_of(alloc: Global, given: &Given) -> Result<Program, AllocError>
    requires { IsTrue (program_rule given.now.0 (map (λ g. record { cost = g.0; top = g.1; mark = if g.2 then Share 0 else Count 0 None }) given.now.1) (map (λ g. record { terms = map (λ t. record { column = t.0; factor = t.1 }) g.0; least = g.1; kind = Total }) given.now.2)) }
{
    let rows = rows_of_three(alloc, &given.2)?;
    let columns = columns_of(alloc, &given.1)?;
    Ok(Program {
        base: given.0,
        columns,
        rows,
    })
}

/// Which answer it is, with the value of its point and its bound.
fn told(found: &Found) -> (&'static str, u64, u64) {
    match found {
        Found::Plan {
            point: _,
            value,
            lower,
            tree: _,
        } => ("plan", *value, *lower),
        Found::Empty { tree: _ } => ("empty", 0, 0),
        Found::Limit {
            best: Some(best),
            lower,
            tree: _,
        } => ("limit", best.value, *lower),
        Found::Limit {
            best: None,
            lower,
            tree: _,
        } => ("limit", 0, *lower),
    }
}

/// The answer without a first point, at gap 0 and with room for 511 nodes.
fn best_of(alloc: Global, program: &Program) -> Result<(&'static str, u64, u64), AllocError> {
    let found = search(alloc, program, None, 0, 511)?;
    Ok(told(&found))
}

/// Whether the answer is a point of this value with that bound, or that there is none.
fn is_least(found: &Found, least: Option<u64>) -> bool {
    match found {
        Found::Plan {
            point: _,
            value,
            lower,
            tree: _,
        } => least == Some(*value) && *lower == *value,
        Found::Empty { tree: _ } => least.is_none(),
        Found::Limit {
            best: _,
            lower: _,
            tree: _,
        } => false,
    }
}

/// The first program whose answer is another, without a first point, at gap 0 and with room for 511 nodes.
fn first_missed(alloc: Global, programs: &[Given]) -> Result<Option<usize>, AllocError>
    requires { list_all (λ p. program_rule p.0 (map (λ g. record { cost = g.0; top = g.1; mark = if g.2 then Share 0 else Count 0 None }) p.1) (map (λ g. record { terms = map (λ t. record { column = t.0; factor = t.1 }) g.0; least = g.1; kind = Total }) p.2)) programs.now ≡ true }
{
    for (i, given) in programs.iter().enumerate() {
        let program = program_of(alloc, given)?;
        let found = search(alloc, &program, None, 0, 511)?;
        if !is_least(&found, given.3) {
            return Ok(Some(i));
        }
    }
    Ok(None)
}

/// The first of twenty programs whose answer is not the one that trying all numbers gives. Eight have a helper, and the last three have no
/// whole point, though their relaxations have points.
fn first_missed_of_twenty(alloc: Global) -> Result<Option<usize>, AllocError> {
    first_missed(
        alloc,
        &[
            (
                3,
                [(3, 2, false), (3, 1, false), (2, 2, false), (0, 4, false)],
                [
                    ([(0, 4), (1, -5), (2, 7)], 16),
                    ([(1, 3), (2, 9), (3, 6)], 24),
                    ([(0, 7), (1, 9), (3, 8)], 38),
                ],
                Some(10),
            ),
            (
                0,
                [(7, 2, false), (3, 3, false), (7, 2, false), (9, 2, false)],
                [
                    ([(0, 3), (1, 3), (2, 7)], 15),
                    ([(0, 3), (1, 6), (2, 9)], 20),
                    ([(0, 5), (1, 2), (3, 8)], 12),
                ],
                Some(23),
            ),
            (
                0,
                [(6, 3, false), (8, 3, false), (3, 2, false), (2, 1, false)],
                [
                    ([(0, 9), (1, 9), (2, 9)], 26),
                    ([(0, 8), (1, 5), (3, -3)], 17),
                    ([(0, 2), (1, 6), (2, 7)], 24),
                ],
                Some(26),
            ),
            (
                0,
                [(3, 4, false), (4, 2, false), (3, 3, false), (9, 1, false)],
                [
                    ([(0, -3), (2, 5), (3, 9)], 10),
                    ([(0, 2), (2, 2), (3, 4)], 11),
                    ([(0, -1), (1, 7), (2, 8)], 26),
                ],
                Some(25),
            ),
            (
                10,
                [(9, 1, false), (9, 4, false), (2, 4, false), (2, 3, false)],
                [
                    ([(0, 2), (1, 6), (3, -3)], 12),
                    ([(0, -2), (2, 8), (3, 7)], 17),
                    ([(0, 9), (2, 5), (3, 5)], 16),
                ],
                Some(36),
            ),
            (
                3,
                [(5, 1, false), (8, 2, false), (9, 4, false), (8, 2, false)],
                [
                    ([(0, 6), (1, 3), (3, 7)], 17),
                    ([(0, 9), (2, 2), (3, 9)], 21),
                    ([(1, 3), (2, 3), (3, -1)], 9),
                ],
                Some(50),
            ),
            (
                10,
                [(1, 1, false), (8, 4, false), (5, 2, false), (7, 4, false)],
                [
                    ([(0, 8), (1, 9), (3, -3)], 33),
                    ([(0, 8), (1, 3), (3, -4)], 10),
                    ([(0, 2), (1, 3), (3, 9)], 28),
                ],
                Some(57),
            ),
            (
                10,
                [(7, 4, false), (9, 2, false), (8, 3, false), (6, 4, false)],
                [
                    ([(0, 3), (1, 4), (2, 9)], 15),
                    ([(0, 8), (2, -5), (3, 4)], 26),
                    ([(0, 3), (1, 6), (2, 9)], 39),
                ],
                Some(78),
            ),
            (
                3,
                [(9, 3, false), (7, 3, false), (1, 2, false), (7, 4, false)],
                [
                    ([(0, -3), (1, 4), (3, 2)], 7),
                    ([(0, -1), (2, 2), (3, 7)], 25),
                    ([(1, -1), (2, 6), (3, 4)], 13),
                ],
                Some(31),
            ),
            (
                10,
                [(1, 2, false), (8, 3, false), (9, 2, false), (1, 5, true)],
                [
                    ([(0, 9), (1, 9), (2, -4)], 27),
                    ([(0, 4), (1, -1), (2, 9)], 10),
                    ([(0, -1), (1, -1), (3, 1)], 0),
                ],
                Some(41),
            ),
            (
                0,
                [(7, 3, false), (3, 1, false), (4, 1, false), (2, 2, true)],
                [
                    ([(0, 8), (1, 2), (2, 4)], 12),
                    ([(0, 9), (1, -3), (2, 4)], 16),
                    ([(1, -2), (2, -2), (3, 1)], -2),
                ],
                Some(14),
            ),
            (
                0,
                [(6, 4, false), (7, 2, false), (9, 2, false), (4, 7, true)],
                [
                    ([(0, 3), (1, 9), (2, -1)], 13),
                    ([(0, 6), (1, 9), (2, 4)], 22),
                    ([(0, -1), (2, -1), (3, 1)], 1),
                ],
                Some(28),
            ),
            (
                0,
                [(8, 3, false), (3, 2, false), (9, 4, false), (4, 8, true)],
                [
                    ([(0, 7), (1, -4), (2, 5)], 30),
                    ([(0, 2), (1, -4), (2, 6)], 20),
                    ([(1, -2), (2, -1), (3, 1)], 0),
                ],
                Some(63),
            ),
            (
                0,
                [(3, 1, false), (2, 3, false), (3, 4, false), (4, 7, true)],
                [
                    ([(0, 6), (1, 3), (2, 2)], 14),
                    ([(0, 2), (1, 4), (2, 5)], 12),
                    ([(0, -3), (1, -2), (3, 1)], -2),
                ],
                Some(19),
            ),
            (
                3,
                [(4, 2, false), (7, 2, false), (6, 3, false), (1, 11, true)],
                [
                    ([(0, 3), (1, 2), (2, 2)], 8),
                    ([(0, 5), (1, 2), (2, 8)], 30),
                    ([(0, -2), (2, -2), (3, 1)], 1),
                ],
                Some(40),
            ),
            (
                0,
                [(9, 3, false), (8, 1, false), (3, 3, false), (4, 12, true)],
                [
                    ([(0, 8), (1, 5), (2, -4)], 12),
                    ([(0, 7), (1, 7), (2, 7)], 17),
                    ([(0, -1), (2, -3), (3, 1)], 0),
                ],
                Some(34),
            ),
            (
                0,
                [(3, 3, false), (5, 1, false), (3, 4, false), (1, 6, true)],
                [
                    ([(0, 7), (1, 8), (2, 2)], 19),
                    ([(0, 7), (1, 9), (2, -1)], 11),
                    ([(1, -1), (2, -2), (3, 1)], -3),
                ],
                Some(9),
            ),
            (
                3,
                [(7, 1, false), (8, 4, false), (5, 3, false), (3, 4, false)],
                [
                    ([(0, -1), (1, -1), (2, 9)], 14),
                    ([(1, -5), (2, 6), (3, 8)], 32),
                    ([(0, -9), (1, -4), (3, -7)], -13),
                ],
                None,
            ),
            (
                0,
                [(7, 3, false), (6, 1, false), (7, 2, false), (8, 1, false)],
                [
                    ([(1, 9), (2, 6), (3, 7)], 19),
                    ([(0, 6), (1, 6), (2, 4)], 17),
                    ([(0, -7), (2, -3), (3, -9)], -12),
                ],
                None,
            ),
            (
                0,
                [(4, 1, false), (8, 3, false), (7, 2, false), (2, 3, false)],
                [
                    ([(0, -3), (2, 4), (3, 6)], 9),
                    ([(0, 4), (1, 9), (2, 6)], 17),
                    ([(0, -4), (1, -9), (3, -6)], -14),
                ],
                None,
            ),
        ],
    )
}

/// Three servers, alone on a switchboard each. Without any one switchboard one is still to serve, at a cost of 2.
pub fn three_servers(alloc: Global) -> Result<Program, AllocError> {
    let rows = rows_of(
        alloc,
        &[
            (&[(0, 1), (1, 1)], 1),
            (&[(0, 1), (2, 1)], 1),
            (&[(1, 1), (2, 1)], 1),
        ],
    )?;
    let columns = columns_of(alloc, &[(2, 1, false), (2, 1, false), (2, 1, false)])?;
    Ok(Program {
        base: 0,
        columns,
        rows,
    })
}

/// A program without columns and rows.
fn no_columns(alloc: Global) -> Result<Program, AllocError> {
    let rows = List::new(alloc, 0)?;
    let columns = List::new(alloc, 0)?;
    Ok(Program {
        base: 7,
        columns,
        rows,
    })
}

/// A program without columns of which a row asks for 1.
fn unmet(alloc: Global) -> Result<Program, AllocError> {
    let rows = rows_of(alloc, &[(&[], 1)])?;
    let columns = List::new(alloc, 0)?;
    Ok(Program {
        base: 7,
        columns,
        rows,
    })
}

/// A chain of 8 columns, each at least 1 / 999 of the next, whose last is 1.
fn chain_of_eight(alloc: Global) -> Result<Program, AllocError> {
    let rows = rows_of(
        alloc,
        &[
            (&[(0, 999), (1, -1)], 0),
            (&[(1, 999), (2, -1)], 0),
            (&[(2, 999), (3, -1)], 0),
            (&[(3, 999), (4, -1)], 0),
            (&[(4, 999), (5, -1)], 0),
            (&[(5, 999), (6, -1)], 0),
            (&[(6, 999), (7, -1)], 0),
            (&[(7, 1)], 1),
        ],
    )?;
    let columns = columns_of(
        alloc,
        &[
            (1, 1, false),
            (0, 1, false),
            (0, 1, false),
            (0, 1, false),
            (0, 1, false),
            (0, 1, false),
            (0, 1, false),
            (0, 1, false),
        ],
    )?;
    Ok(Program {
        base: 0,
        columns,
        rows,
    })
}

/// Six servers of ten units in three classes, one for each of three switchboards, and a need of one unit more than they have without
/// any one switchboard, and than all have.
fn one_unit_too_many(alloc: Global) -> Result<Program, AllocError> {
    let rows = rows_of(
        alloc,
        &[
            (&[(0, -1), (1, -1)], -2),
            (&[(0, 1), (1, 1)], 2),
            (&[(2, -1), (3, -1)], -2),
            (&[(2, 1), (3, 1)], 2),
            (&[(4, -1), (5, -1)], -2),
            (&[(4, 1), (5, 1)], 2),
            (&[(0, 10), (2, 10), (4, 10)], 41),
            (&[(2, 10), (4, 10)], 41),
            (&[(0, 10), (4, 10)], 41),
            (&[(0, 10), (2, 10)], 41),
        ],
    )?;
    let columns = columns_of(
        alloc,
        &[
            (1, 2, false),
            (0, 2, false),
            (1, 2, false),
            (0, 2, false),
            (1, 2, false),
            (0, 2, false),
        ],
    )?;
    Ok(Program {
        base: 0,
        columns,
        rows,
    })
}

#[test]
fn twenty_programs(rt: HostRuntime) -> Result<(), Fail> {
    assert_eq!(rt; first_missed_of_twenty(rt.alloc())?, None);
    Ok(())
}

#[test]
fn three_servers_take_a_split(rt: HostRuntime) -> Result<(), Fail> {
    let alloc = rt.alloc();
    let program = three_servers(alloc)?;
    assert_eq!(rt; best_of(alloc, &program)?, ("plan", 4, 4));
    assert_eq!(rt;
        told(&search(alloc, &program, None, 0, 1)?),
        ("limit", 0, 3)
    );
    Ok(())
}

#[test]
fn no_column_at_all(rt: HostRuntime) -> Result<(), Fail> {
    let alloc = rt.alloc();
    assert_eq!(rt; best_of(alloc, &no_columns(alloc)?)?, ("plan", 7, 7));
    assert_eq!(rt; best_of(alloc, &unmet(alloc)?)?, ("empty", 0, 0));
    Ok(())
}

#[test]
fn chain_and_one_unit_too_many(rt: HostRuntime) -> Result<(), Fail> {
    let alloc = rt.alloc();
    assert_eq!(rt; best_of(alloc, &chain_of_eight(alloc)?)?, ("plan", 1, 1));
    assert_eq!(rt;
        best_of(alloc, &one_unit_too_many(alloc)?)?,
        ("empty", 0, 0)
    );
    Ok(())
}
