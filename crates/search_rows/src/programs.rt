//! Programs made by hand.
ghost use Rattle.std.specs.Prelude.{◌≡◌, ◌<◌, ◌^◌, All, IfOk, None, length, map};
ghost use Rattle.ip_model.specs.declared.parts.Mark.TheVariants.{Count};
ghost use Rattle.ip_model.specs.declared.parts.RowKind.TheVariants.{Total};

use ip_model::{Column, Line, Mark, Program, RowKind, Term};
use ras_table::List;
use std::alloc::{AllocError, Global};

/// Columns that count, with these costs, each of top 1.
fn columns_of(alloc: Global, costs: &[u32]) -> Result<List<Column>, AllocError>
    requires { length costs.now < 2 ^ 32 }
    ensures { IfOk result (λ columns. columns ≡ map (λ cost. record { cost = cost; top = 1; mark = Count 0 None }) costs.now) }
{
    let mut columns = Vec::with_capacity(alloc, costs.len())?;
    for cost in costs {
        columns.push(Column {
            cost: *cost,
            top: 1,
            mark: Mark::Count { class: 0, to: None },
        })?;
    }
    Ok(List::from_vec(columns))
}

/// A row with these columns and factors.
fn row_of(alloc: Global, given: &[(u32, i32)], least: i32) -> Result<Line, AllocError>
    requires { length given.now < 2 ^ 32 }
    ensures { IfOk result (λ line. line ≡ record { terms = map (λ t. record { column = t.0; factor = t.1 }) given.now; least = least; kind = Total }) }
{
    let mut terms = Vec::with_capacity(alloc, given.len())?;
    for pair in given {
        terms.push(Term {
            column: pair.0,
            factor: pair.1,
        })?;
    }
    Ok(Line {
        terms: List::from_vec(terms),
        least,
        kind: RowKind::Total,
    })
}

/// Rows with these columns and factors, and what each asks for.
fn rows_of(alloc: Global, given: &[(&[(u32, i32)], i32)]) -> Result<List<Line>, AllocError>
    requires few { length given.now < 2 ^ 32 }
    requires terms { All (λ g. length g.0.now < 2 ^ 32) given.now }
    ensures { IfOk result (λ rows. rows ≡ map (λ g. record { terms = map (λ t. record { column = t.0; factor = t.1 }) g.0.now; least = g.1; kind = Total }) given.now) }
{
    let mut rows = Vec::with_capacity(alloc, given.len())?;
    for pair in given {
        rows.push(row_of(alloc, pair.0, pair.1)?)?;
    }
    Ok(List::from_vec(rows))
}

/// Three servers, alone on a switchboard each. Without any one switchboard one is still to serve, at a cost of 2.
fn three_servers(alloc: Global) -> Result<Program, AllocError> {
    let rows = rows_of(
        alloc,
        &[
            (&[(0, 1), (1, 1)], 1),
            (&[(0, 1), (2, 1)], 1),
            (&[(1, 1), (2, 1)], 1),
        ],
    )?;
    let columns = columns_of(alloc, &[2, 2, 2])?;
    Ok(Program {
        base: 0,
        columns,
        rows,
    })
}

/// Two servers of which three are to serve.
fn one_too_many(alloc: Global) -> Result<Program, AllocError> {
    let rows = rows_of(alloc, &[(&[(0, 1), (1, 1)], 3)])?;
    let columns = columns_of(alloc, &[1, 1])?;
    Ok(Program {
        base: 0,
        columns,
        rows,
    })
}

/// A chain of 8 columns, each at least 1 / 999 of the next, whose last is 1.
fn chain_of_eight(alloc: Global) -> Result<Program, AllocError> {
    let rows = rows_of(
        alloc,
        &[
            (&[(0, 999), (1, -1)], 0),
            (&[(1, 999), (2, -1)], 0),
            (&[(2, 999), (3, -1)], 0),
            (&[(3, 999), (4, -1)], 0),
            (&[(4, 999), (5, -1)], 0),
            (&[(5, 999), (6, -1)], 0),
            (&[(6, 999), (7, -1)], 0),
            (&[(7, 1)], 1),
        ],
    )?;
    let columns = columns_of(alloc, &[1, 0, 0, 0, 0, 0, 0, 0])?;
    Ok(Program {
        base: 0,
        columns,
        rows,
    })
}

/// A chain of 14 columns, each at least 1 / 999 of the next, whose last is 1.
fn chain_of_fourteen(alloc: Global) -> Result<Program, AllocError> {
    let rows = rows_of(
        alloc,
        &[
            (&[(0, 999), (1, -1)], 0),
            (&[(1, 999), (2, -1)], 0),
            (&[(2, 999), (3, -1)], 0),
            (&[(3, 999), (4, -1)], 0),
            (&[(4, 999), (5, -1)], 0),
            (&[(5, 999), (6, -1)], 0),
            (&[(6, 999), (7, -1)], 0),
            (&[(7, 999), (8, -1)], 0),
            (&[(8, 999), (9, -1)], 0),
            (&[(9, 999), (10, -1)], 0),
            (&[(10, 999), (11, -1)], 0),
            (&[(11, 999), (12, -1)], 0),
            (&[(12, 999), (13, -1)], 0),
            (&[(13, 1)], 1),
        ],
    )?;
    let columns = columns_of(alloc, &[1, 0, 0, 0, 0, 0, 0, 0, 0, 0, 0, 0, 0, 0])?;
    Ok(Program {
        base: 0,
        columns,
        rows,
    })
}

/// One of these programs.
#[derive(Clone, Copy, Debug)]
pub(crate) enum Made {
    ThreeServers,
    OneTooMany,
    ChainOfEight,
    ChainOfFourteen,
}

/// The program of that name.
pub(crate) fn program_named(alloc: Global, which: Made) -> Result<Program, AllocError> {
    match which {
        Made::ThreeServers => three_servers(alloc),
        Made::OneTooMany => one_too_many(alloc),
        Made::ChainOfEight => chain_of_eight(alloc),
        Made::ChainOfFourteen => chain_of_fourteen(alloc),
    }
}
