//! Split columns of small programs, whose gains were computed by hand.
ghost use Rattle.std.specs.Prelude.{◌≡◌, ◌<◌, IfOk, length};

use crate::gains::{MOST_GAIN, score, split_column};
use crate::tests::{columns_of, rows_of, three_servers};
use exact_simplex::{Relaxed, relax};
use ip_model::{Program, full_box};
use std::alloc::{AllocError, Global};
use std::test::Fail;

/// Whether a least tableau was found, and its split column.
fn split_of(alloc: Global, program: &Program) -> Result<(bool, Option<u32>), AllocError> {
    let bounds = full_box(alloc, program)?;
    match relax(alloc, program, &bounds, 100)? {
        Relaxed::Least {
            point,
            duals: _duals,
            at,
        } => Ok((true, split_column(program, &point, &at))),
        _ => Ok((false, None)),
    }
}

/// The score of a column, 0 where no least tableau was found.
fn score_of(alloc: Global, program: &Program, column: u32) -> Result<u64, AllocError>
    requires { column < length program.now.columns }
{
    let bounds = full_box(alloc, program)?;
    match relax(alloc, program, &bounds, 100)? {
        Relaxed::Least {
            point,
            duals: _duals,
            at,
        } => Ok(score(&point, &at, column)),
        _ => Ok(0),
    }
}

/// Three servers, alone on a switchboard each, of which the last one costs less. With the surpluses `s`, `t` and `u` of the rows the numbers
/// are `(1 + s + t - u) / 2`, `(1 + s + u - t) / 2` and `(1 + t + u - s) / 2`, and they cost `4 + 2 * s + t + u`.
fn one_that_costs_less(alloc: Global) -> Result<Program, AllocError>
    ensures { IfOk result (λ program. length program.columns ≡ 3) }
{
    let rows = rows_of(
        alloc,
        &[
            (&[(0, 1), (1, 1)], 1),
            (&[(0, 1), (2, 1)], 1),
            (&[(1, 1), (2, 1)], 1),
        ],
    )?;
    let columns = columns_of(alloc, &[(3, 1, false), (3, 1, false), (2, 1, false)])?;
    Ok(Program {
        base: 0,
        columns,
        rows,
    })
}

/// A number at a quarter, `(1 + s) / 4`, that costs 3 and that nothing lowers.
fn quarter(alloc: Global) -> Result<Program, AllocError>
    ensures { IfOk result (λ program. length program.columns ≡ 1) }
{
    let rows = rows_of(alloc, &[(&[(0, 4)], 1)])?;
    let columns = columns_of(alloc, &[(3, 1, false)])?;
    Ok(Program {
        base: 0,
        columns,
        rows,
    })
}

/// A number at 1.
fn whole_number(alloc: Global) -> Result<Program, AllocError> {
    let rows = rows_of(alloc, &[(&[(0, 2)], 2)])?;
    let columns = columns_of(alloc, &[(3, 1, false)])?;
    Ok(Program {
        base: 0,
        columns,
        rows,
    })
}

#[test]
fn greatest_score_is_split(rt: HostRuntime) -> Result<(), Fail> {
    let alloc = rt.alloc();
    let program = one_that_costs_less(alloc)?;
    assert_eq!(rt; score_of(alloc, &program, 0)?, 1 << 40);
    assert_eq!(rt; score_of(alloc, &program, 1)?, 1 << 40);
    assert_eq!(rt; score_of(alloc, &program, 2)?, 1 << 41);
    assert_eq!(rt; split_of(alloc, &program)?, (true, Some(2)));
    Ok(())
}

#[test]
fn side_without_a_unit(rt: HostRuntime) -> Result<(), Fail> {
    let alloc = rt.alloc();
    let program = quarter(alloc)?;
    assert_eq!(rt; score_of(alloc, &program, 0)?, MOST_GAIN * 2_359_296);
    assert_eq!(rt; split_of(alloc, &program)?, (true, Some(0)));
    Ok(())
}

#[test]
fn first_of_alike(rt: HostRuntime) -> Result<(), Fail> {
    let alloc = rt.alloc();
    assert_eq!(rt; split_of(alloc, &three_servers(alloc)?)?, (true, Some(0)));
    Ok(())
}

#[test]
fn whole_point_has_none(rt: HostRuntime) -> Result<(), Fail> {
    let alloc = rt.alloc();
    assert_eq!(rt; split_of(alloc, &whole_number(alloc)?)?, (true, None));
    Ok(())
}
