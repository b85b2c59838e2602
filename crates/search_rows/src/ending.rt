//! How the written method ends in a box.
use crate::table::{Area, State, Table, cell};
use exact_fraction::{Fraction, gcd};
use ip_model::Program;
use std::alloc::{AllocError, Global};

/// The greatest denominator of a certificate, and the greatest numerator of its multipliers.
const LARGEST: u128 = 1 << 60;

/// How the written method ends.
#[derive(Clone, Copy, Debug, PartialEq)]
pub(crate) enum End {
    /// At a point whose value, rounded up, is this.
    Least(i128),
    /// Without a point.
    Empty,
    /// At a pivot that does not fit, or whose choice does not.
    Wide,
    /// At a tableau that is over and whose certificate does not fit.
    Misfit,
    /// After all its pivots.
    Spent,
}

impl End {
    /// Whether it is no end with an answer that fits.
    pub(crate) fn is_stop(self) -> bool {
        matches!(self, End::Wide | End::Misfit | End::Spent)
    }
}

/// The least common denominator, where it fits.
fn common(numbers: &[Fraction]) -> Option<u128> {
    let mut common = 1u128;
    for number in numbers {
        let den = number.den.unsigned_abs();
        let share = den.checked_div(gcd(common, den))?;
        common = common.checked_mul(share)?;
        if common > LARGEST {
            return None;
        }
    }
    Some(common)
}

/// Whether these are multipliers of a certificate.
fn are_multipliers(numbers: &[Fraction]) -> bool {
    let Some(common) = common(numbers) else {
        return false;
    };
    for number in numbers {
        let share = common
            .checked_div(number.den.unsigned_abs())
            .unwrap_or(common);
        let top = number.num.unsigned_abs().checked_mul(share);
        if top.is_none_or(|top| top > LARGEST) {
            return false;
        }
    }
    true
}

/// The numbers of a row at the units that are surpluses.
fn at_surpluses(
    alloc: Global,
    program: &Program,
    at: &Table,
    row: usize,
) -> Result<Vec<Fraction>, AllocError> {
    let first = program.columns.as_slice().len().saturating_add(1);
    let after = first.saturating_add(program.rows.as_slice().len());
    let mut found = Vec::new(alloc);
    for (k, unit) in at.units.iter().enumerate() {
        if first <= *unit && *unit < after {
            found.push(cell(at.row(row), k.saturating_add(1)))?;
        }
    }
    Ok(found)
}

/// The values of the columns' steps.
fn steps(alloc: Global, program: &Program, at: &Table) -> Result<Vec<Fraction>, AllocError> {
    let mut found = Vec::new(alloc);
    for j in 0..program.columns.as_slice().len() {
        found.push(cell(at.row(j.saturating_add(1)), 0))?;
    }
    Ok(found)
}

/// How the method ends at a least tableau.
fn at_least(alloc: Global, program: &Program, at: &Table) -> Result<End, AllocError> {
    let steps = steps(alloc, program, at)?;
    let duals = at_surpluses(alloc, program, at, 0)?;
    if common(&steps).is_none() || !are_multipliers(&duals) {
        return Ok(End::Misfit);
    }
    let value = cell(at.row(0), 0).ceil();
    Ok(End::Least(value.saturating_add(i128::from(program.base))))
}

/// How the method ends at a tableau that is empty at a row.
fn at_empty(alloc: Global, program: &Program, at: &Table, row: usize) -> Result<End, AllocError> {
    let refutation = at_surpluses(alloc, program, at, row)?;
    if are_multipliers(&refutation) {
        Ok(End::Empty)
    } else {
        Ok(End::Misfit)
    }
}

/// How the written method ends in a box after at most so many pivots.
pub(crate) fn end_within(
    alloc: Global,
    program: &Program,
    area: &Area,
    pivots: u64,
) -> Result<End, AllocError> {
    let mut at = Table::start(alloc, program, area)?;
    for _ in 0..pivots {
        let State::Open { row } = at.state() else {
            break;
        };
        if !at.pivot(alloc, row)? {
            return Ok(End::Wide);
        }
    }
    match at.state() {
        State::Least => at_least(alloc, program, &at),
        State::Empty { row } => at_empty(alloc, program, &at, row),
        State::Open { row: _ } => Ok(End::Spent),
    }
}

/// How the written method ends in a box.
pub(crate) fn end_of(alloc: Global, program: &Program, area: &Area) -> Result<End, AllocError> {
    let size = u64::from(program.rows.len()) + u64::from(program.columns.len());
    end_within(alloc, program, area, 8 * size)
}
