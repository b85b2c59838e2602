//! The written method, read a second time: a dense tableau of fractions.
use exact_fraction::{Fraction, fits, whole};
use ip_model::{Line, Program};
use std::alloc::{AllocError, Global};
use std::cmp::Ordering;

/// A box: the low and the high number of each column.
#[derive(Drop)]
pub(crate) struct Area {
    pub(crate) low: Vec<u32>,
    pub(crate) high: Vec<u32>,
}

/// The rows, each a value and a factor for each unit, and the row that is the unit of each column from 1 on.
#[derive(Drop)]
pub(crate) struct Table {
    pub(crate) rows: Vec<Vec<Fraction>>,
    pub(crate) units: Vec<usize>,
}

/// Whether a tableau is over.
#[derive(Clone, Copy, Debug)]
pub(crate) enum State {
    Least,
    Empty { row: usize },
    Open { row: usize },
}

/// The number in this column of a row.
pub(crate) fn cell(row: &[Fraction], column: usize) -> Fraction {
    row.get(column).copied().unwrap_or(whole(0))
}

/// The quotient, where it fits and the divisor is not 0.
fn quotient(top: Fraction, bottom: Fraction) -> Option<Fraction> {
    if bottom.num == 0 {
        return None;
    }
    top.div(bottom)
}

/// The row of a sum of slope times column less a number, in steps above the lows.
fn affine(
    alloc: Global,
    area: &Area,
    slopes: &[i64],
    less: i64,
) -> Result<Vec<Fraction>, AllocError> {
    let mut value = 0i64.saturating_sub(less);
    for (slope, low) in slopes.iter().zip(area.low.iter()) {
        value = value.saturating_add(slope.saturating_mul(i64::from(*low)));
    }
    let mut row = vec![in alloc; whole(value)]?;
    for slope in slopes {
        row.push(whole(*slope))?;
    }
    Ok(row)
}

/// The slopes of one column alone.
fn alone(alloc: Global, columns: usize, column: usize, slope: i64) -> Result<Vec<i64>, AllocError> {
    let mut slopes = vec![in alloc; 0i64; columns]?;
    if let Some(place) = slopes.get_mut(column) {
        *place = slope;
    }
    Ok(slopes)
}

/// The slopes of a row of the program.
fn factors(alloc: Global, columns: usize, line: &Line) -> Result<Vec<i64>, AllocError> {
    let mut slopes = vec![in alloc; 0i64; columns]?;
    for term in line.terms.as_slice() {
        if let Some(place) = slopes.get_mut(term.column as usize) {
            *place = i64::from(term.factor);
        }
    }
    Ok(slopes)
}

/// What each column costs.
fn costs(alloc: Global, program: &Program) -> Result<Vec<i64>, AllocError> {
    let columns = program.columns.as_slice();
    columns
        .iter()
        .map(|column| i64::from(column.cost))
        .collect(alloc)
}

impl Table {
    /// The start tableau of a box: the costs, each column's step, each row's surplus, each column's room.
    pub(crate) fn start(
        alloc: Global,
        program: &Program,
        area: &Area,
    ) -> Result<Table, AllocError> {
        let columns = program.columns.as_slice().len();
        let costs = costs(alloc, program)?;
        let mut rows = vec![in alloc; affine(alloc, area, &costs, 0)?]?;
        let mut units = Vec::new(alloc);
        for (j, low) in area.low.iter().enumerate() {
            units.push(rows.len())?;
            let slopes = alone(alloc, columns, j, 1)?;
            rows.push(affine(alloc, area, &slopes, i64::from(*low))?)?;
        }
        for line in program.rows.as_slice() {
            let slopes = factors(alloc, columns, line)?;
            rows.push(affine(alloc, area, &slopes, i64::from(line.least))?)?;
        }
        for (j, high) in area.high.iter().enumerate() {
            let slopes = alone(alloc, columns, j, -1)?;
            rows.push(affine(alloc, area, &slopes, -i64::from(*high))?)?;
        }
        Ok(Table { rows, units })
    }

    /// A row's cells.
    pub(crate) fn row(&self, row: usize) -> &[Fraction] {
        match self.rows.get(row) {
            Some(cells) => cells.as_slice(),
            None => &[],
        }
    }

    /// The first row from 1 on with a value below 0.
    fn first_below(&self) -> Option<usize> {
        for (i, row) in self.rows.iter().enumerate() {
            if i > 0 && cell(row, 0).num < 0 {
                return Some(i);
            }
        }
        None
    }

    /// Whether the tableau is over, and else the row of its pivot.
    pub(crate) fn state(&self) -> State {
        let Some(row) = self.first_below() else {
            return State::Least;
        };
        for (k, number) in self.row(row).iter().enumerate() {
            if k > 0 && number.num > 0 {
                return State::Open { row };
            }
        }
        State::Empty { row }
    }

    /// Whether another candidate comes before the one that is held, where the quotients that tell it fit.
    fn comes_before(&self, row: usize, held: usize, other: usize) -> Option<bool> {
        let (by, with) = (cell(self.row(row), held), cell(self.row(row), other));
        for cells in self.rows.iter() {
            let (a, b) = (cell(cells, held), cell(cells, other));
            if a.num == 0 && b.num == 0 {
                continue;
            }
            let own = quotient(a, by)?;
            match quotient(b, with)?.cmp(own) {
                Ordering::Less => return Some(true),
                Ordering::Greater => return Some(false),
                Ordering::Equal => {}
            }
        }
        Some(false)
    }

    /// The column of the pivot in a row, where its choice fits.
    fn column(&self, row: usize) -> Option<usize> {
        let mut held = None;
        for (k, number) in self.row(row).iter().enumerate() {
            if k == 0 || number.num <= 0 {
                continue;
            }
            match held {
                Some(first) if !self.comes_before(row, first, k)? => {}
                _ => held = Some(k),
            }
        }
        held
    }

    /// Makes the pivot in a row, and tells whether the choice of its column and its operations fit.
    pub(crate) fn pivot(&mut self, alloc: Global, row: usize) -> Result<bool, AllocError> {
        let Some(column) = self.column(row) else {
            return Ok(false);
        };
        let old = self.row(row).to_vec(alloc)?;
        for (i, cells) in self.rows.iter_mut().enumerate() {
            let fits = if i == row {
                made_unit(cells, column)
            } else {
                taken(cells, &old, column)
            };
            if !fits {
                return Ok(false);
            }
        }
        if let Some(unit) = self.units.get_mut(column.saturating_sub(1)) {
            *unit = row;
        }
        Ok(true)
    }
}

/// Makes a row the unit of a column.
fn made_unit(cells: &mut [Fraction], column: usize) -> bool {
    for (l, number) in cells.iter_mut().enumerate() {
        *number = whole(if l == column { 1 } else { 0 });
    }
    true
}

/// Takes the pivot's row from another one, and tells whether the operations fit.
fn taken(cells: &mut [Fraction], old: &[Fraction], column: usize) -> bool {
    let factor = cell(cells, column);
    let by = cell(old, column);
    if factor.num == 0 {
        return true;
    }
    for (l, number) in cells.iter_mut().enumerate() {
        let next = if l == column {
            quotient(factor, by)
        } else {
            fits!(share = quotient(cell(old, l), by); part = factor.mul(share); number.sub(part))
        };
        let Some(next) = next else {
            return false;
        };
        *number = next;
    }
    true
}
