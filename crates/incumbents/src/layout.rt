//! A program laid out by columns, made once for all the points of a search.

use crate::groups::{Group, join};
use ip_model::{Column, Line, Mark, Program, RowKind};
use std::alloc::{AllocError, Global};

/// A factor of a row in a column.
#[derive(Clone, Copy, Debug)]
pub struct Entry {
    pub row: u32,
    pub factor: i64,
}

/// What it means that counts leave a row short.
#[derive(Clone, Copy, Debug)]
pub enum Lack {
    /// A row of a class, which moves within the class keep.
    OfClass,
    /// A row without a helper: the counts are not those of a whole point.
    Hard,
    /// The row's helper has to make up for it, at this cost for a unit.
    Helped { helper: u32, cost: i64 },
}

/// What a row asks.
#[derive(Clone, Copy, Debug)]
pub struct Asked {
    pub least: i64,
    pub lack: Lack,
}

/// What is kept of a column: what one unit costs, its rows, and where it is a helper the rows that it serves.
#[derive(Debug, Drop)]
pub struct Strip {
    pub column: Column,
    pub entries: Vec<Entry>,
    pub served: Vec<u32>,
    /// The place of its reservation's group.
    pub reservation: Option<usize>,
}

/// The rows and columns of a program, and the count columns by classes and by reservations.
#[derive(Debug, Drop)]
pub struct Layout {
    pub column_count: u32,
    pub row_count: u32,
    pub strips: Vec<Strip>,
    pub rows: Vec<Asked>,
    pub classes: Vec<Group>,
    pub reservations: Vec<Group>,
}

/// Whether the row of this kind says how many servers a class has.
fn is_of_class(kind: RowKind) -> bool {
    matches!(kind, RowKind::ClassMost | RowKind::ClassLeast)
}

/// A row's helper, as what has to make up for what the row lacks.
fn helper_in(columns: &[Column], line: &Line) -> Option<Lack> {
    for term in line.terms.as_slice() {
        if let Some(column) = columns.get(term.column as usize) {
            if !matches!(column.mark, Mark::Count { .. }) {
                return Some(Lack::Helped {
                    helper: term.column,
                    cost: i64::from(column.cost),
                });
            }
        }
    }
    None
}

/// What a row asks, and what it means that it is short.
fn asked_by(columns: &[Column], line: &Line) -> Asked {
    let lack = match helper_in(columns, line) {
        Some(helped) => helped,
        None if is_of_class(line.kind) => Lack::OfClass,
        None => Lack::Hard,
    };
    Asked {
        least: i64::from(line.least),
        lack,
    }
}

/// Adds a row to the columns that stand in it.
fn lay_row(strips: &mut [Strip], row: u32, line: &Line, lack: Lack) -> Result<(), AllocError> {
    for term in line.terms.as_slice() {
        if let Some(strip) = strips.get_mut(term.column as usize) {
            strip.entries.push(Entry {
                row,
                factor: i64::from(term.factor),
            })?;
        }
    }
    if let Lack::Helped { helper, .. } = lack {
        if let Some(strip) = strips.get_mut(helper as usize) {
            strip.served.push(row)?;
        }
    }
    Ok(())
}

/// Adds a column to the groups of its class and its reservation, and to the layout.
fn lay_column(
    alloc: Global,
    layout: &mut Layout,
    number: u32,
    column: Column,
) -> Result<(), AllocError> {
    let mut reservation = None;
    if let Mark::Count { class, to } = column.mark {
        join(alloc, &mut layout.classes, class, number)?;
        if let Some(r) = to {
            reservation = Some(join(alloc, &mut layout.reservations, r, number)?);
        }
    }
    layout.strips.push(Strip {
        column,
        entries: Vec::new(alloc),
        served: Vec::new(alloc),
        reservation,
    })?;
    Ok(())
}

impl Layout {
    /// The layout of a program. The only fault is want of memory.
    pub fn new(alloc: Global, program: &Program) -> Result<Layout, AllocError> {
        let mut layout = Layout {
            column_count: program.columns.len(),
            row_count: program.rows.len(),
            strips: Vec::new(alloc),
            rows: Vec::new(alloc),
            classes: Vec::new(alloc),
            reservations: Vec::new(alloc),
        };
        let columns = program.columns.as_slice();
        for (j, column) in columns.iter().enumerate() {
            lay_column(alloc, &mut layout, j as u32, *column)?;
        }
        for (i, line) in program.rows.as_slice().iter().enumerate() {
            let asked = asked_by(columns, line);
            lay_row(layout.strips.as_mut_slice(), i as u32, line, asked.lack)?;
            layout.rows.push(asked)?;
        }
        Ok(layout)
    }

    /// What it means that a row is short. A row that is not there never is.
    pub fn lack(&self, row: u32) -> Lack {
        match self.rows.as_slice().get(row as usize) {
            Some(asked) => asked.lack,
            None => Lack::OfClass,
        }
    }

    /// The cost of a unit of a column.
    pub fn cost(&self, column: u32) -> i64 {
        match self.strips.as_slice().get(column as usize) {
            Some(strip) => i64::from(strip.column.cost),
            None => 0,
        }
    }

    /// The greatest number of a column.
    pub fn top(&self, column: u32) -> u32 {
        match self.strips.as_slice().get(column as usize) {
            Some(strip) => strip.column.top,
            None => 0,
        }
    }

    /// The rows of a column.
    pub fn entries(&self, column: u32) -> &[Entry] {
        match self.strips.as_slice().get(column as usize) {
            Some(strip) => strip.entries.as_slice(),
            None => &[],
        }
    }

    /// The rows that a helper serves.
    pub fn served(&self, helper: u32) -> &[u32] {
        match self.strips.as_slice().get(helper as usize) {
            Some(strip) => strip.served.as_slice(),
            None => &[],
        }
    }
}
