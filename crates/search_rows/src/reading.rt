//! What the nodes of a tree say of their boxes, read a second time.
use crate::ending::{End, end_of};
use crate::table::Area;
use bound_certificate::{Multipliers, Node, Tree};
use ip_model::{Line, Point, Program};
use std::alloc::{AllocError, Global};

/// How many nodes of each kind a tree has, and the first that does not say what it has to.
#[derive(Clone, Copy, Debug, PartialEq)]
pub(crate) struct Reading {
    pub(crate) shown: u32,
    pub(crate) licensed: u32,
    pub(crate) tight: u32,
    pub(crate) refuted: u32,
    pub(crate) wrong: Option<usize>,
}

/// The box from 0 to the tops.
pub(crate) fn whole_area(alloc: Global, program: &Program) -> Result<Area, AllocError> {
    let columns = program.columns.as_slice();
    Ok(Area {
        low: vec![in alloc; 0u32; columns.len()]?,
        high: columns.iter().map(|column| column.top).collect(alloc)?,
    })
}

/// Lowers a number to this one, where it is greater.
fn lower(numbers: &mut [u32], column: u32, most: u32) {
    if let Some(number) = numbers.get_mut(column as usize) {
        *number = most.min(*number);
    }
}

/// Raises a number to this one, where it is less.
fn raise(numbers: &mut [u32], column: u32, least: u32) {
    if let Some(number) = numbers.get_mut(column as usize) {
        *number = least.max(*number);
    }
}

/// The box of a node: from the splits above it, the nearest first.
fn area_of(
    alloc: Global,
    program: &Program,
    nodes: &[Node],
    node: usize,
) -> Result<Area, AllocError> {
    let mut area = whole_area(alloc, program)?;
    let mut below = node;
    for (i, above) in nodes.iter().enumerate().rev() {
        let Node::Split {
            column,
            at,
            low,
            high,
            shown: _,
        } = above
        else {
            continue;
        };
        if *low as usize == below {
            lower(&mut area.high, *column, *at);
            below = i;
        } else if *high as usize == below {
            raise(&mut area.low, *column, at.saturating_add(1));
            below = i;
        }
    }
    Ok(area)
}

/// The sum of factor times number in a row.
fn sum_of(line: &Line, numbers: &[i128]) -> i128 {
    let mut sum = 0i128;
    for term in line.terms.as_slice() {
        let number = numbers.get(term.column as usize).copied().unwrap_or(0);
        sum = sum.saturating_add(number.saturating_mul(i128::from(term.factor)));
    }
    sum
}

/// The numbers of a point over its denominator.
fn numerators(alloc: Global, point: &Point) -> Result<Vec<i128>, AllocError> {
    let mut found = Vec::new(alloc);
    for (whole, part) in point.whole.as_slice().iter().zip(point.part.as_slice()) {
        let whole = i128::from(*whole).saturating_mul(i128::from(point.den));
        found.push(whole.saturating_add(i128::from(*part)))?;
    }
    Ok(found)
}

/// Whether numbers over a denominator lie in a box.
fn lie_in(area: &Area, den: i128, numbers: &[i128]) -> bool {
    let sides = area.low.iter().zip(area.high.iter());
    for ((low, high), number) in sides.zip(numbers.iter()) {
        let (least, most) = (i128::from(*low), i128::from(*high));
        if *number < least.saturating_mul(den) || *number > most.saturating_mul(den) {
            return false;
        }
    }
    area.low.len() == numbers.len()
}

/// Whether numbers over a denominator meet each row.
fn meet_rows(program: &Program, den: i128, numbers: &[i128]) -> bool {
    for line in program.rows.as_slice() {
        if sum_of(line, numbers) < i128::from(line.least).saturating_mul(den) {
            return false;
        }
    }
    true
}

/// Whether a point lies in the relaxation of a box, strictly between two neighbours in a column.
fn lies_between(
    alloc: Global,
    program: &Program,
    area: &Area,
    point: &Point,
    column: u32,
    at: u32,
) -> Result<bool, AllocError> {
    let den = i128::from(point.den);
    let numbers = numerators(alloc, point)?;
    let Some(number) = numbers.get(column as usize) else {
        return Ok(false);
    };
    let above = number.saturating_sub(i128::from(at).saturating_mul(den));
    Ok(above > 0 && above < den && lie_in(area, den, &numbers) && meet_rows(program, den, &numbers))
}

/// What each column costs over a denominator, less what multipliers take of it.
fn rests(alloc: Global, program: &Program, y: &Multipliers) -> Result<Vec<i128>, AllocError> {
    let mut rests = Vec::new(alloc);
    for column in program.columns.as_slice() {
        rests.push(i128::from(column.cost).saturating_mul(i128::from(y.den)))?;
    }
    for top in y.tops.as_slice() {
        let Some(line) = program.rows.get(top.row) else {
            continue;
        };
        for term in line.terms.as_slice() {
            if let Some(rest) = rests.get_mut(term.column as usize) {
                let taken = i128::from(term.factor).saturating_mul(i128::from(top.num));
                *rest = rest.saturating_sub(taken);
            }
        }
    }
    Ok(rests)
}

/// What multipliers ask of the rows, times their denominator.
fn asked(program: &Program, y: &Multipliers) -> i128 {
    let mut sum = i128::from(program.base).saturating_mul(i128::from(y.den));
    for top in y.tops.as_slice() {
        if let Some(line) = program.rows.get(top.row) {
            sum = sum.saturating_add(i128::from(line.least).saturating_mul(i128::from(top.num)));
        }
    }
    sum
}

/// The bound that multipliers show in a box, rounded up.
fn bound_of(
    alloc: Global,
    program: &Program,
    area: &Area,
    y: &Multipliers,
) -> Result<i128, AllocError> {
    let rests = rests(alloc, program, y)?;
    let mut sum = asked(program, y);
    let sides = area.low.iter().zip(area.high.iter());
    for ((low, high), rest) in sides.zip(rests.iter()) {
        let (least, most) = (i128::from(*low), i128::from(*high));
        sum = sum.saturating_add(rest.saturating_mul(least).min(rest.saturating_mul(most)));
    }
    let den = i128::from(y.den);
    let up = sum.saturating_add(den.saturating_sub(1));
    Ok(up.checked_div_euclid(den).unwrap_or(0).max(0))
}

/// Counts a node as one of its kind, where it says what it has to.
fn read_node(
    alloc: Global,
    program: &Program,
    nodes: &[Node],
    node: usize,
    so_far: Reading,
) -> Result<Reading, AllocError> {
    let area = area_of(alloc, program, nodes, node)?;
    let mut reading = so_far;
    let says = match nodes.get(node) {
        Some(
            Node::Split {
                column,
                at,
                low: _,
                high: _,
                shown: Some(point),
            },
        ) => {
            reading.shown = reading.shown.saturating_add(1);
            lies_between(alloc, program, &area, point, *column, *at)?
        }
        Some(Node::Split { .. }) => {
            reading.licensed = reading.licensed.saturating_add(1);
            end_of(alloc, program, &area)?.is_stop()
        }
        Some(Node::Bound(y)) => {
            reading.tight = reading.tight.saturating_add(1);
            let bound = bound_of(alloc, program, &area, y)?;
            is_tight(end_of(alloc, program, &area)?, bound)
        }
        _ => {
            reading.refuted = reading.refuted.saturating_add(1);
            true
        }
    };
    if !says && reading.wrong.is_none() {
        reading.wrong = Some(node);
    }
    Ok(reading)
}

/// Whether a leaf with this bound says all that the relaxation of its box knows, which ends so.
fn is_tight(end: End, bound: i128) -> bool {
    match end {
        End::Least(value) => value <= bound,
        _ => end.is_stop(),
    }
}

/// Reads the nodes of a tree.
pub(crate) fn read(alloc: Global, program: &Program, tree: &Tree) -> Result<Reading, AllocError> {
    let nodes = tree.nodes.as_slice();
    let mut reading = Reading {
        shown: 0,
        licensed: 0,
        tight: 0,
        refuted: 0,
        wrong: None,
    };
    for node in 0..nodes.len() {
        reading = read_node(alloc, program, nodes, node, reading)?;
    }
    Ok(reading)
}
