//! A better whole point from counts or from a point of fractions.
ghost use Rattle.std.specs.Prelude.{IfOk, IfSome, length, ◌≡◌};
ghost use Rattle.incumbents.specs.Incumbents.{IsIncumbent};

use crate::layout::Layout;
use crate::moves::{exchange, mend, save};
use crate::rounding::{fill, round, take_over};
use crate::state::State;
use ip_model::{Point, Program, value, whole_point_ok};
use ras_table::List;
use std::alloc::{AllocError, Global};

/// A whole point of a program, with its value.
#[derive(Debug, Drop)]
pub struct Incumbent {
    pub point: List<u32>,
    pub value: u64,
}

/// The number of a column in a state: its count, or what its rows ask of it.
fn number_in(state: &State, place: usize) -> u32 {
    let count = match state.counts.as_slice().get(place) {
        Some(count) => *count,
        None => 0,
    };
    let asked = match state.helpers.as_slice().get(place) {
        Some(number) => u32::try_from(*number).unwrap_or(0),
        None => 0,
    };
    count.max(asked)
}

/// The numbers of all columns in a state.
fn numbers_in(alloc: Global, program: &Program, state: &State) -> Result<List<u32>, AllocError> {
    let columns = program.columns.as_slice();
    let numbers: Vec<u32> = columns
        .iter()
        .enumerate()
        .map(|(place, _)| number_in(state, place))
        .collect(alloc)?;
    Ok(List::from_vec(numbers))
}

/// The state's numbers with their value, where they are a whole point.
fn tested(alloc: Global, program: &Program, state: &State) -> Result<Option<Incumbent>, AllocError>
    ensures { IfOk result (λ found. IfSome found (IsIncumbent program.now)) }
{
    let point = numbers_in(alloc, program, state)?;
    if !whole_point_ok(program, &point) {
        return Ok(None);
    }
    let value = value(program, &point);
    Ok(Some(Incumbent { point, value }))
}

/// Makes moves from a state's counts: first such that mend, then such that save. Whether nothing is short.
fn settles(layout: &Layout, state: &mut State) -> bool {
    fill(layout, state);
    if !mend(layout, state) {
        return false;
    }
    save(layout, state);
    true
}

/// A whole point that is made of these numbers, of which those of the count columns matter, by moves of single servers: first such that
/// take away from what rows lack, then such that save. Where the moves lead to no whole point, there is none. `layout` is the program's.
/// The only fault is want of memory.
pub fn improve(
    alloc: Global,
    program: &Program,
    layout: &Layout,
    numbers: &[u32],
) -> Result<Option<Incumbent>, AllocError>
    ensures { IfOk result (λ found. IfSome found (IsIncumbent program.now)) }
{
    let mut state = State::new(alloc, layout)?;
    take_over(layout, numbers, state.counts.as_mut_slice());
    if !settles(layout, &mut state) {
        return Ok(None);
    }
    tested(alloc, program, &state)
}

/// The same from a point of fractions, whose counts are rounded class by class.
pub fn improve_rounded(
    alloc: Global,
    program: &Program,
    layout: &Layout,
    point: &Point,
) -> Result<Option<Incumbent>, AllocError>
    ensures { IfOk result (λ found. IfSome found (IsIncumbent program.now)) }
{
    let mut state = State::new(alloc, layout)?;
    round(layout, point, state.counts.as_mut_slice());
    if !settles(layout, &mut state) {
        return Ok(None);
    }
    tested(alloc, program, &state)
}

/// The same from numbers as in `improve`, and then by pairs of moves that save together, which takes many times as long.
pub fn improve_by_pairs(
    alloc: Global,
    program: &Program,
    layout: &Layout,
    numbers: &[u32],
) -> Result<Option<Incumbent>, AllocError>
    ensures { IfOk result (λ found. IfSome found (IsIncumbent program.now)) }
{
    let mut state = State::new(alloc, layout)?;
    take_over(layout, numbers, state.counts.as_mut_slice());
    if !settles(layout, &mut state) {
        return Ok(None);
    }
    exchange(layout, &mut state);
    tested(alloc, program, &state)
}
