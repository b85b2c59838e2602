//! Running sums of an assignment.
ghost use Rattle.std.specs.Prelude.{◌≡◌, ◌+◌, ◌-◌, ◌*◌, ◌<◌, ◌≤◌, IfOk, IsTrue, None, Some, length, nat_lt, replicate, slice_index_or, true};
ghost use Rattle.std.specs.Option.{option_map_or};
ghost use Rattle.plan_model.specs.declared.cases.Assignment.{Assignment as AnyAssignment};
ghost use Rattle.plan_model.specs.Allowed.{fits};
ghost use Rattle.plan_model.specs.Units.{free_plan};
ghost use Rattle.steady_plans.specs.Steady.{replaced};
ghost use Rattle.steady_plans.specs.Tables.{AreSums, AreSumsOf, cell, with_cell};

use crate::values::{place_at, place_in, value};
use plan_model::{Assignment, Case};
use std::alloc::{AllocError, Global};

/// The units of each reservation in each part of a region, at four levels. A table has 64 places for each part, one for
/// each reservation.
#[derive(Drop)]
pub(crate) struct Sums {
    /// In the whole region, as one part.
    pub(crate) all: Vec<u64>,
    /// On each switchboard.
    pub(crate) boards: Vec<u64>,
    /// On each rack.
    pub(crate) racks: Vec<u64>,
    /// In each datacenter.
    pub(crate) centers: Vec<u64>,
}

/// The units of reservation r in a part of a table.
pub(crate) fn units(cells: &[u64], part: u32, r: u32) -> u64
    requires { part * 64 + r < length cells.now }
    ensures { result ≡ cell cells.now part r }
{
    cells[part as usize * 64 + r as usize]
}

/// Adds units of reservation r in a part.
fn add(cells: &mut Vec<u64>, part: u32, r: u32, amount: u32)
    requires within { part * 64 + r < length cells.old.items }
    requires room { cell cells.old.items part r ≤ 20000000 }
    ensures { cells.new.items ≡ with_cell cells.old.items part r (cell cells.old.items part r + amount) }
{
    cells[part as usize * 64 + r as usize] += u64::from(amount);
}

/// Takes units of reservation r away in a part.
fn subtract(cells: &mut Vec<u64>, part: u32, r: u32, amount: u32)
    requires { part * 64 + r < length cells.old.items }
    ensures { cells.new.items ≡ with_cell cells.old.items part r (cell cells.old.items part r - amount) }
{
    let at = part as usize * 64 + r as usize;
    cells[at] = cells[at].saturating_sub(u64::from(amount));
}

/// A server gets reservation r, in an assignment in which it had none.
pub(crate) fn put(sums: &mut Sums, case: &Case, server: u32, r: u32)
    requires in_range { server < length case.now.places }
    requires there { r < length case.now.wants }
    requires sums { AreSums case.now sums.old }
    ensures { (a : AnyAssignment) → AreSumsOf case.now a sums.old → slice_index_or a.of server None ≡ None → AreSumsOf case.now (replaced a server (Some r)) sums.new }
{
    let place = place_at(case, server);
    let amount = value(case, r, place.kind);
    add(&mut sums.all, 0, r, amount);
    add(&mut sums.boards, place.board, r, amount);
    add(&mut sums.racks, place.rack, r, amount);
    add(&mut sums.centers, place.center, r, amount);
}

/// A server gets none, in an assignment in which it had reservation r.
pub(crate) fn take(sums: &mut Sums, case: &Case, server: u32, r: u32)
    requires in_range { server < length case.now.places }
    requires there { r < length case.now.wants }
    requires sums { AreSums case.now sums.old }
    ensures { (a : AnyAssignment) → AreSumsOf case.now a sums.old → slice_index_or a.of server None ≡ Some r → AreSumsOf case.now (replaced a server None) sums.new }
{
    let place = place_at(case, server);
    let amount = value(case, r, place.kind);
    subtract(&mut sums.all, 0, r, amount);
    subtract(&mut sums.boards, place.board, r, amount);
    subtract(&mut sums.racks, place.rack, r, amount);
    subtract(&mut sums.centers, place.center, r, amount);
}

/// A server gets a place, in an assignment in which it had none.
pub(crate) fn put_place(sums: &mut Sums, case: &Case, server: u32, to: Option<u32>)
    requires in_range { server < length case.now.places }
    requires there { IsTrue (option_map_or (λ r. nat_lt r (length case.now.wants)) to true) }
    requires sums { AreSums case.now sums.old }
    ensures { (a : AnyAssignment) → AreSumsOf case.now a sums.old → slice_index_or a.of server None ≡ None → AreSumsOf case.now (replaced a server to) sums.new }
{
    match to {
        Some(r) => put(sums, case, server, r),
        None => {}
    }
}

/// A server gets none, in an assignment in which it had that place.
pub(crate) fn take_place(sums: &mut Sums, case: &Case, server: u32, from: Option<u32>)
    requires in_range { server < length case.now.places }
    requires there { IsTrue (option_map_or (λ r. nat_lt r (length case.now.wants)) from true) }
    requires sums { AreSums case.now sums.old }
    ensures { (a : AnyAssignment) → AreSumsOf case.now a sums.old → slice_index_or a.of server None ≡ from → AreSumsOf case.now (replaced a server None) sums.new }
{
    match from {
        Some(r) => take(sums, case, server, r),
        None => {}
    }
}

/// So many zeros.
fn zeros(alloc: Global, count: usize) -> Result<Vec<u64>, AllocError>
    ensures { IfOk result (λ v. v.items ≡ replicate count 0) }
{
    vec![in alloc; 0u64; count]
}

/// The sums of the assignment that gives none to every server.
fn no_sums(alloc: Global, case: &Case) -> Result<Sums, AllocError>
    ensures { IfOk result (λ sums. AreSumsOf case.now (free_plan case.now) sums) }
{
    let all = zeros(alloc, 64)?;
    let boards = zeros(alloc, case.boards as usize * 64)?;
    let racks = zeros(alloc, case.racks as usize * 64)?;
    let centers = zeros(alloc, case.centers as usize * 64)?;
    Ok(Sums {
        all,
        boards,
        racks,
        centers,
    })
}

/// The sums of an assignment.
///
/// # Errors
/// For want of memory.
pub(crate) fn sums_of(alloc: Global, case: &Case, a: &Assignment) -> Result<Sums, AllocError>
    requires { IsTrue (fits case.now a.now) }
    ensures { IfOk result (λ sums. AreSumsOf case.now a.now sums) }
{
    let mut sums = no_sums(alloc, case)?;
    for server in 0..case.places.len() {
        let to = place_in(a, server);
        put_place(&mut sums, case, server, to);
    }
    Ok(sums)
}
