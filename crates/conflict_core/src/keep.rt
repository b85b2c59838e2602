//! Requests from which only some reservations are kept.
ghost use Rattle.std.specs.Prelude.{◌≡◌, ◌<◌, All, IfOk, length};
ghost use Rattle.conflict_core.specs.Kept.{AreMembers, IsKeptTo, kept_list};

use crate::copies::copy_reservation;
use ras_requests::{Requests, Reservation};
use ras_table::List;
use std::alloc::{AllocError, Global};

/// Copies of the members.
fn kept_of(
    alloc: Global,
    list: &[Reservation],
    members: &List<u32>,
) -> Result<List<Reservation>, AllocError>
    requires { All (λ r. r < length list.now) members.now }
    ensures { IfOk result (λ kept. kept ≡ kept_list list.now members.now) }
{
    let mut items = Vec::new(alloc);
    for r in members.as_slice() {
        items.push(copy_reservation(alloc, &list[*r as usize])?)?;
    }
    Ok(List::from_vec(items))
}

/// The requests with the members alone, whose numbers rise.
///
/// # Errors
/// For want of memory.
pub fn keep_only(
    alloc: Global,
    requests: &Requests,
    members: &List<u32>,
) -> Result<Requests, AllocError>
    requires { AreMembers (length requests.now.list) members.now }
    ensures { IfOk result (IsKeptTo requests.now members.now) }
{
    Ok(Requests {
        moves: requests.moves,
        list: kept_of(alloc, requests.list.as_slice(), members)?,
    })
}
