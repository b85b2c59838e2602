ghost use Rattle.std.specs.Prelude.{◌≡◌, IfOk, length};
ghost use Rattle.symmetry_classes.specs.Groups.{same_holder as same_holder_of};
ghost use Rattle.ras_rounds.specs.Rounds.{holder_after as holder_after_of, place_after as place_after_of, places_after as places_after_of};

use online_mover::{Mover, Stand};
use plan_model::{Case, Holder, Place};
use ras_table::List;
use std::alloc::{AllocError, Global};

/// Whether two holders are the same.
pub(crate) fn same_holder(one: Holder, other: Holder) -> bool
    ensures { result ≡ same_holder_of one other }
{
    match (one, other) {
        (Holder::Free, Holder::Free) => true,
        (Holder::Held(q), Holder::Held(r)) => q == r,
        (Holder::Gone, Holder::Gone) => true,
        _ => false,
    }
}

/// Who holds a server after a round that left it standing there: a join that is not done counts as failed, and a drain that
/// is not done as refused.
fn holder_after(stand: Stand) -> Holder
    ensures { result ≡ holder_after_of stand }
{
    match stand {
        Stand::Free | Stand::Joining(_) => Holder::Free,
        Stand::Bound(holder) | Stand::Draining(holder) => holder,
    }
}

/// A server after a round. It is busy where it was and its holder is the same.
fn place_after(place: &Place, stand: Stand, up: bool) -> Place
    ensures { result ≡ place_after_of place.now stand up }
{
    let holder = holder_after(stand);
    Place {
        kind: place.kind,
        rack: place.rack,
        board: place.board,
        center: place.center,
        holder,
        busy: place.busy && same_holder(place.holder, holder),
        up,
    }
}

/// The servers of the case after a round.
pub(crate) fn places_after(
    alloc: Global,
    case: &Case,
    mover: &Mover,
) -> Result<List<Place>, AllocError>
    requires { length mover.now.servers ≡ length case.now.places }
    ensures { IfOk result (λ places. places ≡ places_after_of case.now.places mover.now.servers) }
{
    let places = case.places.as_slice();
    let mut items = Vec::new(alloc);
    for server in 0..case.places.len() {
        let place = &places[server as usize];
        items.push(place_after(place, mover.stand(server), mover.is_up(server)))?;
    }
    Ok(List::from_vec(items))
}
