ghost use Rattle.std.specs.Prelude.{◌≡◌};
ghost use Rattle.plan_model.specs.Examples.{server};
ghost use Rattle.plan_model.specs.declared.cases.Holder.TheVariants.{Held};

use crate::group;
use plan_model::{Case, Grouping, Holder, Place, Want};
use ras_requests::{Moves, Protection};
use ras_table::List;
use std::alloc::{AllocError, Global};
use std::test::Fail;

// A server that the reservation holds.
fn held(rack: u32, busy: bool) -> Place
    ensures { result ≡ record (server rack 0 (Held 0)) { busy = busy } }
{
    Place {
        kind: 0,
        rack,
        board: 0,
        center: 0,
        holder: Holder::Held(0),
        busy,
        up: true,
    }
}

// Four servers that one reservation holds: the first is busy, and the last stands on another rack.
fn four(alloc: Global) -> Result<Case, AllocError> {
    let places = vec![in alloc;
        held(0, true),
        held(0, false),
        held(0, false),
        held(1, false),
    ]?;
    let want = Want {
        need: 1,
        values: List::from_vec(vec![in alloc; 1]?),
        buffer_weight: 0,
        spread_limit: 0,
        spread_weight: 0,
        rack_limit: 0,
        rack_weight: 0,
        near: List::new(alloc, 0)?,
        protection: Protection::Board,
    };
    Ok(Case {
        places: List::from_vec(places),
        kinds: 1,
        racks: 2,
        boards: 1,
        centers: 1,
        moves: Moves {
            take: 1,
            idle: 5,
            busy: 50,
        },
        wants: List::from_vec(vec![in alloc; want]?),
    })
}

#[test]
fn four_servers(rt: HostRuntime) -> Result<(), Fail> {
    let case = four(rt.alloc())?;
    let movable = List::from_vec(vec![in rt.alloc(); true; 4]?);
    assert_eq!(rt; case.places.len(), 4);
    assert_eq!(rt; movable.len(), 4);
    let classes = group(rt.alloc(), &case, &movable, false, Grouping::Class)?;
    assert_eq!(rt; classes.list.len(), 2);
    let second = classes.list.get(1).ok_or("a class")?;
    assert_eq!(rt; second.members.as_slice(), [1, 2, 3].as_slice());
    let by_rack = group(rt.alloc(), &case, &movable, true, Grouping::Class)?;
    assert_eq!(rt; by_rack.list.len(), 3);
    let single = group(rt.alloc(), &case, &movable, false, Grouping::Single)?;
    assert_eq!(rt; single.list.len(), 4);
    Ok(())
}
