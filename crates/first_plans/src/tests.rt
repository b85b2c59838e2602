ghost use Rattle.std.specs.Prelude.{◌≡◌, ◌≤◌, IfOk};
ghost use Rattle.plan_model.specs.Examples.{server, plain_want};
ghost use Rattle.plan_model.specs.declared.cases.Holder.TheVariants.{Free};

use crate::first_plan;
use plan_model::{Case, Holder, Place, Want};
use ras_requests::{Moves, Protection};
use ras_table::List;
use std::alloc::{AllocError, Global};
use std::test::Fail;

// A free server, up and idle.
fn server(rack: u32, board: u32, center: u32) -> Place
    ensures { result ≡ record (server rack board Free) { center = center } }
{
    Place {
        kind: 0,
        rack,
        board,
        center,
        holder: Holder::Free,
        busy: false,
        up: true,
    }
}

// A reservation of value 1.
fn want(alloc: Global, need: u32, protection: Protection) -> Result<Want, AllocError>
    requires { need ≤ 10000000 }
    ensures { IfOk result (λ want. want ≡ record (plain_want need 1) { protection = protection }) }
{
    Ok(Want {
        need,
        values: List::from_vec(vec![in alloc; 1]?),
        buffer_weight: 0,
        spread_limit: 0,
        spread_weight: 0,
        rack_limit: 0,
        rack_weight: 0,
        near: List::new(alloc, 0)?,
        protection,
    })
}

// Eight servers, four on each of two switchboards, for a need of 2.
fn eight(alloc: Global) -> Result<Case, AllocError> {
    let places = vec![in alloc;
        server(0, 0, 0),
        server(0, 0, 0),
        server(1, 0, 0),
        server(1, 0, 0),
        server(2, 1, 0),
        server(2, 1, 0),
        server(3, 1, 0),
        server(3, 1, 0),
    ]?;
    let wants = vec![in alloc; want(alloc, 2, Protection::Board)?]?;
    Ok(Case {
        places: List::from_vec(places),
        kinds: 1,
        racks: 4,
        boards: 2,
        centers: 1,
        moves: Moves {
            take: 1,
            idle: 5,
            busy: 50,
        },
        wants: List::from_vec(wants),
    })
}

// Four servers, each on a switchboard of its own, two in each of two datacenters, for a need of 1.
fn four(alloc: Global, protection: Protection) -> Result<Case, AllocError> {
    let places = vec![in alloc;
        server(0, 0, 0),
        server(1, 1, 0),
        server(2, 2, 1),
        server(3, 3, 1),
    ]?;
    let wants = vec![in alloc; want(alloc, 1, protection)?]?;
    Ok(Case {
        places: List::from_vec(places),
        kinds: 1,
        racks: 4,
        boards: 4,
        centers: 2,
        moves: Moves {
            take: 1,
            idle: 5,
            busy: 50,
        },
        wants: List::from_vec(wants),
    })
}

#[test]
fn takes_in_turn(rt: HostRuntime) -> Result<(), Fail> {
    let case = eight(rt.alloc())?;
    let found = first_plan(rt.alloc(), &case)?;
    let plan = found.ok_or("none")?;
    let of = plan.of.as_slice();
    let wanted = [Some(0), Some(0), None, None, Some(0), Some(0), None, None];
    assert!(rt; of.len() == 8);
    assert_eq!(rt; of, wanted.as_slice());
    Ok(())
}

#[test]
fn takes_by_protection(rt: HostRuntime) -> Result<(), Fail> {
    let of_center = first_plan(rt.alloc(), &four(rt.alloc(), Protection::Center)?)?.ok_or("none")?;
    assert_eq!(rt;
        of_center.of.as_slice(),
        [Some(0), None, Some(0), None].as_slice()
    );
    let of_board = first_plan(rt.alloc(), &four(rt.alloc(), Protection::Board)?)?.ok_or("none")?;
    assert_eq!(rt;
        of_board.of.as_slice(),
        [Some(0), Some(0), None, None].as_slice()
    );
    let of_none = first_plan(rt.alloc(), &four(rt.alloc(), Protection::Total)?)?.ok_or("none")?;
    assert_eq!(rt;
        of_none.of.as_slice(),
        [Some(0), None, None, None].as_slice()
    );
    Ok(())
}
