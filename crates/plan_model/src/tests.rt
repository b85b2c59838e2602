ghost use Rattle.std.specs.Prelude.{◌≡◌, IfOk, ◌∷◌, [], ℕ};
ghost use Rattle.plan_model.specs.Examples.{server, plain_want};
ghost use Rattle.plan_model.specs.declared.cases.Holder.TheVariants.{Free};

use crate::{
    Assignment, Case, Holder, Lost, Place, Want, first_loss, first_not_served, fits, free_plan,
    keeps_need, rack_excess, region_cost, units_on_board,
};
use ras_requests::{Moves, Protection};
use ras_table::List;
use std::alloc::{AllocError, Global};
use std::test::Fail;

// A free server, up and idle.
fn server(rack: u32, board: u32) -> Place
    ensures { result ≡ server rack board Free }
{
    Place {
        kind: 0,
        rack,
        board,
        center: 0,
        holder: Holder::Free,
        busy: false,
        up: true,
    }
}

// A reservation that needs 40 and wants 10 on a rack at most.
fn want(alloc: Global) -> Result<Want, AllocError>
    ensures { IfOk result (λ want. want ≡ record (plain_want 40 10) { rack_limit = 10; rack_weight = 3 }) }
{
    Ok(Want {
        need: 40,
        values: List::from_vec(vec![in alloc; 10]?),
        buffer_weight: 0,
        spread_limit: 0,
        spread_weight: 0,
        rack_limit: 10,
        rack_weight: 3,
        near: List::new(alloc, 0)?,
        protection: Protection::Board,
    })
}

// Six free servers, two on each of three switchboards.
fn six(alloc: Global) -> Result<Case, AllocError> {
    let places = vec![in alloc;
        server(0, 0),
        server(0, 0),
        server(1, 1),
        server(1, 1),
        server(2, 2),
        server(2, 2),
    ]?;
    let wants = vec![in alloc; want(alloc)?]?;
    Ok(Case {
        places: List::from_vec(places),
        kinds: 1,
        racks: 3,
        boards: 3,
        centers: 1,
        moves: Moves {
            take: 1,
            idle: 5,
            busy: 50,
        },
        wants: List::from_vec(wants),
    })
}

fn all_of_six(alloc: Global) -> Result<Assignment, AllocError> {
    let of = vec![in alloc; Some(0); 6]?;
    Ok(Assignment {
        of: List::from_vec(of),
    })
}

#[test]
fn six_servers(rt: HostRuntime) -> Result<(), Fail> {
    let case = six(rt.alloc())?;
    let none = free_plan(rt.alloc(), &case)?;
    assert!(rt; fits(&case, &none));
    assert_eq!(rt; region_cost(&case, &none), 0);
    let all = all_of_six(rt.alloc())?;
    assert!(rt; fits(&case, &all));
    assert_eq!(rt; region_cost(&case, &all), 6);
    assert_eq!(rt; first_not_served(&case, &all), None);
    assert!(rt; case.wants.len() == 1);
    assert!(rt; case.boards == 3);
    assert!(rt; keeps_need(&case, &all, 0));
    assert_eq!(rt; first_loss(&case, &none, 0), Some(Lost::Total));
    assert_eq!(rt; units_on_board(&case, &all, 0, 2), 20);
    assert_eq!(rt; rack_excess(&case, &all, 0), 90);
    Ok(())
}
