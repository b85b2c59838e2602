ghost use Rattle.std.specs.Prelude.{◌≡◌, IfOk, length};
ghost use Rattle.spare_pool.specs.Steps.{change_within};

use crate::{Change, Failure, Outcome, Pool, read_failures};
use plan_model::{Assignment, Case, first_not_served, fits, join};
use ras_inventory::{Region, read_bindings, read_region};
use ras_requests::read_requests;
use ras_table::List;
use std::alloc::Global;
use std::test::Fail;

// Four servers of one type.
const ONE_TYPE: &[u8] = b"server,type,rack,switchboard,datacenter\n\
    s1,t,k1,m1,d1\ns2,t,k2,m2,d1\ns3,t,k3,m3,d1\ns4,t,k1,m1,d1\n";

const ONE_VALUE: &[u8] =
    br#"{"format":1,"moves":{"take":1,"idle":5,"busy":50},"reservations":[{"name":"a","need":10,"values":{"t":5}}]}"#;

// Two servers of each of two types.
const TWO_TYPES: &[u8] = b"server,type,rack,switchboard,datacenter\n\
    s1,t,k1,m1,d1\ns2,t,k2,m2,d1\ns3,u,k1,m1,d1\ns4,u,k2,m2,d1\n";

const TWO_VALUES: &[u8] =
    br#"{"format":1,"moves":{"take":1,"idle":5,"busy":50},"reservations":[{"name":"a","need":4,"values":{"t":4,"u":10}}]}"#;

fn region_of(alloc: Global, inventory: &[u8]) -> Result<Region, Fail> {
    if inventory.len() > 1000 {
        return Err(Fail::from("a short file"));
    }
    Ok(read_region(alloc, inventory).ok().ok_or("a region")?)
}

// A case in which nobody holds a server.
fn case_of(alloc: Global, inventory: &[u8], requests: &[u8]) -> Result<Case, Fail> {
    let region = region_of(alloc, inventory)?;
    if requests.len() > 1000 {
        return Err(Fail::from("a short file"));
    }
    let requests = read_requests(alloc, requests).ok().ok_or("requests")?;
    let bindings = read_bindings(alloc, &region, b"server,reservation,busy,up\n".as_slice())
        .ok()
        .ok_or("bindings")?;
    Ok(join(alloc, &region, &requests, &bindings)?)
}

// A pool of a case of four servers and one reservation, which each of them serves or not.
fn pool_over(alloc: Global, case: &Case, a: &Assignment) -> Result<Pool, Fail>
    ensures servers { IfOk result (λ pool. length pool.servers ≡ 4) }
    ensures wants { IfOk result (λ pool. length pool.case.wants ≡ 1) }
{
    if case.places.len() != 4 {
        return Err(Fail::from("four servers"));
    }
    if case.wants.len() != 1 {
        return Err(Fail::from("one reservation"));
    }
    if !fits(case, a) || first_not_served(case, a).is_some() {
        return Err(Fail::from("an assignment that serves"));
    }
    let pool = Pool::start(alloc, case, a)?;
    Ok(pool)
}

fn pool_of(
    alloc: Global,
    inventory: &[u8],
    requests: &[u8],
    of: [Option<u32>; 4],
) -> Result<Pool, Fail>
    ensures servers { IfOk result (λ pool. length pool.servers ≡ 4) }
    ensures wants { IfOk result (λ pool. length pool.case.wants ≡ 1) }
{
    let case = case_of(alloc, inventory, requests)?;
    let a = Assignment {
        of: List::from_vec(Vec::from_array(alloc, of)?),
    };
    pool_over(alloc, &case, &a)
}

// Whether the server of a change is one of so many.
fn is_within(change: Change, servers: u32) -> bool
    ensures { result ≡ change_within servers change }
{
    match change {
        Change::Fail(server) | Change::Repair(server) => server < servers,
    }
}

// Makes a change to one of four servers.
fn step(pool: &mut Pool, change: Change) -> Result<Outcome, Fail>
    requires servers { length pool.old.servers ≡ 4 }
    requires wants { length pool.old.case.wants ≡ 1 }
    ensures servers { length pool.new.servers ≡ 4 }
    ensures wants { length pool.new.case.wants ≡ 1 }
{
    if !is_within(change, 4) {
        return Err(Fail::from("a server of the pool"));
    }
    Ok(pool.change(change))
}

// What one change leads to, told at the end of a list.
fn tell(outcomes: &mut List<Outcome>, pool: &mut Pool, change: Change) -> Result<(), Fail>
    requires servers { length pool.old.servers ≡ 4 }
    requires wants { length pool.old.case.wants ≡ 1 }
    ensures servers { length pool.new.servers ≡ 4 }
    ensures wants { length pool.new.case.wants ≡ 1 }
{
    let outcome = step(pool, change)?;
    if outcomes.len() > 1000 {
        return Err(Fail::from("few outcomes"));
    }
    if outcomes.push(outcome).is_err() {
        return Err(Fail::from("memory"));
    }
    Ok(())
}

// What changes lead to, and the units of the reservation after them.
fn tell_all(outcomes: &mut List<Outcome>, pool: &mut Pool, changes: &[Change]) -> Result<u64, Fail>
    requires servers { length pool.old.servers ≡ 4 }
    requires wants { length pool.old.case.wants ≡ 1 }
{
    for change in changes {
        tell(outcomes, pool, *change)?;
    }
    Ok(pool.units(0))
}

// Whether changes lead to these outcomes and these units.
fn leads_to(
    alloc: Global,
    pool: &mut Pool,
    changes: &[Change],
    wanted: &[Outcome],
    units: u64,
) -> Result<bool, Fail>
    requires servers { length pool.old.servers ≡ 4 }
    requires wants { length pool.old.case.wants ≡ 1 }
{
    let mut outcomes = List::new(alloc, 0)?;
    let left = tell_all(&mut outcomes, pool, changes)?;
    Ok(left == units && outcomes.as_slice() == wanted)
}

#[test]
fn pool_of_one_type(rt: HostRuntime) -> Result<(), Fail> {
    let of = [None, Some(0), Some(0), Some(0)];
    let mut pool = pool_of(rt.alloc(), ONE_TYPE, ONE_VALUE, of)?;
    let changes = [
        Change::Fail(3),
        Change::Fail(1),
        Change::Fail(1),
        Change::Repair(3),
    ];
    let wanted = [
        Outcome::Replaced { r: 0, by: 0 },
        Outcome::Short {
            r: 0,
            by: None,
            missing: 5,
        },
        Outcome::Stale,
        Outcome::Returned,
    ];
    assert!(rt;
        leads_to(
            rt.alloc(),
            &mut pool,
            changes.as_slice(),
            wanted.as_slice(),
            10
        )?
    );
    Ok(())
}

#[test]
fn pool_of_two_types(rt: HostRuntime) -> Result<(), Fail> {
    let of = [Some(0), Some(0), None, None];
    let mut pool = pool_of(rt.alloc(), TWO_TYPES, TWO_VALUES, of)?;
    let changes = [
        Change::Fail(0),
        Change::Fail(2),
        Change::Repair(0),
        Change::Fail(3),
    ];
    let wanted = [
        Outcome::Replaced { r: 0, by: 2 },
        Outcome::Replaced { r: 0, by: 3 },
        Outcome::Returned,
        Outcome::Short {
            r: 0,
            by: Some(0),
            missing: 6,
        },
    ];
    assert!(rt;
        leads_to(
            rt.alloc(),
            &mut pool,
            changes.as_slice(),
            wanted.as_slice(),
            8
        )?
    );
    Ok(())
}

#[test]
fn each_word_of_a_failure(rt: HostRuntime) -> Result<(), Fail> {
    let region = region_of(rt.alloc(), ONE_TYPE)?;
    let file = b"at,event,server\r\n0,fail,s4\r\n9007199254740992,repair,s1\r\n";
    let failures = read_failures(rt.alloc(), &region, file)
        .ok()
        .ok_or("failures")?;
    let wanted = [
        Failure {
            at: 0,
            change: Change::Fail(3),
        },
        Failure {
            at: 9_007_199_254_740_992,
            change: Change::Repair(0),
        },
    ];
    assert!(rt; failures.as_slice() == wanted.as_slice());
    Ok(())
}

#[test]
fn first_faults(rt: HostRuntime) -> Result<(), Fail> {
    let region = region_of(rt.alloc(), ONE_TYPE)?;
    for (file, told) in [
        ("", "line 1: head"),
        ("at,event\n", "line 1: head"),
        ("at,event,server\n0,fail\n", "line 2: columns 2"),
        ("at,event,server\n0,fail,s1\nx,fly,s9\n", "line 3: column 1"),
        ("at,event,server\n0,fail,\n", "line 2: column 3"),
        ("at,event,server\n0,down,s9\n", "line 2: word"),
        ("at,event,server\n5,fail,s1\n4,fail,s9\n", "line 3: unknown"),
        ("at,event,server\n5,fail,s1\n4,repair,s1\n", "line 3: order"),
    ] {
        if file.len() > 100 {
            return Err(Fail::from("a short file"));
        }
        let fault = read_failures(rt.alloc(), &region, file.as_bytes())
            .err()
            .ok_or("a fault")?;
        let shown = format!(in rt.alloc(); "{fault}")?;
        assert_eq!(rt; shown.as_str(), told);
    }
    Ok(())
}
