//! A table that is carried over rounds of a mover.
ghost use Rattle.std.specs.Prelude.{◌≡◌, IfOk, OnOk, length};
ghost use Rattle.online_mover.specs.Events.{event_within};
ghost use Rattle.ras_rounds.specs.Rounds.{region_classes};

use crate::Table;
use online_mover::{Commands, Event, Mover};
use plan_model::{Assignment, Case, Holder, first_not_served, fits, join};
use ras_inventory::{read_bindings, read_region};
use ras_requests::read_requests;
use ras_table::List;
use std::alloc::{AllocError, Global};
use std::test::Fail;
use symmetry_classes::Classes;

// Three servers, each on a switchboard of its own.
const APART: &str = concat!(
    "server,type,rack,switchboard,datacenter\n",
    "s1,t,k1,m1,d1\ns2,t,k2,m2,d1\ns3,t,k3,m3,d1\n",
);

// Two servers on each of two switchboards.
const IN_PAIRS: &str = concat!(
    "server,type,rack,switchboard,datacenter\n",
    "s1,t,k1,m1,d1\ns2,t,k2,m1,d1\ns3,t,k3,m2,d1\ns4,t,k4,m2,d1\n",
);

const NEEDS_ONE: &str =
    r#"{"format":1,"moves":{"take":2,"idle":5,"busy":50},"reservations":[{"name":"a","need":1,"values":{"t":1}}]}"#;

const NEEDS_NONE: &str =
    r#"{"format":1,"moves":{"take":2,"idle":5,"busy":50},"reservations":[{"name":"a","need":0,"values":{"t":1}}]}"#;

const ALL_FREE: &str = "server,reservation,busy,up\n";

// The case of an inventory, requests and bindings.
fn case_of(alloc: Global, inventory: &str, requests: &str, bindings: &str) -> Result<Case, Fail> {
    if inventory.len() > 1000 || requests.len() > 1000 || bindings.len() > 1000 {
        return Err(Fail::from("short files"));
    }
    let region = read_region(alloc, inventory.as_bytes())
        .ok()
        .ok_or("a region")?;
    let requests = read_requests(alloc, requests.as_bytes())
        .ok()
        .ok_or("requests")?;
    let bindings = read_bindings(alloc, &region, bindings.as_bytes())
        .ok()
        .ok_or("bindings")?;
    Ok(join(alloc, &region, &requests, &bindings)?)
}

// A mover of the servers of a case to a target, with as many in flight as may be.
fn mover_of(alloc: Global, case: &Case, target: &Assignment) -> Result<Mover, Fail>
    ensures servers { IfOk result (λ mover. length mover.servers ≡ length case.now.places) }
    ensures wants { IfOk result (λ mover. length mover.case.wants ≡ length case.now.wants) }
{
    if !fits(case, target) || first_not_served(case, target).is_some() {
        return Err(Fail::from("a target"));
    }
    Ok(Mover::start(alloc, case, target, 64)?)
}

// Whether the server of an event is one of so many.
fn is_within(event: Event, servers: u32) -> bool
    ensures { result ≡ event_within servers event }
{
    match event {
        Event::Tick => true,
        Event::Drained(server)
        | Event::Refused(server)
        | Event::Joined(server)
        | Event::JoinFailed(server)
        | Event::Down(server)
        | Event::Up(server) => server < servers,
    }
}

// Takes an event, where the case has its server.
fn step(case: &Case, mover: &mut Mover, event: Event, out: &mut Commands) -> Result<(), Fail>
    requires servers { length mover.old.servers ≡ length case.now.places }
    requires wants { length mover.old.case.wants ≡ length case.now.wants }
    ensures servers { length mover.new.servers ≡ length case.now.places }
    ensures wants { length mover.new.case.wants ≡ length case.now.wants }
{
    if !is_within(event, case.places.len()) {
        return Err(Fail::from("an event of a server"));
    }
    mover.step(event, out);
    Ok(())
}

// Carries case and table over a round to this target, in which these events come.
fn carried(
    alloc: Global,
    case: &mut Case,
    table: &mut Table,
    target: &[Option<u32>],
    events: &[Event],
) -> Result<(), Fail>
    requires { table.old ≡ region_classes case.old }
    ensures { OnOk result (table.new ≡ region_classes case.new) }
{
    if target.len() > 100 {
        return Err(Fail::from("few servers"));
    }
    let target = Assignment {
        of: List::from_vec(Vec::from_slice(alloc, target)?),
    };
    let mut mover = mover_of(alloc, case, &target)?;
    let mut out = Commands::new(alloc)?;
    for event in events {
        step(case, &mut mover, *event, &mut out)?;
    }
    Ok(table.carry(alloc, case, &mover)?)
}

// The classes, each with its switchboard, its holder, whether it is busy, and its servers.
fn classes_text(alloc: Global, classes: &Classes) -> Result<String, AllocError> {
    let mut text = String::new(alloc);
    for class in classes.list.as_slice() {
        let holder = match class.holder {
            Holder::Free => format!(in alloc; "free")?,
            Holder::Held(r) => format!(in alloc; "held {r}")?,
            Holder::Gone => format!(in alloc; "gone")?,
        };
        let busy = if class.busy { "busy" } else { "idle" };
        let board = class.board;
        text.push_str(format!(in alloc; "{board} {holder} {busy}:")?.as_str())?;
        for server in class.members.as_slice() {
            text.push_str(format!(in alloc; " {server}")?.as_str())?;
        }
        text.push_str("\n")?;
    }
    Ok(text)
}

// The classes of a table that is carried to a case: a new table has the same.
fn told(alloc: Global, case: &Case, table: &Table) -> Result<String, Fail> {
    let text = classes_text(alloc, table.classes())?;
    let fresh = Table::new(alloc, case)?;
    if classes_text(alloc, fresh.classes())?.as_str() != text.as_str() {
        return Err(Fail::from("the classes of a new table"));
    }
    Ok(text)
}

#[test]
fn servers_that_joined_are_held(rt: HostRuntime) -> Result<(), Fail> {
    let mut case = case_of(rt.alloc(), APART, NEEDS_ONE, ALL_FREE)?;
    let mut table = Table::new(rt.alloc(), &case)?;
    let both = [Some(0), Some(0), None];
    let joined = [Event::Tick, Event::Joined(0), Event::Joined(1)];
    carried(rt.alloc(), &mut case, &mut table, &both, &joined)?;
    let after = "0 held 0 idle: 0\n1 held 0 idle: 1\n2 free idle: 2\n";
    let found = told(rt.alloc(), &case, &table)?;
    assert_eq!(rt; found.as_str(), after);
    carried(rt.alloc(), &mut case, &mut table, &both, &[Event::Tick])?;
    let found = told(rt.alloc(), &case, &table)?;
    assert_eq!(rt; found.as_str(), after);
    Ok(())
}

#[test]
fn server_that_failed_is_in_no_class(rt: HostRuntime) -> Result<(), Fail> {
    let mut case = case_of(rt.alloc(), APART, NEEDS_ONE, ALL_FREE)?;
    let mut table = Table::new(rt.alloc(), &case)?;
    let both = [Some(0), Some(0), None];
    let events = [
        Event::Tick,
        Event::Joined(0),
        Event::Joined(1),
        Event::Down(0),
    ];
    carried(rt.alloc(), &mut case, &mut table, &both, &events)?;
    let found = told(rt.alloc(), &case, &table)?;
    assert_eq!(rt; found.as_str(), "1 held 0 idle: 1\n2 free idle: 2\n");
    Ok(())
}

#[test]
fn what_is_not_done_is_as_before(rt: HostRuntime) -> Result<(), Fail> {
    let mut case = case_of(
        rt.alloc(),
        APART,
        NEEDS_NONE,
        "server,reservation,busy,up\ns1,a,1,1\n",
    )?;
    let mut table = Table::new(rt.alloc(), &case)?;
    let second = [None, Some(0), None];
    carried(rt.alloc(), &mut case, &mut table, &second, &[Event::Tick])?;
    let found = told(rt.alloc(), &case, &table)?;
    assert_eq!(rt;
        found.as_str(),
        "0 held 0 busy: 0\n1 free idle: 1\n2 free idle: 2\n"
    );
    let done = [Event::Tick, Event::Drained(0), Event::Joined(1)];
    carried(rt.alloc(), &mut case, &mut table, &second, &done)?;
    let found = told(rt.alloc(), &case, &table)?;
    assert_eq!(rt;
        found.as_str(),
        "0 free idle: 0\n1 held 0 idle: 1\n2 free idle: 2\n"
    );
    Ok(())
}

#[test]
fn classes_part_and_join(rt: HostRuntime) -> Result<(), Fail> {
    let mut case = case_of(rt.alloc(), IN_PAIRS, NEEDS_NONE, ALL_FREE)?;
    let mut table = Table::new(rt.alloc(), &case)?;
    let second = [None, Some(0), None, None];
    let joined = [Event::Tick, Event::Joined(1)];
    carried(rt.alloc(), &mut case, &mut table, &second, &joined)?;
    let found = told(rt.alloc(), &case, &table)?;
    assert_eq!(rt;
        found.as_str(),
        "0 free idle: 0\n0 held 0 idle: 1\n1 free idle: 2 3\n"
    );
    let nowhere = [None, None, None, None];
    let drained = [Event::Tick, Event::Drained(1)];
    carried(rt.alloc(), &mut case, &mut table, &nowhere, &drained)?;
    let found = told(rt.alloc(), &case, &table)?;
    assert_eq!(rt; found.as_str(), "0 free idle: 0 1\n1 free idle: 2 3\n");
    Ok(())
}
