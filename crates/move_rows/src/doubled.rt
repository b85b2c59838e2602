//! Ten thousand events over the region of 240 servers, each of them twice, and after each the protections against sums from scratch.
ghost use Rattle.std.specs.Prelude.{◌≡◌, ◌<◌, IfOk, length};

use crate::machine::{case_of, mover_of, step};
use online_mover::{Commands, Event, Mover, Stand, Taken};
use plan_model::{Assignment, Case, Holder, fits, keeps_need};
use ras_table::List;
use std::alloc::{AllocError, Global};
use std::test::Fail;

const REQUESTS: &str = concat!(
    r#"{"format":1,"moves":{"take":1,"idle":5,"busy":50},"reservations":["#,
    r#"{"name":"web","need":550,"values":{"compute":10}},"#,
    r#"{"name":"store","need":396,"values":{"storage":12},"rack_limit":24,"rack_weight":1},"#,
    r#"{"name":"db","need":440,"values":{"flash":20}},"#,
    r#"{"name":"ads","need":80,"values":{"compute":8},"spread_limit":8,"spread_weight":1},"#,
    r#"{"name":"batch","need":50,"values":{"compute":5,"storage":3}},"#,
    r#"{"name":"cache","need":150,"values":{"flash":15,"compute":4}}]}"#,
);

// The type of the servers of a rack, by its number on its switchboard.
fn type_of(rack: u32) -> &'static str {
    match rack {
        0 | 1 => "compute",
        2 => "storage",
        _ => "flash",
    }
}

// Who holds a server, by the number of its rack and its number there.
fn holder_of(rack: u32, place: u32) -> &'static str {
    match rack {
        0 => "web",
        2 if place < 3 => "store",
        3 if place < 2 => "db",
        _ => "",
    }
}

// Twelve switchboards of four racks of five servers: a line for each server, of the inventory or of the bindings. Of the held servers the
// first of each rack is busy.
fn tables(alloc: Global) -> Result<(String, String), AllocError> {
    let mut inventory = String::from_str(alloc, "server,type,rack,switchboard,datacenter\n")?;
    let mut bindings = String::from_str(alloc, "server,reservation,busy,up\n")?;
    for number in 0..240u32 {
        let (board, rack, place) = (number / 20, number / 5 % 4, number % 5);
        let center = if board < 6 { "east" } else { "west" };
        let kind = type_of(rack);
        let name = format!(in alloc; "h{board}q{rack}n{place}")?;
        let line = format!(in alloc; "{name},{kind},r{board}q{rack},m{board},{center}\n")?;
        inventory.push_str(line.as_str())?;
        let holder = holder_of(rack, place);
        let busy = u32::from(place == 0 && !holder.is_empty());
        let line = format!(in alloc; "{name},{holder},{busy},1\n")?;
        bindings.push_str(line.as_str())?;
    }
    Ok((inventory, bindings))
}

// Where a server is to go, by the number of its rack and its number there.
fn target_of(rack: u32, place: u32) -> Option<u32> {
    match (rack, place) {
        (0 | 1, 0 | 1) => Some(0),
        (0 | 1, 2) => Some(3),
        (0 | 1, 3) => Some(5),
        (2, 0 | 1) => Some(1),
        (2, 2 | 3) => Some(4),
        (3, 0 | 1) => Some(5),
        (3, 2 | 3) => Some(2),
        _ => None,
    }
}

fn target(alloc: Global) -> Result<Assignment, AllocError> {
    let mut of = List::new(alloc, 240)?;
    for number in 0..240u32 {
        if of.push(target_of(number / 5 % 4, number % 5)).is_err() {
            return Err(AllocError);
        }
    }
    Ok(Assignment { of })
}

// The next event: mostly what a server that is in flight answers.
fn event_of(stand: Stand, server: u32, draw: u32) -> Event {
    match stand {
        Stand::Draining(_) if draw % 7 == 0 => Event::Refused(server),
        Stand::Draining(_) => Event::Drained(server),
        Stand::Joining(_) if draw % 5 == 0 => Event::JoinFailed(server),
        Stand::Joining(_) => Event::Joined(server),
        Stand::Free | Stand::Bound(_) if draw % 11 == 0 => Event::Down(server),
        Stand::Free | Stand::Bound(_) if draw % 3 == 0 => Event::Up(server),
        Stand::Free | Stand::Bound(_) => Event::Tick,
    }
}

// What each server counts for.
fn counted(alloc: Global, case: &Case, mover: &Mover) -> Result<Assignment, AllocError>
    requires { length mover.now.servers ≡ length case.now.places }
{
    let mut of = Vec::new(alloc);
    for server in 0..case.places.len() {
        of.push(match mover.stand(server) {
            Stand::Bound(Holder::Held(r)) if mover.is_up(server) => Some(r),
            _ => None,
        })?;
    }
    Ok(Assignment {
        of: List::from_vec(of),
    })
}

// Whether what the mover calls protected is what the sums over what each server counts for say.
fn agrees(alloc: Global, case: &Case, mover: &Mover) -> Result<bool, Fail>
    requires servers { length mover.now.servers ≡ length case.now.places }
    requires wants { length mover.now.case.wants ≡ length case.now.wants }
{
    let counted = counted(alloc, case, mover)?;
    if !fits(case, &counted) {
        return Err(Fail::from("servers of the case"));
    }
    for r in 0..case.wants.len() {
        if mover.protected(r) != keeps_need(case, &counted, r) {
            return Ok(false);
        }
    }
    Ok(true)
}

// An event twice: the second time it is stale, but for a tick.
fn step_twice(
    alloc: Global,
    case: &Case,
    mover: &mut Mover,
    event: Event,
    out: &mut Commands,
) -> Result<u64, Fail>
    requires servers { length mover.old.servers ≡ length case.now.places }
    requires wants { length mover.old.case.wants ≡ length case.now.wants }
    ensures servers { length mover.new.servers ≡ length case.now.places }
    ensures wants { length mover.new.case.wants ≡ length case.now.wants }
{
    let _ = step(case, mover, event, out)?;
    let commands = u64::from(out.len());
    let once = agrees(alloc, case, mover)?;
    let again = step(case, mover, event, out)?;
    let twice = agrees(alloc, case, mover)?;
    let is_tick = event == Event::Tick;
    if out.len() > 0 || (again == Taken::Taken) != is_tick || !once || !twice {
        return Err(Fail::from("a second time that changes nothing"));
    }
    Ok(commands)
}

// How many commands came over so many events, each of them twice.
fn commands_over(alloc: Global, case: &Case, mut mover: Mover, events: u32) -> Result<u64, Fail>
    requires servers { length mover.servers ≡ length case.now.places }
    requires wants { length mover.case.wants ≡ length case.now.wants }
{
    let servers = case.places.len();
    if servers == 0 {
        return Err(Fail::from("servers"));
    }
    let mut out = Commands::new(alloc)?;
    let mut draw = 7u32;
    let mut commands = 0u64;
    for _ in 0..events {
        draw = (draw % 65_537 * 75 + 74) % 65_537;
        let server = draw % servers;
        let event = event_of(mover.stand(server), server, draw / servers);
        let more = step_twice(alloc, case, &mut mover, event, &mut out)?;
        commands = commands.saturating_add(more);
    }
    Ok(commands)
}

#[test]
fn doubled_events(rt: HostRuntime) -> Result<(), Fail> {
    let (inventory, bindings) = tables(rt.alloc())?;
    let case = case_of(rt.alloc(), inventory.as_str(), REQUESTS, bindings.as_str())?;
    let target = target(rt.alloc())?;
    let mover = mover_of(rt.alloc(), &case, &target, 8)?;
    let commands = commands_over(rt.alloc(), &case, mover, 10_000)?;
    assert!(rt; commands > 100, "{commands}");
    Ok(())
}
