//! A mover that is taken through events, with what each of them does.
ghost use Rattle.std.specs.Prelude.{◌≡◌, ◌≤◌, IfOk, length};
ghost use Rattle.online_mover.specs.Events.{event_within};

use online_mover::{Cause, Command, Commands, Event, Mover, Taken};
use plan_model::{Assignment, Case, first_not_served, fits, join};
use ras_inventory::{read_bindings, read_region};
use ras_requests::read_requests;
use std::alloc::{AllocError, Global};
use std::test::Fail;

// More bytes than a test puts in one file.
const LONGEST: usize = 10_000_000;

/// The case of an inventory, requests and bindings.
pub(crate) fn case_of(
    alloc: Global,
    inventory: &str,
    requests: &str,
    bindings: &str,
) -> Result<Case, Fail> {
    if inventory.len() > LONGEST || requests.len() > LONGEST || bindings.len() > LONGEST {
        return Err(Fail::from("short files"));
    }
    let region = read_region(alloc, inventory.as_bytes())
        .ok()
        .ok_or("a region")?;
    let requests = read_requests(alloc, requests.as_bytes())
        .ok()
        .ok_or("requests")?;
    let bindings = read_bindings(alloc, &region, bindings.as_bytes())
        .ok()
        .ok_or("bindings")?;
    Ok(join(alloc, &region, &requests, &bindings)?)
}

/// A mover of the servers of a case to a target.
pub(crate) fn mover_of(
    alloc: Global,
    case: &Case,
    target: &Assignment,
    at_once: u32,
) -> Result<Mover, Fail>
    requires some { 1 ≤ at_once }
    requires few { at_once ≤ 64 }
    ensures servers { IfOk result (λ mover. length mover.servers ≡ length case.now.places) }
    ensures wants { IfOk result (λ mover. length mover.case.wants ≡ length case.now.wants) }
{
    if !fits(case, target) || first_not_served(case, target).is_some() {
        return Err(Fail::from("a target"));
    }
    Ok(Mover::start(alloc, case, target, at_once)?)
}

// Whether the server of an event is one of so many.
fn is_within(event: Event, servers: u32) -> bool
    ensures { result ≡ event_within servers event }
{
    match event {
        Event::Tick => true,
        Event::Drained(server)
        | Event::Refused(server)
        | Event::Joined(server)
        | Event::JoinFailed(server)
        | Event::Down(server)
        | Event::Up(server) => server < servers,
    }
}

/// Takes an event, where the case has its server.
pub(crate) fn step(
    case: &Case,
    mover: &mut Mover,
    event: Event,
    out: &mut Commands,
) -> Result<Taken, Fail>
    requires servers { length mover.old.servers ≡ length case.now.places }
    requires wants { length mover.old.case.wants ≡ length case.now.wants }
    ensures servers { length mover.new.servers ≡ length case.now.places }
    ensures wants { length mover.new.case.wants ≡ length case.now.wants }
{
    if !is_within(event, case.places.len()) {
        return Err(Fail::from("an event of a server"));
    }
    Ok(mover.step(event, out))
}

// The commands, one after another.
fn commands_text(alloc: Global, commands: &Commands) -> Result<String, AllocError> {
    let mut text = String::new(alloc);
    for i in 0..commands.len() {
        let command = match commands.get(i) {
            Some(Command::Drain { server }) => format!(in alloc; "drain {server} ")?,
            Some(Command::Bind { server, to }) => format!(in alloc; "bind {server} {to} ")?,
            None => String::new(alloc),
        };
        text.push_str(command.as_str())?;
    }
    Ok(text)
}

// The cause at each server: a point where there is none.
fn causes_text(alloc: Global, case: &Case, mover: &Mover) -> Result<String, AllocError>
    requires { length mover.now.servers ≡ length case.now.places }
{
    let mut text = String::new(alloc);
    for server in 0..case.places.len() {
        match mover.blocked(server) {
            None => text.push_str(".")?,
            Some(Cause::Down) => text.push_str("down ")?,
            Some(Cause::Waiting) => text.push_str("waiting ")?,
            Some(Cause::Full) => text.push_str("full ")?,
            Some(Cause::Unsafe(r)) => text.push_str(format!(in alloc; "unsafe {r} ")?.as_str())?,
            Some(Cause::Ready) => text.push_str("ready ")?,
        }
    }
    Ok(text)
}

// Whether each reservation is protected.
fn protected_text(alloc: Global, case: &Case, mover: &Mover) -> Result<String, AllocError>
    requires { length mover.now.case.wants ≡ length case.now.wants }
{
    let mut text = String::new(alloc);
    for r in 0..case.wants.len() {
        text.push_str(if mover.protected(r) { "+" } else { "-" })?;
    }
    Ok(text)
}

// What one event did: its commands or that it was stale, then the cause at each server, then whether each reservation is
// protected.
fn line_of(
    alloc: Global,
    case: &Case,
    mover: &Mover,
    taken: Taken,
    commands: &Commands,
) -> Result<String, AllocError>
    requires servers { length mover.now.servers ≡ length case.now.places }
    requires wants { length mover.now.case.wants ≡ length case.now.wants }
{
    let stale = match taken {
        Taken::Taken => "",
        Taken::Stale => "stale ",
    };
    let commands = commands_text(alloc, commands)?;
    let causes = causes_text(alloc, case, mover)?;
    let protected = protected_text(alloc, case, mover)?;
    format!(in alloc; "{stale}{commands}| {causes}| {protected}\n")
}

/// What each of these events did.
pub(crate) fn lines(
    alloc: Global,
    case: &Case,
    mut mover: Mover,
    events: &[Event],
) -> Result<String, Fail>
    requires servers { length mover.servers ≡ length case.now.places }
    requires wants { length mover.case.wants ≡ length case.now.wants }
{
    let mut text = String::new(alloc);
    let mut out = Commands::new(alloc)?;
    for event in events {
        let taken = step(case, &mut mover, *event, &mut out)?;
        let line = line_of(alloc, case, &mover, taken, &out)?;
        text.push_str(line.as_str())?;
    }
    Ok(text)
}
