ghost use Rattle.std.specs.Prelude.{◌≡◌, ◌++◌, ◌<◌, ◌≤◌, IfOk, IsTrue, OnOk, length, true, nat_lt, if◌then◌else◌};
ghost use Rattle.move_text.specs.Told.{is_stale};
ghost use Rattle.std.specs.List.{list_all};
ghost use Rattle.ras_inventory.specs.RegionRule.{server_names};
ghost use Rattle.ras_requests.specs.RequestsRule.{reservation_names};
ghost use Rattle.plan_model.specs.Allowed.{fits, serves};
ghost use Rattle.plan_model.specs.Units.{servers_with_places};
ghost use Rattle.online_mover.specs.Events.{event_within};
ghost use Rattle.online_mover.specs.States.{state_at_start};
ghost use Rattle.online_mover.specs.Changes.{commanded};
ghost use Rattle.move_text.specs.Texts.{step_text, TellsRun, IsMoveText, IsMoveTextTo};

use crate::lines::{put_commands, put_ends, put_stale, put_total};
use itoa::Buffer;
use online_mover::{Commands, Mover, Taken, Timed};
use plan_model::{Assignment, Case};
use ras_inventory::Region;
use ras_requests::Requests;
use ras_table::List;
use std::alloc::{AllocError, Global};

/// How many commands were given, and how many events were not lawful.
#[derive(Clone, Copy)]
struct Totals {
    commands: u64,
    stales: u64,
}

// The lines of one step.
fn put_step(
    text: &mut Vec<u8>,
    region: &Region,
    requests: &Requests,
    mover: &Mover,
    timed: Timed,
    taken: Taken,
    commands: &Commands,
) -> Result<(), AllocError>
    requires { list_all (λ command. nat_lt (commanded command) (length mover.now.servers)) commands.now ≡ true }
    ensures { OnOk result (text.new.items ≡ text.old.items
        ++ step_text (server_names region.now.servers) (reservation_names requests.now.list)
        (record { timed = timed; taken = taken; commands = commands.now; after = mover.now })) }
{
    match taken {
        Taken::Stale => put_stale(text, region, timed.at, timed.event),
        Taken::Taken => {
            let mut buffer = Buffer::new();
            let at = buffer.format(timed.at).as_bytes();
            put_commands(text, region, requests, mover, at, commands)
        }
    }
}

// 1 for an event that was not lawful, and 0 for another.
fn stale_count(taken: Taken) -> u64
    ensures { result ≡ (if is_stale taken then 1 else 0) }
{
    match taken {
        Taken::Stale => 1,
        Taken::Taken => 0,
    }
}

// The lines of the steps over the events.
fn put_steps(
    alloc: Global,
    text: &mut Vec<u8>,
    region: &Region,
    requests: &Requests,
    mover: &mut Mover,
    events: &List<Timed>,
) -> Result<Totals, AllocError>
    requires { list_all (λ timed. event_within (length mover.old.servers) timed.event) events.now ≡ true }
    ensures { IfOk result (λ totals. TellsRun (server_names region.now.servers) (reservation_names requests.now.list)
        mover.old events.now mover.new text.old.items text.new.items totals.commands totals.stales) }
{
    let mut out = Commands::new(alloc)?;
    let mut totals = Totals {
        commands: 0,
        stales: 0,
    };
    for timed in events.as_slice() {
        let taken = mover.step(timed.event, &mut out);
        put_step(text, region, requests, mover, *timed, taken, &out)?;
        totals.commands += u64::from(out.len());
        totals.stales += stale_count(taken);
    }
    Ok(totals)
}

/// The text of the run of a mover over events, from where its servers are now: a line for each command and each event that was
/// not lawful, then a line for each server at which a cause stands, in the order of the region, and last the totals. The mover
/// is then where the events brought it. After want of memory it is a mover still, and nothing is said of where its servers are.
pub fn run_text(
    alloc: Global,
    region: &Region,
    requests: &Requests,
    mover: &mut Mover,
    events: &List<Timed>,
) -> Result<Vec<u8>, AllocError>
    requires servers { length mover.old.servers ≡ length region.now.servers }
    requires there { list_all (λ timed. event_within (length region.now.servers) timed.event) events.now ≡ true }
    ensures { IfOk result (λ text.
        IsMoveTextTo (server_names region.now.servers) (reservation_names requests.now.list) mover.old events.now text.items mover.new) }
{
    let mut text = Vec::new(alloc);
    let totals = put_steps(alloc, &mut text, region, requests, mover, events)?;
    put_ends(&mut text, region, requests, mover)?;
    put_total(&mut text, totals.commands, totals.stales)?;
    Ok(text)
}

/// The text of the moves from where the servers of a case are to a target, over events, with at most `at_once` servers in
/// flight: that of the run of a mover that starts there.
pub fn move_text(
    alloc: Global,
    region: &Region,
    requests: &Requests,
    case: &Case,
    target: &Assignment,
    at_once: u32,
    events: &List<Timed>,
) -> Result<Vec<u8>, AllocError>
    requires servers { length case.now.places ≡ length region.now.servers }
    requires fitting { IsTrue (fits case.now target.now) }
    requires serving { IsTrue (list_all (serves case.now) (servers_with_places case.now target.now)) }
    requires some { 1 ≤ at_once }
    requires few { at_once ≤ 64 }
    requires there { list_all (λ timed. event_within (length region.now.servers) timed.event) events.now ≡ true }
    ensures { IfOk result (λ text.
        IsMoveText (server_names region.now.servers) (reservation_names requests.now.list) (state_at_start case.now target.now at_once) events.now text.items) }
{
    let mut mover = Mover::start(alloc, case, target, at_once)?;
    run_text(alloc, region, requests, &mut mover, events)
}
