ghost use Rattle.std.specs.Prelude.{◌≡◌, ◌++◌, ◌<◌, OnOk, length, decimal, flat_map, true, nat_lt};
ghost use Rattle.std.specs.List.{list_all, range_with_len};
ghost use Rattle.ras_inventory.specs.RegionRule.{server_names};
ghost use Rattle.ras_requests.specs.RequestsRule.{reservation_names};
ghost use Rattle.online_mover.specs.Changes.{commanded};
ghost use Rattle.online_mover.specs.Causes.{cause_of};
ghost use Rattle.move_text.specs.Lines.{ended, line_of, command_line, stale_line, end_line, total_line};
ghost use Rattle.move_text.specs.Texts.{ends_text};

use crate::words::{
    cause_reservation, cause_text, drained_text, event_server, event_text, reservation_name,
    server_name,
};
use itoa::Buffer;
use online_mover::{Command, Commands, Event, Mover};
use ras_inventory::Region;
use ras_requests::Requests;
use std::alloc::AllocError;

// A field, and the byte that ends it.
fn put_field(text: &mut Vec<u8>, field: &[u8], end: u8) -> Result<(), AllocError>
    ensures { OnOk result (text.new.items ≡ text.old.items ++ ended field.now end) }
{
    text.extend_from_slice(field)?;
    text.push(end)?;
    Ok(())
}

// Four fields between commas, and a line feed.
fn put_line(
    text: &mut Vec<u8>,
    first: &[u8],
    second: &[u8],
    third: &[u8],
    fourth: &[u8],
) -> Result<(), AllocError>
    ensures { OnOk result (text.new.items ≡ text.old.items ++ line_of first.now second.now third.now fourth.now) }
{
    put_field(text, first, b',')?;
    put_field(text, second, b',')?;
    put_field(text, third, b',')?;
    put_field(text, fourth, b'\n')
}

// The line of a command that was given.
fn put_command(
    text: &mut Vec<u8>,
    region: &Region,
    requests: &Requests,
    mover: &Mover,
    at: &[u8],
    command: Command,
) -> Result<(), AllocError>
    requires { commanded command < length mover.now.servers }
    ensures { OnOk result (text.new.items ≡ text.old.items
        ++ command_line (server_names region.now.servers) (reservation_names requests.now.list) mover.now at.now command) }
{
    match command {
        Command::Drain { server } => {
            let holder = drained_text(requests, mover.stand(server));
            put_line(text, at, b"drain", server_name(region, server), holder)
        }
        Command::Bind { server, to } => {
            let reservation = reservation_name(requests, to);
            put_line(text, at, b"bind", server_name(region, server), reservation)
        }
    }
}

/// The lines of the commands of a step, which was at this time.
pub(crate) fn put_commands(
    text: &mut Vec<u8>,
    region: &Region,
    requests: &Requests,
    mover: &Mover,
    at: &[u8],
    commands: &Commands,
) -> Result<(), AllocError>
    requires { list_all (λ command. nat_lt (commanded command) (length mover.now.servers)) commands.now ≡ true }
    ensures { OnOk result (text.new.items ≡ text.old.items
        ++ flat_map (command_line (server_names region.now.servers) (reservation_names requests.now.list) mover.now at.now) commands.now) }
{
    for i in 0..commands.len() {
        if let Some(command) = commands.get(i) {
            put_command(text, region, requests, mover, at, command)?;
        }
    }
    Ok(())
}

/// The line of an event that was not lawful.
pub(crate) fn put_stale(
    text: &mut Vec<u8>,
    region: &Region,
    at: u64,
    event: Event,
) -> Result<(), AllocError>
    ensures { OnOk result (text.new.items ≡ text.old.items ++ stale_line (server_names region.now.servers) (decimal at) event) }
{
    let mut buffer = Buffer::new();
    let time = buffer.format(at).as_bytes();
    put_line(
        text,
        time,
        b"stale",
        event_server(region, event),
        event_text(event),
    )
}

// The line of the cause at a server, where there is one.
fn put_end(
    text: &mut Vec<u8>,
    region: &Region,
    requests: &Requests,
    mover: &Mover,
    server: u32,
) -> Result<(), AllocError>
    requires { server < length mover.now.servers }
    ensures { OnOk result (text.new.items ≡ text.old.items
        ++ end_line (server_names region.now.servers) (reservation_names requests.now.list) server (cause_of mover.now server)) }
{
    match mover.blocked(server) {
        Some(cause) => {
            let reservation = cause_reservation(requests, cause);
            put_line(
                text,
                b"end",
                cause_text(cause),
                server_name(region, server),
                reservation,
            )
        }
        None => Ok(()),
    }
}

/// The lines of the causes that stand.
pub(crate) fn put_ends(
    text: &mut Vec<u8>,
    region: &Region,
    requests: &Requests,
    mover: &Mover,
) -> Result<(), AllocError>
    requires { length region.now.servers ≡ length mover.now.servers }
    ensures { OnOk result (text.new.items ≡ text.old.items
        ++ ends_text (server_names region.now.servers) (reservation_names requests.now.list) mover.now) }
{
    for server in 0..region.servers.len() {
        put_end(text, region, requests, mover, server)?;
    }
    Ok(())
}

/// The line of the totals.
pub(crate) fn put_total(text: &mut Vec<u8>, commands: u64, stales: u64) -> Result<(), AllocError>
    ensures { OnOk result (text.new.items ≡ text.old.items ++ total_line commands stales) }
{
    let mut given = Buffer::new();
    let mut refused = Buffer::new();
    put_line(
        text,
        b"end",
        b"total",
        given.format(commands).as_bytes(),
        refused.format(stales).as_bytes(),
    )
}
