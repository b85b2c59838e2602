ghost use Rattle.std.specs.Prelude.{◌≡◌, ◌++◌, OnOk, decimal};
ghost use Rattle.ras_inventory.specs.RegionRule.{server_names};
ghost use Rattle.ras_requests.specs.RequestsRule.{reservation_names};
ghost use Rattle.spare_text.specs.Lines.{ended, begun, outcome_line, total_line};

use crate::words::{reservation_name, server_name, spare_name};
use itoa::Buffer;
use ras_inventory::Region;
use ras_requests::Requests;
use spare_pool::Outcome;
use std::alloc::AllocError;

// A field, and the byte that ends it.
fn put_field(text: &mut Vec<u8>, field: &[u8], end: u8) -> Result<(), AllocError>
    ensures { OnOk result (text.new.items ≡ text.old.items ++ ended field.now end) }
{
    text.extend_from_slice(field)?;
    text.push(end)?;
    Ok(())
}

// Three fields between commas, and the byte that ends them.
fn put_three(
    text: &mut Vec<u8>,
    first: &[u8],
    second: &[u8],
    third: &[u8],
    end: u8,
) -> Result<(), AllocError>
    ensures { OnOk result (text.new.items ≡ text.old.items ++ begun first.now second.now third.now end) }
{
    put_field(text, first, b',')?;
    put_field(text, second, b',')?;
    put_field(text, third, end)
}

/// The line of what a change to a server led to, at a time.
pub(crate) fn put_outcome(
    text: &mut Vec<u8>,
    region: &Region,
    requests: &Requests,
    at: &[u8],
    server: &[u8],
    outcome: Outcome,
) -> Result<(), AllocError>
    ensures { OnOk result (text.new.items ≡ text.old.items
        ++ outcome_line (server_names region.now.servers) (reservation_names requests.now.list) at.now server.now outcome) }
{
    match outcome {
        Outcome::Replaced { r, by } => {
            put_three(text, at, b"replace", server, b',')?;
            put_field(text, reservation_name(requests, r), b',')?;
            put_field(text, server_name(region, by), b'\n')
        }
        Outcome::Short { r, by, missing } => {
            let mut buffer = Buffer::new();
            let rest = buffer.format(missing).as_bytes();
            let reservation = reservation_name(requests, r);
            put_three(text, at, b"short", server, b',')?;
            put_three(text, reservation, spare_name(region, by), rest, b'\n')
        }
        Outcome::Idle => put_three(text, at, b"idle", server, b'\n'),
        Outcome::Returned => put_three(text, at, b"return", server, b'\n'),
        Outcome::Stale => put_three(text, at, b"stale", server, b'\n'),
    }
}

/// The line of the totals.
pub(crate) fn put_total(text: &mut Vec<u8>, records: u64, shorts: u64) -> Result<(), AllocError>
    ensures { OnOk result (text.new.items ≡ text.old.items ++ total_line records shorts) }
{
    let mut all = Buffer::new();
    let mut some = Buffer::new();
    put_three(text, b"end", b"total", all.format(records).as_bytes(), b',')?;
    put_field(text, some.format(shorts).as_bytes(), b'\n')
}
