ghost use Rattle.std.specs.Prelude.{◌≡◌, ◌≤◌, ◌<◌, ◌*◌, ◌^◌, IfOk, map, length, true};
ghost use Rattle.std.specs.List.{list_all};
ghost use Rattle.online_mover.specs.Events.{event_within};
ghost use Rattle.ras_table.specs.Answers.{Gives};
ghost use Rattle.ras_inventory.specs.RegionRule.{server_names};
ghost use Rattle.online_mover.specs.EventRows.{heads, kinds};
ghost use Rattle.online_mover.specs.EventFiles.{timed_at, events_in, events_of, told};

use crate::fault::{EventsFault, EventsWhy};
use crate::timed::{Timed, timed_of};
use ras_inventory::Region;
use ras_table::{Kind, List, Record, RowFault, Schema, read_head, read_records, read_row};
use std::alloc::Global;

// The columns of a file of events. A time is at most 2^53.
fn events_schema() -> Schema<3>
    ensures heads { map (λ h. h.now) result.heads.now ≡ heads }
    ensures kinds { result.kinds ≡ kinds }
{
    Schema {
        heads: &["at", "event", "server"],
        kinds: [
            Kind::Whole(9_007_199_254_740_992),
            Kind::Name,
            Kind::NameOrNone,
        ],
    }
}

// The event of a record, or the record's first fault.
fn timed_at(
    alloc: Global,
    region: &Region,
    number: u32,
    before: &[Timed],
    fields: &Record,
) -> Result<Timed, EventsFault>
    ensures { Gives (λ timed. timed) told result (timed_at (server_names region.now.servers) number before.now fields.now) }
{
    let row = match read_row(alloc, &events_schema(), fields) {
        Ok(row) => row,
        Err(RowFault::Memory) => return Err(EventsFault::Memory),
        Err(fault) => {
            return Err(EventsFault::At {
                line: number,
                why: EventsWhy::Row(fault),
            });
        }
    };
    match timed_of(region, before, &row) {
        Ok(timed) => Ok(timed),
        Err(why) => Err(EventsFault::At { line: number, why }),
    }
}

// The events of records, or their first fault.
fn events_in(alloc: Global, region: &Region, records: &[Record]) -> Result<List<Timed>, EventsFault>
    requires { length records.now < 2 ^ 32 }
    ensures { Gives (λ events. events) told result (events_in (server_names region.now.servers) records.now) }
{
    if records.is_empty() || !read_head(&events_schema(), &records[0]) {
        return Err(EventsFault::At {
            line: 1,
            why: EventsWhy::Head,
        });
    }
    let Ok(mut events) = List::new(alloc, 0) else {
        return Err(EventsFault::Memory);
    };
    for i in 1..records.len() {
        let timed = timed_at(alloc, region, i as u32 + 1, events.as_slice(), &records[i])?;
        if events.push(timed).is_err() {
            return Err(EventsFault::Memory);
        }
    }
    Ok(events)
}

/// The events of a file, or its first fault: the number of its line, from 1, and why it is refused.
pub fn read_events(alloc: Global, region: &Region, bytes: &[u8]) -> Result<List<Timed>, EventsFault>
    requires { length bytes.now ≤ 64 * 2 ^ 20 }
    ensures events { Gives (λ events. events) told result (events_of (server_names region.now.servers) bytes.now) }
    ensures there { IfOk result (λ events. list_all (λ timed. event_within (length region.now.servers) timed.event) events ≡ true) }
{
    let Ok(records) = read_records(alloc, bytes) else {
        return Err(EventsFault::Memory);
    };
    events_in(alloc, region, records.as_slice())
}
