ghost use Rattle.std.specs.Prelude.{◌≡◌, ◌≤◌, ◌<◌, ◌*◌, ◌^◌, IfOk, map, length, true};
ghost use Rattle.std.specs.List.{list_all};
ghost use Rattle.online_mover.specs.Events.{event_within};
ghost use Rattle.ras_table.specs.Answers.{Gives};
ghost use Rattle.ras_inventory.specs.RegionRule.{server_names};
ghost use Rattle.ras_rounds.specs.EntryRows.{heads, kinds};
ghost use Rattle.ras_rounds.specs.Scripts.{entry_at, script_in, script_of, told};

use crate::entries::{Entry, entry_of};
use crate::fault::ScriptFault;
use online_mover::EventsWhy;
use ras_inventory::Region;
use ras_table::{Kind, List, Record, RowFault, Schema, read_head, read_records, read_row};
use std::alloc::Global;

// The columns of a script. There are at most 100 rounds.
fn script_schema() -> Schema<3>
    ensures heads { map (λ h. h.now) result.heads.now ≡ heads }
    ensures kinds { result.kinds ≡ kinds }
{
    Schema {
        heads: &["round", "event", "server"],
        kinds: [Kind::Whole(100), Kind::Name, Kind::NameOrNone],
    }
}

// The entry of a record, or the record's first fault.
fn entry_at(
    alloc: Global,
    region: &Region,
    number: u32,
    before: &[Entry],
    fields: &Record,
) -> Result<Entry, ScriptFault>
    ensures { Gives (λ entry. entry) told result (entry_at (server_names region.now.servers) number before.now fields.now) }
{
    let row = match read_row(alloc, &script_schema(), fields) {
        Ok(row) => row,
        Err(RowFault::Memory) => return Err(ScriptFault::Memory),
        Err(fault) => {
            return Err(ScriptFault::At {
                line: number,
                why: EventsWhy::Row(fault),
            });
        }
    };
    match entry_of(region, before, &row) {
        Ok(entry) => Ok(entry),
        Err(why) => Err(ScriptFault::At { line: number, why }),
    }
}

// The entries of records, or their first fault.
fn script_in(alloc: Global, region: &Region, records: &[Record]) -> Result<List<Entry>, ScriptFault>
    requires { length records.now < 2 ^ 32 }
    ensures { Gives (λ entries. entries) told result (script_in (server_names region.now.servers) records.now) }
{
    if records.is_empty() || !read_head(&script_schema(), &records[0]) {
        return Err(ScriptFault::At {
            line: 1,
            why: EventsWhy::Head,
        });
    }
    let Ok(mut entries) = List::new(alloc, 0) else {
        return Err(ScriptFault::Memory);
    };
    for i in 1..records.len() {
        let entry = entry_at(alloc, region, i as u32 + 1, entries.as_slice(), &records[i])?;
        if entries.push(entry).is_err() {
            return Err(ScriptFault::Memory);
        }
    }
    Ok(entries)
}

/// The entries of a script, or its first fault: the number of its line, from 1, and why it is refused.
pub fn read_script(alloc: Global, region: &Region, bytes: &[u8]) -> Result<List<Entry>, ScriptFault>
    requires { length bytes.now ≤ 64 * 2 ^ 20 }
    ensures entries { Gives (λ entries. entries) told result (script_of (server_names region.now.servers) bytes.now) }
    ensures there { IfOk result (λ entries. list_all (λ entry. event_within (length region.now.servers) entry.event) entries ≡ true) }
{
    let Ok(records) = read_records(alloc, bytes) else {
        return Err(ScriptFault::Memory);
    };
    script_in(alloc, region, records.as_slice())
}
