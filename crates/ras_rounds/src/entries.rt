ghost use Rattle.std.specs.Prelude.{◌≡◌, ◌≤◌, slice_get};
ghost use Rattle.ras_inventory.specs.RegionRule.{server_names};
ghost use Rattle.online_mover.specs.EventRows.{whole_in as whole_in_of};
ghost use Rattle.ras_rounds.specs.EntryRows.{broken_rule, entry_of};

use online_mover::{Event, EventsWhy, event_in, whole_in};
use ras_inventory::Region;
use ras_table::Row;

/// An event, and the round in which it comes.
#[derive(Clone, Copy, Debug, PartialEq, Eq)]
pub struct Entry {
    /// The round, 1 to 100.
    pub round: u32,
    /// What comes.
    pub event: Event,
}

// The first rule that an entry breaks, after the entries before it.
fn broken_rule(before: &[Entry], round: u32) -> Option<EventsWhy>
    ensures { result ≡ broken_rule before.now round }
{
    if round == 0 {
        return Some(EventsWhy::Order);
    }
    match before.last() {
        Some(last) if round < last.round => Some(EventsWhy::Order),
        _ => if before.len() >= 100_000 {
            Some(EventsWhy::Many)
        } else {
            None
        },
    }
}

/// The entry of a row, or the first rule that it breaks.
pub(crate) fn entry_of(region: &Region, before: &[Entry], row: &Row<3>) -> Result<Entry, EventsWhy>
    requires { whole_in_of (slice_get row.now 0) ≤ 100 }
    ensures { result ≡ entry_of (server_names region.now.servers) before.now row.now }
{
    let round = whole_in(row.cell(0)) as u32;
    let event = event_in(region, row)?;
    match broken_rule(before, round) {
        Some(why) => Err(why),
        None => Ok(Entry { round, event }),
    }
}
