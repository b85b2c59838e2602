ghost use Rattle.std.specs.Prelude.{◌≡◌};
ghost use Rattle.std.specs.Option.{option_copied};
ghost use Rattle.ras_inventory.specs.RegionRule.{server_names};
ghost use Rattle.online_mover.specs.EventRows.{word_of, word_in, whole_in, names_nothing, server_in, event_of, event_in, broken_rule, timed_of};

use crate::fault::EventsWhy;
use crate::stands::Event;
use ras_inventory::Region;
use ras_table::{Cell, Row};

/// An event, and the time at which it came.
#[derive(Clone, Copy, Debug, PartialEq, Eq)]
pub struct Timed {
    /// When it came, in the unit of the file, 0 to 2^53.
    pub at: u64,
    /// What came.
    pub event: Event,
}

/// What happened, by its word in a file of events.
#[derive(Clone, Copy, Debug)]
enum Word {
    Tick,
    Drained,
    Refused,
    Joined,
    JoinFailed,
    Down,
    Up,
}

fn word_of(text: &[u8]) -> Option<Word>
    ensures { result ≡ word_of text.now }
{
    if text == b"tick".as_slice() {
        Some(Word::Tick)
    } else if text == b"drained".as_slice() {
        Some(Word::Drained)
    } else if text == b"refused".as_slice() {
        Some(Word::Refused)
    } else if text == b"joined".as_slice() {
        Some(Word::Joined)
    } else if text == b"join-failed".as_slice() {
        Some(Word::JoinFailed)
    } else if text == b"down".as_slice() {
        Some(Word::Down)
    } else if text == b"up".as_slice() {
        Some(Word::Up)
    } else {
        None
    }
}

// The word in a cell.
fn word_in(cell: Option<&Cell>) -> Option<Word>
    ensures { result ≡ word_in (option_copied cell.entry) }
{
    match cell {
        Some(Cell::Name(name)) => word_of(name.bytes()),
        _ => None,
    }
}

/// The whole number in a cell, and 0 where the cell holds none.
pub fn whole_in(cell: Option<&Cell>) -> u64
    ensures { result ≡ whole_in (option_copied cell.entry) }
{
    match cell {
        Some(Cell::Whole(n)) => *n,
        _ => 0,
    }
}

// Whether a cell is empty.
fn names_nothing(cell: Option<&Cell>) -> bool
    ensures { result ≡ names_nothing (option_copied cell.entry) }
{
    matches!(cell, Some(Cell::Nothing))
}

// The server that a cell names.
fn server_in(region: &Region, cell: Option<&Cell>) -> Option<u32>
    ensures { result ≡ server_in (server_names region.now.servers) (option_copied cell.entry) }
{
    match cell {
        Some(Cell::Name(name)) => region.find(name.bytes()),
        _ => None,
    }
}

// The event of a word: a tick names no server, and every other event names one.
fn event_of(region: &Region, word: Word, cell: Option<&Cell>) -> Option<Event>
    ensures { result ≡ event_of (server_names region.now.servers) word (option_copied cell.entry) }
{
    if let Word::Tick = word {
        return if names_nothing(cell) {
            Some(Event::Tick)
        } else {
            None
        };
    }
    let server = server_in(region, cell)?;
    match word {
        Word::Tick => Some(Event::Tick),
        Word::Drained => Some(Event::Drained(server)),
        Word::Refused => Some(Event::Refused(server)),
        Word::Joined => Some(Event::Joined(server)),
        Word::JoinFailed => Some(Event::JoinFailed(server)),
        Word::Down => Some(Event::Down(server)),
        Word::Up => Some(Event::Up(server)),
    }
}

/// The event of a row that has its word in column 1 and its server in column 2. `Word` comes where the word is none of those of
/// events, and else `Unknown` where a tick names a server, or another event names none that the region has.
pub fn event_in(region: &Region, row: &Row<3>) -> Result<Event, EventsWhy>
    ensures { result ≡ event_in (server_names region.now.servers) row.now }
{
    let Some(word) = word_in(row.cell(1)) else {
        return Err(EventsWhy::Word);
    };
    match event_of(region, word, row.cell(2)) {
        Some(event) => Ok(event),
        None => Err(EventsWhy::Unknown),
    }
}

// The first rule that an event breaks, after the events before it.
fn broken_rule(before: &[Timed], at: u64) -> Option<EventsWhy>
    ensures { result ≡ broken_rule before.now at }
{
    match before.last() {
        Some(last) if at < last.at => Some(EventsWhy::Order),
        _ => if before.len() >= 100_000 {
            Some(EventsWhy::Many)
        } else {
            None
        },
    }
}

/// The event of a row, or the first rule that it breaks.
pub(crate) fn timed_of(region: &Region, before: &[Timed], row: &Row<3>) -> Result<Timed, EventsWhy>
    ensures { result ≡ timed_of (server_names region.now.servers) before.now row.now }
{
    let at = whole_in(row.cell(0));
    let event = event_in(region, row)?;
    match broken_rule(before, at) {
        Some(why) => Err(why),
        None => Ok(Timed { at, event }),
    }
}
