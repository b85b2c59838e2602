ghost use Rattle.std.specs.Prelude.{◌≡◌};
ghost use Rattle.std.specs.Option.{option_copied};
ghost use Rattle.ras_inventory.specs.RegionRule.{server_names};
ghost use Rattle.spare_pool.specs.FailureRows.{word_of, word_in, whole_in, server_in, change_of, broken_rule, failure_of};

use crate::fault::FailuresWhy;
use crate::standings::Change;
use ras_inventory::Region;
use ras_table::{Cell, Row};

/// A change, and the time at which it came.
#[derive(Clone, Copy, Debug, PartialEq, Eq)]
pub struct Failure {
    /// When it came, in the unit of the file, 0 to 2^53.
    pub at: u64,
    /// What came.
    pub change: Change,
}

/// What happened, by its word in a file of failures.
#[derive(Clone, Copy, Debug)]
enum Word {
    Fail,
    Repair,
}

fn word_of(text: &[u8]) -> Option<Word>
    ensures { result ≡ word_of text.now }
{
    if text == b"fail".as_slice() {
        Some(Word::Fail)
    } else if text == b"repair".as_slice() {
        Some(Word::Repair)
    } else {
        None
    }
}

// The word in a cell.
fn word_in(cell: Option<&Cell>) -> Option<Word>
    ensures { result ≡ word_in (option_copied cell.entry) }
{
    match cell {
        Some(Cell::Name(name)) => word_of(name.bytes()),
        _ => None,
    }
}

// The whole number in a cell.
fn whole_in(cell: Option<&Cell>) -> u64
    ensures { result ≡ whole_in (option_copied cell.entry) }
{
    match cell {
        Some(Cell::Whole(n)) => *n,
        _ => 0,
    }
}

// The server that a cell names.
fn server_in(region: &Region, cell: Option<&Cell>) -> Option<u32>
    ensures { result ≡ server_in (server_names region.now.servers) (option_copied cell.entry) }
{
    match cell {
        Some(Cell::Name(name)) => region.find(name.bytes()),
        _ => None,
    }
}

// The change of a word, to a server.
fn change_of(word: Word, server: u32) -> Change
    ensures { result ≡ change_of word server }
{
    match word {
        Word::Fail => Change::Fail(server),
        Word::Repair => Change::Repair(server),
    }
}

// The first rule that a failure breaks, after the failures before it.
fn broken_rule(before: &[Failure], at: u64) -> Option<FailuresWhy>
    ensures { result ≡ broken_rule before.now at }
{
    match before.last() {
        Some(last) if at < last.at => Some(FailuresWhy::Order),
        _ => if before.len() >= 100_000 {
            Some(FailuresWhy::Many)
        } else {
            None
        },
    }
}

/// The failure of a row, or the first rule that it breaks.
pub(crate) fn failure_of(
    region: &Region,
    before: &[Failure],
    row: &Row<3>,
) -> Result<Failure, FailuresWhy>
    ensures { result ≡ failure_of (server_names region.now.servers) before.now row.now }
{
    let at = whole_in(row.cell(0));
    let Some(word) = word_in(row.cell(1)) else {
        return Err(FailuresWhy::Word);
    };
    let Some(server) = server_in(region, row.cell(2)) else {
        return Err(FailuresWhy::Unknown);
    };
    match broken_rule(before, at) {
        Some(why) => Err(why),
        None => Ok(Failure {
            at,
            change: change_of(word, server),
        }),
    }
}
