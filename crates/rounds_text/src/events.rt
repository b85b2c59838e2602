//! The rounds of a script, and the events of each.
ghost use Rattle.std.specs.Prelude.{◌≡◌, IfOk};
ghost use Rattle.rounds_text.specs.Scripts.{events_of, rounds_of};

use online_mover::Timed;
use ras_rounds::Entry;
use ras_table::List;
use std::alloc::{AllocError, Global};

/// How many rounds a script has: at least one.
pub(crate) fn rounds_of(entries: &List<Entry>) -> u32
    ensures { result ≡ rounds_of entries.now }
{
    match entries.as_slice().last() {
        Some(last) => last.round.max(1),
        None => 1,
    }
}

/// The events of a round, at its number.
pub(crate) fn events_of(
    alloc: Global,
    number: u32,
    entries: &List<Entry>,
) -> Result<List<Timed>, AllocError>
    ensures { IfOk result (λ events. events ≡ events_of number entries.now) }
{
    let mut items = Vec::new(alloc);
    for entry in entries.as_slice() {
        if entry.round == number {
            items.push(Timed {
                at: u64::from(number),
                event: entry.event,
            })?;
        }
    }
    Ok(List::from_vec(items))
}
