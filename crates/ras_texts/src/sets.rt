//! The line of a set of reservations.
ghost use Rattle.std.specs.Prelude.{◌≡◌, ◌++◌, OnOk, codes, flat_map};
ghost use Rattle.ras_requests.specs.RequestsRule.{reservation_names};
ghost use Rattle.ras_texts.specs.Sets.{names_line};

use ras_requests::Requests;
use std::alloc::AllocError;

// The name of each reservation, behind a space.
fn put_names(text: &mut Vec<u8>, requests: &Requests) -> Result<(), AllocError>
    ensures { OnOk result (text.new.items ≡ text.old.items ++ flat_map (λ name. codes " " ++ name) (reservation_names requests.now.list)) }
{
    for reservation in requests.list.as_slice() {
        text.extend_from_slice(b" ")?;
        text.extend_from_slice(reservation.name.bytes())?;
    }
    Ok(())
}

/// Adds a line to a text: a word, and behind a space the name of each reservation.
pub fn put_line(text: &mut Vec<u8>, word: &[u8], requests: &Requests) -> Result<(), AllocError>
    ensures { OnOk result (text.new.items ≡ text.old.items ++ names_line word.now (reservation_names requests.now.list)) }
{
    text.extend_from_slice(word)?;
    put_names(text, requests)?;
    text.push(b'\n')?;
    Ok(())
}
