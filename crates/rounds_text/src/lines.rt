//! The parts of a round's text that stand before its moves.
ghost use Rattle.std.specs.Prelude.{◌≡◌, ◌++◌, OnOk, Ok};
ghost use Rattle.ras_inventory.specs.RegionRule.{server_names};
ghost use Rattle.ras_requests.specs.RequestsRule.{reservation_names};
ghost use Rattle.plan_document.specs.Documents.{document_of, seen_document};
ghost use Rattle.plan_document.specs.Writable.{CanBeWritten};
ghost use Rattle.plan_document.specs.Written.{document_text};
ghost use Rattle.rounds_text.specs.Rounds.{round_line};

use itoa::Buffer;
use plan_document::{Document, write_document};
use ras_inventory::Region;
use ras_requests::Requests;
use std::alloc::{AllocError, Global};

/// Adds the line with the number of a round, and how many classes its case has.
pub(crate) fn put_line(text: &mut Vec<u8>, number: u32, classes: u32) -> Result<(), AllocError>
    ensures { OnOk result (text.new.items ≡ text.old.items ++ round_line number classes) }
{
    let mut rounds = Buffer::new();
    let mut groups = Buffer::new();
    text.extend_from_slice(b"round ")?;
    text.extend_from_slice(rounds.format(number).as_bytes())?;
    text.extend_from_slice(b" classes ")?;
    text.extend_from_slice(groups.format(classes).as_bytes())?;
    text.push(b'\n')?;
    Ok(())
}

/// Adds the text of a document.
pub(crate) fn put_document(
    alloc: Global,
    text: &mut Vec<u8>,
    region: &Region,
    requests: &Requests,
    document: &Document,
) -> Result<(), AllocError>
    requires { CanBeWritten (server_names region.now.servers) (reservation_names requests.now.list) document.now }
    ensures text { OnOk result (text.new.items ≡ text.old.items
        ++ document_text (server_names region.now.servers) (reservation_names requests.now.list) (seen_document document.now)) }
    ensures again { OnOk result (document_of (server_names region.now.servers) (reservation_names requests.now.list)
        (document_text (server_names region.now.servers) (reservation_names requests.now.list) (seen_document document.now))
        ≡ Ok (seen_document document.now)) }
{
    let written = write_document(alloc, region, requests, document)?;
    text.extend_from_slice(written.as_slice())
}
