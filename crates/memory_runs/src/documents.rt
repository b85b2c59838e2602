//! Texts of requests and documents.
ghost use Rattle.std.specs.Prelude.{◌≡◌, IfOk, string_bytes};
ghost use Rattle.memory_runs.specs.Texts.{document_text, one_request_text, requests_text, reservation_text, unbounded_text};

use std::alloc::{AllocError, Global};

/// The text of requests with this cost of a server that is taken, 5 of an idle and 50 of a busy one, and these
/// reservations, which are members of a list.
pub fn requests(alloc: Global, take: u32, reservations: &str) -> Result<String, AllocError>
    ensures { IfOk result (λ text. string_bytes text ≡ requests_text take reservations.now) }
{
    format!(in alloc;
        "{{\"format\":1,\"moves\":{{\"take\":{take},\"idle\":5,\"busy\":50}},\"reservations\":[{reservations}]}}"
    )
}

// A reservation.
fn reservation(alloc: Global, need: u32, value: u32, further: &str) -> Result<String, AllocError>
    ensures { IfOk result (λ text. string_bytes text ≡ reservation_text need value further.now) }
{
    format!(in alloc; "{{\"name\":\"a\",\"need\":{need},\"values\":{{\"t\":{value}}}{further}}}")
}

/// The text of requests of one reservation `a` with this need, this value of a server of type `t`, and further members,
/// each behind a comma.
pub fn one_request(
    alloc: Global,
    take: u32,
    need: u32,
    value: u32,
    further: &str,
) -> Result<String, AllocError>
    ensures { IfOk result (λ text. string_bytes text ≡ one_request_text take need value further.now) }
{
    let reservation = reservation(alloc, need, value, further)?;
    requests(alloc, take, reservation.as_str())
}

/// The text of a document with this answer, grouping, wanted gap and budget of nodes, 4 racks, and these parts, which
/// begin with the region part.
pub fn document(
    alloc: Global,
    answer: &str,
    grouping: &str,
    gap: u64,
    nodes: u32,
    parts: &str,
) -> Result<String, AllocError>
    ensures { IfOk result (λ text. string_bytes text ≡ document_text answer.now grouping.now gap nodes parts.now) }
{
    format!(in alloc;
        "{{\"answer\":\"{answer}\",\"format\":1,\"gap\":{gap},\"grouping\":\"{grouping}\",\"nodes\":{nodes},\"racks\":4,\"region\":{parts}}}"
    )
}

/// The text of a region part that gives this assignment, whose members are these, at this cost, and bounds it by nothing.
pub fn unbounded(alloc: Global, assignment: &str, value: u64) -> Result<String, AllocError>
    ensures { IfOk result (λ text. string_bytes text ≡ unbounded_text assignment.now value) }
{
    format!(in alloc;
        "{{\"assignment\":{{{assignment}}},\"gap\":{value},\"lower\":0,\"tree\":[[\"bound\",1,[]]],\"value\":{value}}}"
    )
}
