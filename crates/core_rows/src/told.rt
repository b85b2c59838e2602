//! What is answered, as a text.

use crate::counting::Counting;
use conflict_core::{CoreAnswer, core};
use plan_document::Document;
use ras_inventory::{read_bindings, read_region};
use ras_requests::read_requests;
use ras_table::List;
use std::alloc::{AllocError, Global};
use std::test::Fail;

// More bytes than a test puts in one file.
const LONGEST: usize = 10_000_000;

// A word with the numbers of a set.
fn with_numbers(alloc: Global, word: &str, members: &List<u32>) -> Result<String, AllocError> {
    let mut text = String::from_str(alloc, word)?;
    for member in members.as_slice() {
        let number = format!(in alloc; " {member}")?;
        text.push_str(number.as_str())?;
    }
    Ok(text)
}

// How many servers a document gives to reservations.
fn given(document: &Document) -> u32 {
    let mut count = 0u32;
    if let Some(plan) = &document.region.plan {
        for to in plan.of.of.as_slice() {
            if to.is_some() {
                count = count.saturating_add(1);
            }
        }
    }
    count
}

// The members of a core, and how many servers the others get without each of them; or how many all get; or the set of a limit.
fn answer_text(alloc: Global, answer: &CoreAnswer) -> Result<String, AllocError> {
    match answer {
        CoreAnswer::Core { members, plans, .. } => {
            let mut text = with_numbers(alloc, "core", members)?;
            for plan in plans.as_slice() {
                let count = given(plan);
                let number = format!(in alloc; ", {count}")?;
                text.push_str(number.as_str())?;
            }
            Ok(text)
        }
        CoreAnswer::Fits { plan } => {
            let count = given(plan);
            format!(in alloc; "fits, {count}")
        }
        CoreAnswer::Limit { over, .. } => with_numbers(alloc, "limit", over),
    }
}

/// What is answered within so many nodes, 1 to 20,000, or the fault.
pub(crate) fn told(
    alloc: Global,
    inventory: &str,
    requests: &str,
    bindings: &str,
    nodes: u32,
    planner: &mut Counting,
) -> Result<String, Fail> {
    if inventory.len() > LONGEST || requests.len() > LONGEST || bindings.len() > LONGEST {
        return Err(Fail::from("short files"));
    }
    if nodes == 0 || nodes > 20_000 {
        return Err(Fail::from("a budget"));
    }
    let region = read_region(alloc, inventory.as_bytes())
        .ok()
        .ok_or("a region")?;
    let requests = read_requests(alloc, requests.as_bytes())
        .ok()
        .ok_or("requests")?;
    let bindings = read_bindings(alloc, &region, bindings.as_bytes())
        .ok()
        .ok_or("bindings")?;
    match core(alloc, &region, &requests, &bindings, nodes, planner) {
        Ok(answer) => Ok(answer_text(alloc, &answer)?),
        Err(fault) => Ok(format!(in alloc; "{fault}")?),
    }
}
