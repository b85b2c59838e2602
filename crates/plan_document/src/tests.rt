use crate::{DocFault, read_document, write_document};
use ras_inventory::{Region, read_region};
use ras_requests::{Moves, Protection, Requests, Reservation};
use ras_table::{List, Name};
use std::alloc::Global;
use std::test::Fail;

const PLAN: &str =
    "{\"assignment\":{\"s1\":\"a\",\"s2\":\"a\"},\"gap\":0,\"lower\":4,\"tree\":[[\"bound\",1,[7,2]]],\"value\":4}";

const PROTECTED: &str = "\"protection\":{\"a\":\"datacenter\"},";

// Three servers, each on a switchboard of its own.
fn region(alloc: Global) -> Result<Region, Fail> {
    let text =
        b"server,type,rack,switchboard,datacenter\ns1,t,k1,m1,d1\ns2,t,k2,m2,d1\ns3,t,k3,m3,d1\n";
    Ok(read_region(alloc, text).ok().ok_or("a region")?)
}

// One reservation.
fn requests(alloc: Global) -> Result<Requests, Fail> {
    let reservation = Reservation {
        name: Name::read(alloc, b"a").ok().ok_or("a name")?,
        need: 1,
        values: List::new(alloc, 0).ok().ok_or("values")?,
        buffer_weight: 0,
        spread_limit: 0,
        spread_weight: 0,
        rack_limit: 0,
        rack_weight: 0,
        near: List::new(alloc, 0).ok().ok_or("wishes")?,
        protection: Protection::Board,
    };
    let mut list = List::new(alloc, 1).ok().ok_or("a list")?;
    list.push(reservation).ok().ok_or("memory")?;
    let moves = Moves {
        take: 2,
        idle: 5,
        busy: 50,
    };
    Ok(Requests { moves, list })
}

// The text of a document with these pieces. The protections and the rack part stand before `racks` and end with a comma.
fn text_of(
    alloc: Global,
    answer: &str,
    format: u32,
    nodes: u32,
    rack: &str,
    region: &str,
) -> Result<String, Fail> {
    Ok(
        format!(in alloc;
            "{{\"answer\":\"{answer}\",\"format\":{format},\"gap\":0,\"grouping\":\"class\",\"nodes\":{nodes},{rack}\"racks\":4,\"region\":{region}}}"
        ).ok()
            .ok_or("a text")?,
    )
}

// A region part with this assignment and this tree.
fn part_of(alloc: Global, assignment: &str, tree: &str) -> Result<String, Fail> {
    Ok(
        format!(in alloc;
            "{{\"assignment\":{assignment},\"gap\":0,\"lower\":4,\"tree\":{tree},\"value\":4}}"
        ).ok()
            .ok_or("a part")?,
    )
}

// A rack part with these chosen reservations and this tree.
fn rack_of(alloc: Global, chosen: &str, tree: &str) -> Result<String, Fail> {
    Ok(
        format!(in alloc;
            "\"rack\":{{\"assignment\":{{\"s3\":\"a\"}},\"chosen\":{chosen},\"gap\":0,\"lower\":4,\"tree\":{tree},\"value\":4}},"
        ).ok()
            .ok_or("a part")?,
    )
}

// Whether a text is refused with a fault of these words.
fn tells(alloc: Global, text: &str, words: &str) -> Result<bool, Fail> {
    if text.len() > 10_000 {
        return Err(Fail::from("a long text"));
    }
    let region = region(alloc)?;
    let requests = requests(alloc)?;
    let fault: DocFault = read_document(alloc, &region, &requests, text.as_bytes())
        .err()
        .ok_or("a fault")?;
    let told = format!(in alloc; "{fault}").ok().ok_or("a text")?;
    Ok(told.as_bytes() == words.as_bytes())
}

// Whether a plan with this region part is refused with a fault of these words.
fn part_tells(alloc: Global, assignment: &str, tree: &str, words: &str) -> Result<bool, Fail> {
    let part = part_of(alloc, assignment, tree)?;
    let text = text_of(alloc, "plan", 1, 100, "", part.as_str())?;
    tells(alloc, text.as_str(), words)
}

// Whether a plan with this rack part is refused with a fault of these words.
fn rack_tells(alloc: Global, chosen: &str, tree: &str, words: &str) -> Result<bool, Fail> {
    let rack = rack_of(alloc, chosen, tree)?;
    let text = text_of(alloc, "plan", 1, 100, rack.as_str(), PLAN)?;
    tells(alloc, text.as_str(), words)
}

// Whether a document is written as it was read, with a line feed.
fn is_kept(alloc: Global, text: &str) -> Result<bool, Fail> {
    is_written_as(alloc, text, text)
}

// Whether a document is written as this text with a line feed.
fn is_written_as(alloc: Global, text: &str, again: &str) -> Result<bool, Fail> {
    if text.len() > 10_000 {
        return Err(Fail::from("a long text"));
    }
    let region = region(alloc)?;
    let requests = requests(alloc)?;
    let document = read_document(alloc, &region, &requests, text.as_bytes())
        .ok()
        .ok_or("a document")?;
    let written = write_document(alloc, &region, &requests, &document)
        .ok()
        .ok_or("a text")?;
    let line = format!(in alloc; "{again}\n").ok().ok_or("a text")?;
    Ok(written.as_slice() == line.as_bytes())
}

#[test]
fn a_plan_is_kept(rt: HostRuntime) -> Result<(), Fail> {
    let text = text_of(rt.alloc(), "plan", 2, 100, PROTECTED, PLAN)?;
    let kept = is_kept(rt.alloc(), text.as_str())?;
    assert!(rt; kept);
    Ok(())
}

#[test]
fn format_1_is_written_as_format_2(rt: HostRuntime) -> Result<(), Fail> {
    let text = text_of(rt.alloc(), "plan", 1, 100, "", PLAN)?;
    let board = "\"protection\":{\"a\":\"switchboard\"},";
    let again = text_of(rt.alloc(), "plan", 2, 100, board, PLAN)?;
    let written = is_written_as(rt.alloc(), text.as_str(), again.as_str())?;
    assert!(rt; written);
    Ok(())
}

// Whether a plan with these protections is refused with a fault of these words.
fn protection_tells(
    alloc: Global,
    format: u32,
    protection: &str,
    words: &str,
) -> Result<bool, Fail> {
    let text = text_of(alloc, "plan", format, 100, protection, "{}")?;
    tells(alloc, text.as_str(), words)
}

#[test]
fn faults_of_the_protections(rt: HostRuntime) -> Result<(), Fail> {
    let alloc = rt.alloc();
    let further = protection_tells(alloc, 1, PROTECTED, "top: shape")?;
    assert!(rt; further);
    let absent = protection_tells(alloc, 2, "", "top: shape")?;
    assert!(rt; absent);
    let number = protection_tells(alloc, 2, "\"protection\":{\"a\":7},", "top: shape")?;
    assert!(rt; number);
    let text = protection_tells(alloc, 2, "\"protection\":{\"b\":\"rack\"},", "top: range")?;
    assert!(rt; text);
    let unknown = protection_tells(
        alloc,
        2,
        "\"protection\":{\"a\":\"none\",\"b\":\"none\"},",
        "top: name",
    )?;
    assert!(rt; unknown);
    let missing = protection_tells(alloc, 2, "\"protection\":{},", "top: name")?;
    assert!(rt; missing);
    Ok(())
}

#[test]
fn a_refutation_is_kept(rt: HostRuntime) -> Result<(), Fail> {
    let text = text_of(
        rt.alloc(),
        "infeasible",
        2,
        1,
        PROTECTED,
        "{\"tree\":[[\"refute\",1,[7,1]]]}",
    )?;
    let kept = is_kept(rt.alloc(), text.as_str())?;
    assert!(rt; kept);
    Ok(())
}

#[test]
fn a_shown_point_is_kept(rt: HostRuntime) -> Result<(), Fail> {
    let region =
        "{\"lower\":4,\"tree\":[[\"split\",0,0,1,2,2,[0,4294967294],[1,0]],[\"bound\",1,[]],[\"refute\",1,[7,2]]]}";
    let text = text_of(rt.alloc(), "limit", 2, 1, PROTECTED, region)?;
    let kept = is_kept(rt.alloc(), text.as_str())?;
    assert!(rt; kept);
    Ok(())
}

#[test]
fn a_rack_part_is_kept(rt: HostRuntime) -> Result<(), Fail> {
    let rack = rack_of(rt.alloc(), "[\"a\"]", "[[\"bound\",1,[]]]")?;
    let both = format!(in rt.alloc(); "{PROTECTED}{rack}")
        .ok()
        .ok_or("a text")?;
    let text = text_of(rt.alloc(), "limit", 2, 100, both.as_str(), PLAN)?;
    let kept = is_kept(rt.alloc(), text.as_str())?;
    assert!(rt; kept);
    Ok(())
}

#[test]
fn hostile_parts(rt: HostRuntime) -> Result<(), Fail> {
    let alloc = rt.alloc();
    let zero_den = part_tells(alloc, "{}", "[[\"bound\",0,[]]]", "region node 0: range")?;
    assert!(rt; zero_den);
    let large = part_tells(
        alloc,
        "{}",
        "[[\"bound\",1,[7,1152921504606846977]]]",
        "region node 0: range",
    )?;
    assert!(rt; large);
    let again = part_tells(
        alloc,
        "{}",
        "[[\"bound\",1,[7,1,7,1]]]",
        "region node 0: shape",
    )?;
    assert!(rt; again);
    let empty = part_tells(alloc, "{}", "[]", "region: shape")?;
    assert!(rt; empty);
    let unknown = part_tells(
        alloc,
        "{\"s9\":\"a\"}",
        "[[\"bound\",1,[]]]",
        "region: name",
    )?;
    assert!(rt; unknown);
    let text = text_of(alloc, "plan", 1, 100, "", PLAN)?;
    let twice = format!(in alloc; "{text}}}").ok().ok_or("a text")?;
    let closed = tells(alloc, twice.as_str(), "top: not json")?;
    assert!(rt; closed);
    Ok(())
}

#[test]
fn faults_of_the_top(rt: HostRuntime) -> Result<(), Fail> {
    let alloc = rt.alloc();
    let answer = text_of(alloc, "maybe", 2, 0, "", PLAN)?;
    let shape = tells(alloc, answer.as_str(), "top: shape")?;
    assert!(rt; shape);
    let version = text_of(alloc, "plan", 3, 0, "", "{}")?;
    let format = tells(alloc, version.as_str(), "top: format")?;
    assert!(rt; format);
    let budget = text_of(alloc, "plan", 1, 20001, "", "{}")?;
    let range = tells(alloc, budget.as_str(), "top: range")?;
    assert!(rt; range);
    let rack = rack_of(alloc, "[\"a\"]", "[[\"bound\",1,[]]]")?;
    let beside = text_of(
        alloc,
        "infeasible",
        1,
        1,
        rack.as_str(),
        "{\"tree\":[[\"refute\",1,[7,1]]]}",
    )?;
    let refused = tells(alloc, beside.as_str(), "top: shape")?;
    assert!(rt; refused);
    Ok(())
}

#[test]
fn first_faults_of_a_part(rt: HostRuntime) -> Result<(), Fail> {
    let alloc = rt.alloc();
    let name = part_tells(
        alloc,
        "{\"s1\":\"b\"}",
        "[7,[\"bound\",0,[]]]",
        "region: name",
    )?;
    assert!(rt; name);
    let shape = part_tells(
        alloc,
        "{\"s1\":\"a\"}",
        "[[\"bound\",1,[]],[\"bound\",1,[7]],[\"bound\",0,[]]]",
        "region node 1: shape",
    )?;
    assert!(rt; shape);
    let range = part_tells(
        alloc,
        "{\"s1\":\"a\"}",
        "[[\"bound\",1,[]],[\"bound\",0,[]],[\"bound\",1,[7]]]",
        "region node 1: range",
    )?;
    assert!(rt; range);
    let huge =
        "{\"assignment\":{\"s9\":\"a\"},\"gap\":0,\"lower\":4,\"tree\":[7],\"value\":4611686018427387905}";
    let text = text_of(alloc, "plan", 1, 100, "", huge)?;
    let value = tells(alloc, text.as_str(), "region: range")?;
    assert!(rt; value);
    Ok(())
}

#[test]
fn faults_of_a_shown_point(rt: HostRuntime) -> Result<(), Fail> {
    let alloc = rt.alloc();
    let uneven = part_tells(
        alloc,
        "{}",
        "[[\"split\",0,0,1,2,1,[0],[]]]",
        "region node 0: shape",
    )?;
    assert!(rt; uneven);
    let whole = part_tells(
        alloc,
        "{}",
        "[[\"split\",0,0,1,2,1,[0],[1]]]",
        "region node 0: range",
    )?;
    assert!(rt; whole);
    Ok(())
}

#[test]
fn faults_of_the_rack_part(rt: HostRuntime) -> Result<(), Fail> {
    let alloc = rt.alloc();
    let none = rack_tells(alloc, "[]", "[[\"bound\",1,[]]]", "rack: shape")?;
    assert!(rt; none);
    let unknown = rack_tells(alloc, "[\"b\"]", "[7]", "rack: name")?;
    assert!(rt; unknown);
    let shape = rack_tells(alloc, "[\"a\"]", "[7]", "rack node 0: shape")?;
    assert!(rt; shape);
    let range = rack_tells(
        alloc,
        "[\"a\"]",
        "[[\"bound\",1,[]],[\"bound\",1,[2048,1]]]",
        "rack node 1: range",
    )?;
    assert!(rt; range);
    let part = part_of(alloc, "{}", "[[\"bound\",0,[]]]")?;
    let text = text_of(alloc, "plan", 1, 100, "\"rack\":7,", part.as_str())?;
    let first = tells(alloc, text.as_str(), "region node 0: range")?;
    assert!(rt; first);
    Ok(())
}
