//! A region whose relaxations have numbers that fit no certificate, so that its boxes are split without a point.
ghost use Rattle.std.specs.Prelude.{◌<◌};

use crate::documents::{UNBOUND, requests};
use crate::runs::{Texts, solve};
use std::alloc::{AllocError, Global};
use std::test::Fail;

// 56 servers of seven types, fourteen on each of four switchboards.
fn inventory(alloc: Global) -> Result<String, AllocError> {
    let mut text = String::from_str(alloc, "server,type,rack,switchboard,datacenter\n")?;
    for server in 0u32..56 {
        let (kind, board) = (server % 7, server / 14);
        let line = format!(in alloc; "s{server},t{kind},k{board},m{board},d0\n")?;
        text.push_str(line.as_str())?;
    }
    Ok(text)
}

// The values of seven types for a reservation: numbers from 600 to 1,000 that share few factors.
fn values(alloc: Global, reservation: u32) -> Result<String, AllocError>
    requires { reservation < 7 }
{
    let mut text = String::new(alloc);
    for kind in 0u32..7 {
        let value = 600 + (613 * (reservation + 1) + 769 * (kind + 1) * (reservation + 2)) % 401;
        let comma = if kind == 0 { "" } else { "," };
        let member = format!(in alloc; "{comma}\"t{kind}\":{value}")?;
        text.push_str(member.as_str())?;
    }
    Ok(text)
}

// Seven reservations, each of which values each type.
fn reservations(alloc: Global) -> Result<String, AllocError> {
    let mut text = String::new(alloc);
    for number in 0u32..7 {
        let values = values(alloc, number)?;
        let need = 3001 + 37 * number;
        let comma = if number == 0 { "" } else { "," };
        let member = format!(in alloc;
            "{comma}{{\"name\":\"r{number}\",\"need\":{need},\"values\":{{{values}}}}}"
        )?;
        text.push_str(member.as_str())?;
    }
    Ok(text)
}

// Whether one of the first three splits of a document shows no point: the numbers of its children end the node.
fn has_unshown_split(document: &str) -> bool {
    [",1,2],[\"", ",3,4],[\"", ",5,6],[\""]
        .iter()
        .any(|end| document.contains(*end))
}

#[test]
fn stopped_relaxations(rt: HostRuntime) -> Result<(), Fail> {
    let inventory = inventory(rt.alloc())?;
    let reservations = reservations(rt.alloc())?;
    let requests = requests(rt.alloc(), 1, reservations.as_str())?;
    let texts = Texts {
        inventory: inventory.as_str(),
        requests: requests.as_str(),
        bindings: UNBOUND,
        plan: "",
    };
    let line = [
        "ras",
        "solve",
        "inventory",
        "requests",
        "bindings",
        "--nodes",
        "7",
    ];
    let found = solve(rt.alloc(), line.as_slice(), texts)?;
    let told = found.told.as_str();
    assert!(rt; told.starts_with("5||0|yes limit\nregion value "), "{told}");
    assert!(rt;
        has_unshown_split(found.document.as_str()),
        "{}",
        found.document
    );
    Ok(())
}
