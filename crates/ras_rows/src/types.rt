//! Regions of many types, whose programs have as many columns as may be.
use crate::documents::{UNBOUND, requests};
use crate::runs::{Texts, solve};
use crate::solving::SOLVE;
use std::alloc::{AllocError, Global};
use std::test::Fail;

// An inventory of so many servers on one switchboard, each of a type of its own.
fn inventory(alloc: Global, count: u32) -> Result<String, AllocError> {
    let mut text = String::from_str(alloc, "server,type,rack,switchboard,datacenter\n")?;
    for i in 0..count {
        let line = format!(in alloc; "s{i},t{i},k,m,d\n")?;
        text.push_str(line.as_str())?;
    }
    Ok(text)
}

// A value of 1 for each of so many types.
fn values(alloc: Global, count: u32) -> Result<String, AllocError> {
    let mut text = String::from_str(alloc, "\"t0\":1")?;
    for i in 1..count {
        let value = format!(in alloc; ",\"t{i}\":1")?;
        text.push_str(value.as_str())?;
    }
    Ok(text)
}

// So many reservations of no need, to which each of so many types is worth 1. The first weighs its buffer so.
fn reservations(alloc: Global, count: u32, types: u32, weight: u32) -> Result<String, AllocError> {
    let values = values(alloc, types)?;
    let mut text = format!(in alloc;
        "{{\"name\":\"r0\",\"need\":0,\"values\":{{{values}}},\"buffer_weight\":{weight}}}"
    )?;
    for i in 1..count {
        let reservation = format!(in alloc;
            ",{{\"name\":\"r{i}\",\"need\":0,\"values\":{{{values}}}}}"
        )?;
        text.push_str(reservation.as_str())?;
    }
    Ok(text)
}

// 32 classes with a column for each of 63 reservations and one for none are 2,048 columns. The largest share is one more.
#[test]
fn programs_of_the_largest_size(rt: HostRuntime) -> Result<(), Fail> {
    let cases = [
        (0, "0||0|yes plan\nregion value 0 lower 0 gap 0\n|"),
        (1, "3|ras: program: columns 2049\n|"),
    ];
    let inventory = inventory(rt.alloc(), 32)?;
    for (weight, want) in cases {
        let reservations = reservations(rt.alloc(), 63, 32, weight)?;
        let requests = requests(rt.alloc(), 1, reservations.as_str())?;
        let texts = Texts {
            inventory: inventory.as_str(),
            requests: requests.as_str(),
            bindings: UNBOUND,
            plan: "",
        };
        let found = solve(rt.alloc(), SOLVE.as_slice(), texts)?;
        assert!(rt; found.told.starts_with(want), "{weight}: {}", found.told);
    }
    Ok(())
}
