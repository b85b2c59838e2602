//! Regions that are made by loops.
use crate::cores::CORE;
use crate::documents::{SIX, UNBOUND, requests};
use crate::runs::{Failing, NOTHING, Texts, ran, solve, told_by};
use crate::solving::SOLVE;
use std::alloc::{AllocError, Global};
use std::test::Fail;

// The type of the servers of a rack of the region of 240 servers.
fn kind(rack: u32) -> &'static str {
    match rack {
        2 => "storage",
        3 => "flash",
        _ => "compute",
    }
}

// The reservation that holds the server at this place of this rack, if one does.
fn holder(rack: u32, place: u32) -> Option<&'static str> {
    match rack {
        0 => Some("web"),
        2 if place < 3 => Some("store"),
        3 if place < 2 => Some("db"),
        _ => None,
    }
}

// The inventory of 240 servers on twelve switchboards with four racks each, as a spreadsheet writes it.
fn wide_inventory(alloc: Global) -> Result<String, AllocError> {
    let mut text = String::from_str(alloc, "\u{feff}server,type,rack,switchboard,datacenter\r\n")?;
    for number in 0u32..240 {
        let (board, rack, place) = (number / 20, number / 5 % 4, number % 5);
        let center = if board < 6 { "east" } else { "west" };
        let server = format!(in alloc; "h{board}q{rack}n{place},{}", kind(rack))?;
        let line = format!(in alloc; "{server},r{board}q{rack},m{board},{center}\r\n")?;
        text.push_str(line.as_str())?;
    }
    Ok(text)
}

// The bindings of the region of 240 servers. Of the held servers the first of each rack is busy.
fn wide_bindings(alloc: Global) -> Result<String, AllocError> {
    let mut text = String::from_str(alloc, "\u{feff}server,reservation,busy,up\r\n")?;
    for number in 0u32..240 {
        let (board, rack, place) = (number / 20, number / 5 % 4, number % 5);
        if let Some(holder) = holder(rack, place) {
            let busy = u32::from(place == 0);
            let line = format!(in alloc; "h{board}q{rack}n{place},{holder},{busy},1\r\n")?;
            text.push_str(line.as_str())?;
        }
    }
    Ok(text)
}

const WIDE_REQUESTS: &str = concat!(
    "\u{feff}{\"format\":1,\"moves\":{\"take\":1,\"idle\":5,\"busy\":50},\"reservations\":[\r\n",
    "{\"name\":\"web\",\"need\":550,\"values\":{\"compute\":10}},\r\n",
    "{\"name\":\"store\",\"need\":396,\"values\":{\"storage\":12},\"rack_limit\":24,\"rack_weight\":1},\r\n",
    "{\"name\":\"db\",\"need\":440,\"values\":{\"flash\":20}},\r\n",
    "{\"name\":\"ads\",\"need\":80,\"values\":{\"compute\":8},\"spread_limit\":8,\"spread_weight\":1},\r\n",
    "{\"name\":\"batch\",\"need\":50,\"values\":{\"compute\":5,\"storage\":3}},\r\n",
    "{\"name\":\"cache\",\"need\":150,\"values\":{\"flash\":15,\"compute\":4}}]}\r\n",
);

#[test]
fn two_hundred_forty_servers(rt: HostRuntime) -> Result<(), Fail> {
    let inventory = wide_inventory(rt.alloc())?;
    let bindings = wide_bindings(rt.alloc())?;
    let texts = Texts {
        inventory: inventory.as_str(),
        requests: WIDE_REQUESTS,
        bindings: bindings.as_str(),
        plan: "",
    };
    let found = solve(rt.alloc(), SOLVE.as_slice(), texts)?;
    let want = "0||0|yes plan\nregion value 33 lower 33 gap 0\nrack value 177 lower 177 gap 0\n|";
    assert!(rt; found.told.as_str() == want, "{}", found.told);
    let failing = Failing {
        read: 0,
        put: 2,
        taken: 10,
    };
    let cut = ran(rt.alloc(), SOLVE.as_slice(), texts, failing)?;
    assert_eq!(rt; cut.status, 7);
    assert_eq!(rt; cut.noted.as_str(), "ras: write failed\n");
    assert_eq!(rt; cut.printed.len(), 4_106);
    assert!(rt; found.document.starts_with(cut.printed.as_str()));
    Ok(())
}

// So many servers of one type on so many switchboards in turn, in two datacenters.
fn inventory(alloc: Global, servers: u32, boards: u32) -> Result<String, AllocError> {
    let mut text = String::from_str(alloc, "server,type,rack,switchboard,datacenter\n")?;
    for server in 0..servers {
        let board = server.checked_rem(boards).unwrap_or(0);
        let line = format!(in alloc; "s{server},t,k{board},m{board},d{}\n", board % 2)?;
        text.push_str(line.as_str())?;
    }
    Ok(text)
}

// So many reservations of no need.
fn idle_reservations(alloc: Global, count: u32) -> Result<String, AllocError> {
    let mut text = String::from_str(alloc, "{\"name\":\"r0\",\"need\":0,\"values\":{\"t\":1}}")?;
    for number in 1..count {
        let line = format!(in alloc;
            ",{{\"name\":\"r{number}\",\"need\":0,\"values\":{{\"t\":1}}}}"
        )?;
        text.push_str(line.as_str())?;
    }
    Ok(text)
}

// 64 switchboards with a server each take 64 columns for each reservation and 64 more, 128 rows, and 65 for each reservation.
#[test]
fn too_many_columns_or_rows(rt: HostRuntime) -> Result<(), Fail> {
    let cases = [
        (33, "ras: program: columns 2176\n"),
        (31, "ras: program: rows 2143\n"),
    ];
    let inventory = inventory(rt.alloc(), 64, 64)?;
    for (count, note) in cases {
        let reservations = idle_reservations(rt.alloc(), count)?;
        let requests = requests(rt.alloc(), 1, reservations.as_str())?;
        let texts = Texts {
            inventory: inventory.as_str(),
            requests: requests.as_str(),
            bindings: UNBOUND,
            plan: "",
        };
        let want = format!(in rt.alloc(); "3||{note}")?;
        for line in [SOLVE.as_slice(), CORE.as_slice()] {
            let found = told_by(rt.alloc(), line, texts, NOTHING)?;
            assert!(rt; found == want, "{count}: {found}");
        }
    }
    Ok(())
}

#[test]
fn as_many_reservations_as_may_be(rt: HostRuntime) -> Result<(), Fail> {
    let cases = [
        (64, "0||0|yes plan\nregion value 0 lower 0 gap 0\n|"),
        (65, "3|ras: requests: place 0: many\n|"),
    ];
    for (count, want) in cases {
        let reservations = idle_reservations(rt.alloc(), count)?;
        let requests = requests(rt.alloc(), 1, reservations.as_str())?;
        let texts = Texts {
            inventory: SIX,
            requests: requests.as_str(),
            bindings: UNBOUND,
            plan: "",
        };
        let found = solve(rt.alloc(), SOLVE.as_slice(), texts)?;
        assert!(rt; found.told.starts_with(want), "{count}: {}", found.told);
    }
    Ok(())
}

// Two reservations with these needs, the first with its buffer weighed and the second with its spread and its racks.
fn two_requests(alloc: Global, needs: (u32, u32), weight: u32) -> Result<String, AllocError> {
    let (first, second) = needs;
    let first = format!(in alloc;
        "{{\"name\":\"a\",\"need\":{first},\"values\":{{\"t\":3}},\"buffer_weight\":{weight}}}"
    )?;
    let spread = format!(in alloc; "\"spread_limit\":2,\"spread_weight\":{weight}")?;
    let racks = format!(in alloc; "\"rack_limit\":1,\"rack_weight\":{weight}")?;
    let second = format!(in alloc;
        "{{\"name\":\"b\",\"need\":{second},\"values\":{{\"t\":2}},{spread},{racks}}}"
    )?;
    let both = format!(in alloc; "{first},{second}")?;
    requests(alloc, 1, both.as_str())
}

#[test]
fn small_regions(rt: HostRuntime) -> Result<(), Fail> {
    let cases = [
        ((1, 1), (0, 0), 1, "0||0|yes plan\n"),
        ((2, 2), (3, 0), 0, "0||0|yes plan\n"),
        ((2, 2), (3, 2), 0, "4||0|yes infeasible\n"),
        ((4, 2), (3, 2), 1, "0||0|yes plan\n"),
        ((5, 2), (4, 2), 0, "4||0|yes infeasible\n"),
        ((6, 3), (6, 2), 1, "0||0|yes plan\n"),
        ((7, 3), (5, 3), 2, "0||0|yes plan\n"),
        ((8, 4), (9, 2), 0, "0||0|yes plan\n"),
        ((9, 3), (7, 4), 3, "0||0|yes plan\n"),
        ((6, 1), (1, 0), 1, "4||0|yes infeasible\n"),
    ];
    for ((servers, boards), needs, weight, want) in cases {
        let inventory = inventory(rt.alloc(), servers, boards)?;
        let requests = two_requests(rt.alloc(), needs, weight)?;
        let texts = Texts {
            inventory: inventory.as_str(),
            requests: requests.as_str(),
            bindings: UNBOUND,
            plan: "",
        };
        let found = solve(rt.alloc(), SOLVE.as_slice(), texts)?;
        let told = found.told.as_str();
        assert!(rt; told.starts_with(want), "{servers} {boards}: {told}");
    }
    Ok(())
}
