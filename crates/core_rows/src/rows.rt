//! Six servers, and more, for reservations that clash and some that don't.

use crate::counting::Counting;
use crate::regions::{Asked, Region, inventory, requests};
use crate::told::told;
use std::alloc::{AllocError, Global};
use std::test::Fail;

// Two servers of one type on each of three switchboards.
const SIX: Region = Region {
    servers: 6,
    kinds: 1,
    boards: 3,
};

const UNBOUND: &str = "server,reservation,busy,up\n";

// What is answered, and how many phases were solved.
fn answered(
    alloc: Global,
    region: Region,
    asked: &[Asked],
    nodes: u32,
    failing: u32,
) -> Result<String, Fail> {
    let inventory = inventory(alloc, region)?;
    let requests = requests(alloc, asked)?;
    let mut planner = Counting { calls: 0, failing };
    let text = told(
        alloc,
        inventory.as_str(),
        requests.as_str(),
        UNBOUND,
        nodes,
        &mut planner,
    )?;
    let calls = planner.calls;
    Ok(format!(in alloc; "{text}; {calls}")?)
}

#[test]
fn six_servers(rt: HostRuntime) -> Result<(), Fail> {
    let all = Asked { need: 40, kind: 0 };
    let two = Asked { need: 10, kind: 0 };
    let none = Asked { need: 0, kind: 0 };
    let seven = Asked { need: 41, kind: 0 };
    let rows: [(&[Asked], u32, &str); 5] = [
        // All six for the first, or two for the second.
        (&[all, two, none], 0, "core 0 1, 2, 6; 6"),
        // More than all.
        (&[seven], 0, "core 0, 0; 2"),
        (&[two, two, none], 0, "fits, 4; 1"),
        (&[], 0, "fits, 0; 1"),
        (&[all, two, none], 4, "out of memory; 4"),
    ];
    for (asked, failing, want) in rows {
        let found = answered(rt.alloc(), SIX, asked, 100, failing)?;
        assert!(rt; found.as_str() == want, "{found}");
    }
    Ok(())
}

// A server on each of three switchboards, for two reservations that each need two of them. Half of each for each would do, so that
// the clash shows in the branches alone.
#[test]
fn halves(rt: HostRuntime) -> Result<(), Fail> {
    let asked = [Asked { need: 10, kind: 0 }; 2];
    let region = Region {
        servers: 3,
        kinds: 1,
        boards: 3,
    };
    for (nodes, want) in [(1, "limit 0 1; 1"), (100, "core 0 1, 2, 2; 5")] {
        let found = answered(rt.alloc(), region, &asked, nodes, 0)?;
        assert!(rt; found.as_str() == want, "{found}");
    }
    Ok(())
}

// Reservations that each need both servers of their type, where two pairs ask for the same.
fn pairs(alloc: Global) -> Result<Vec<Asked>, AllocError> {
    let mut asked = Vec::new(alloc);
    for r in 0..64u32 {
        let kind = match r {
            40 => 3,
            55 => 20,
            _ => r,
        };
        asked.push(Asked { need: 10, kind })?;
    }
    Ok(asked)
}

#[test]
fn two_pairs(rt: HostRuntime) -> Result<(), Fail> {
    let asked = pairs(rt.alloc())?;
    let region = Region {
        servers: 128,
        kinds: 64,
        boards: 2,
    };
    let found = answered(rt.alloc(), region, asked.as_slice(), 100, 0)?;
    assert!(rt; found.as_str() == "core 3 40, 2, 2; 16", "{found}");
    Ok(())
}

#[test]
fn too_many_columns(rt: HostRuntime) -> Result<(), Fail> {
    let asked = [Asked { need: 10, kind: 0 }; 64];
    let region = Region {
        servers: 64,
        kinds: 1,
        boards: 64,
    };
    let found = answered(rt.alloc(), region, &asked, 100, 0)?;
    assert!(rt; found.as_str() == "4160 columns; 1", "{found}");
    Ok(())
}
