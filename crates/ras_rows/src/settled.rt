//! A search that its budget ends, whose plan no change of one server makes cheaper.
use crate::documents::{UNBOUND, requests};
use crate::runs::{Texts, solve};
use std::test::Fail;

// Three servers of type t and one of type u, on a switchboard each.
const FOUR_BOARDS: &str = concat!(
    "server,type,rack,switchboard,datacenter\n",
    "s1,t,k1,m1,d1\ns2,t,k2,m2,d1\ns3,t,k3,m3,d1\ns4,u,k4,m4,d1\n",
);

// One unit of t, and units of u near datacenter d1, of which one is missed at a weight of 9.
const TWO_RESERVATIONS: &str = concat!(
    r#"{"name":"a","need":1,"values":{"t":1}},"#,
    r#"{"name":"b","need":0,"values":{"u":1},"near":[{"datacenter":"d1","least":1,"weight":9}]}"#,
);

// The first plan gives s1 and s2 to a, and costs 13.
#[test]
fn settled_plan(rt: HostRuntime) -> Result<(), Fail> {
    let requests = requests(rt.alloc(), 2, TWO_RESERVATIONS)?;
    let texts = Texts {
        inventory: FOUR_BOARDS,
        requests: requests.as_str(),
        bindings: UNBOUND,
        plan: "",
    };
    let line = [
        "ras",
        "solve",
        "inventory",
        "requests",
        "bindings",
        "--nodes",
        "1",
    ];
    let found = solve(rt.alloc(), line.as_slice(), texts)?;
    let want = "5||0|yes limit\nregion value 6 lower 5 gap 1\n|";
    assert!(rt; found.told.as_str() == want, "{}", found.told);
    let assignment = r#""assignment":{"s1":"a","s2":"a","s4":"b"}"#;
    assert!(rt; found.document.contains(assignment), "{}", found.document);
    Ok(())
}
