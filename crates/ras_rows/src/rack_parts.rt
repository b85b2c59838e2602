//! What is told of a rack part: that it is accepted, or the first reason against it.
use crate::documents::{THREE, UNBOUND, document, one_request, requests};
use crate::runs::{Texts, told};
use std::alloc::{AllocError, Global};
use std::test::Fail;

// The region part that gives `a` two of three servers, which is best.
const REGION: &str =
    r#"{"assignment":{"s1":"a","s2":"a"},"gap":0,"lower":4,"tree":[["split",0,0,1,2],["bound",1,[8,2,9,2]],["bound",1,[7,2]]],"value":4}"#;

// The region part and a rack part that gives `a` all three servers, with this gap and this bound. The root of its tree shows
// this point.
fn parts(alloc: Global, gap: u64, lower: u64, point: &str) -> Result<String, AllocError> {
    let leaves = r#"["bound",1,[8,3,9,3,11,1,12,1]],["bound",1,[7,3,10,1,11,1,12,1]]"#;
    format!(in alloc;
        "{REGION},\"rack\":{{\"assignment\":{{\"s1\":\"a\",\"s2\":\"a\",\"s3\":\"a\"}},\"chosen\":[\"a\"],\"gap\":{gap},\"lower\":{lower},\"tree\":[[\"split\",0,0,1,2{point}],{leaves}],\"value\":9}}"
    )
}

// Each server costs 2 where it is taken and 1 for its rack. Half of each of the three costs 9/2, two of them 6, which is best,
// and all of them 9.
#[test]
fn spent_budgets(rt: HostRuntime) -> Result<(), Fail> {
    let limit = "0|yes limit\nregion value 4 lower 4 gap 0\nrack value 9 lower 6 gap 3\n|";
    let plan = "0|yes plan\nregion value 4 lower 4 gap 0\nrack value 9 lower 6 gap 3\n|";
    let halves = ",2,[0,0,0,0,0,0,0,0,0],[1,1,1,1,1,1,1,1,1]";
    let unevened = ",2,[0,0,0,0,0,0,0,0,0],[1,1,1,1,1,1,0,1,1]";
    let whole = ",1,[1,0,1,0,0,1,1,1,0],[0,0,0,0,0,0,0,0,0]";
    let dear = ",2,[0,0,1,0,1,0,1,1,1],[1,1,0,0,0,0,0,0,0]";
    let cases = [
        (("limit", 0, 3), (3, 6, ""), limit),
        (("limit", 0, 4), (3, 6, halves), limit),
        (("plan", 3, 100), (3, 6, ""), plan),
        (("limit", 0, 2), (3, 6, ""), "1|no budget rack nodes 3\n|"),
        (("limit", 0, 5), (3, 6, ""), "1|no budget rack nodes 3\n|"),
        (("limit", 3, 3), (3, 6, ""), "1|no gap rack stated 3\n|"),
        (("plan", 2, 100), (3, 6, ""), "1|no gap rack stated 3\n|"),
        (("limit", 0, 3), (2, 6, ""), "1|no gap rack stated 2\n|"),
        (
            ("limit", 0, 3),
            (4, 5, ""),
            "1|no lower rack stated 5 found 6\n|",
        ),
        (
            ("limit", 0, 3),
            (3, 6, unevened),
            "1|no point rack node 0\n|",
        ),
        (("limit", 0, 3), (3, 6, whole), "1|no point rack node 0\n|"),
        (("limit", 0, 3), (3, 6, dear), "1|no point rack node 0\n|"),
    ];
    let requests = one_request(rt.alloc(), 2, 1, 1, ",\"rack_weight\":1")?;
    for ((answer, wanted, nodes), (gap, lower, point), want) in cases {
        let parts = parts(rt.alloc(), gap, lower, point)?;
        let plan = document(rt.alloc(), answer, "class", wanted, nodes, parts.as_str())?;
        let texts = Texts {
            inventory: THREE,
            requests: requests.as_str(),
            bindings: UNBOUND,
            plan: plan.as_str(),
        };
        let found = told(rt.alloc(), texts)?;
        assert!(rt; found.as_str() == want, "{plan}: {found}");
    }
    Ok(())
}

// A server of type t and one of type u, each on a rack and a switchboard of its own.
const TWO_TYPES: &str = "server,type,rack,switchboard,datacenter\ns1,t,k1,m1,d1\ns2,u,k2,m2,d1\n";

#[test]
fn servers_and_needs(rt: HostRuntime) -> Result<(), Fail> {
    let one = r#"{"name":"a","need":1,"rack_weight":1,"values":{"t":1}}"#;
    let both =
        r#"{"name":"a","need":0,"rack_weight":1,"values":{"t":1}},{"name":"b","need":0,"rack_weight":1,"values":{"u":1}}"#;
    let each =
        r#"{"assignment":{"s1":"a","s2":"b"},"gap":2,"lower":0,"tree":[["bound",1,[]]],"value":2},"rack":{"assignment":GIVEN,"chosen":["a","b"],"gap":0,"lower":0,"tree":[["bound",1,[]]],"value":0}"#;
    let two =
        r#"{"assignment":{"s1":"a","s2":"a"},"gap":2,"lower":0,"tree":[["bound",1,[]]],"value":2},"rack":{"assignment":GIVEN,"chosen":["a"],"gap":0,"lower":0,"tree":[["bound",1,[]]],"value":0}"#;
    let cases = [
        (
            (TWO_TYPES, both, each),
            "{}",
            "0|yes plan\nregion value 2 lower 0 gap 2\nrack value 0 lower 0 gap 0\n|",
        ),
        (
            (TWO_TYPES, both, each),
            r#"{"s1":"b"}"#,
            "1|no serves rack s1\n|",
        ),
        (
            (TWO_TYPES, both, each),
            r#"{"s2":"a"}"#,
            "1|no serves rack s2\n|",
        ),
        ((THREE, one, two), "{}", "1|no need rack a total\n|"),
    ];
    for ((inventory, reservations, parts), given, want) in cases {
        let requests = requests(rt.alloc(), 1, reservations)?;
        let parts = parts.replace(rt.alloc(), "GIVEN", given)?;
        let plan = document(rt.alloc(), "plan", "class", 2, 100, parts.as_str())?;
        let texts = Texts {
            inventory,
            requests: requests.as_str(),
            bindings: UNBOUND,
            plan: plan.as_str(),
        };
        let found = told(rt.alloc(), texts)?;
        assert!(rt; found.as_str() == want, "{plan}: {found}");
    }
    Ok(())
}

// An inventory of so many servers, two on each rack, on one switchboard.
fn pairs(alloc: Global, count: u32) -> Result<String, AllocError> {
    let mut text = String::from_str(alloc, "server,type,rack,switchboard,datacenter\n")?;
    for i in 0..count {
        let line = format!(in alloc; "s{i},t,k{},m,d\n", i / 2)?;
        text.push_str(line.as_str())?;
    }
    Ok(text)
}

// The program over single servers has 2 columns for each server and 1 for each rack: 2,045 for 818 servers and 2,050 for 820.
#[test]
fn programs_of_the_largest_size(rt: HostRuntime) -> Result<(), Fail> {
    let fits = "0|yes plan\nregion value 1 lower 0 gap 1\nrack value 0 lower 0 gap 0\n|";
    let cases = [
        (818, "single", fits),
        (820, "single", "1|no size rack\n|"),
        (820, "class", fits),
    ];
    let requests = one_request(rt.alloc(), 1, 0, 1, ",\"rack_weight\":1")?;
    let parts =
        r#"{"assignment":{"s0":"a"},"gap":1,"lower":0,"tree":[["bound",1,[]]],"value":1},"rack":{"assignment":{},"chosen":["a"],"gap":0,"lower":0,"tree":[["bound",1,[]]],"value":0}"#;
    for (count, grouping, want) in cases {
        let inventory = pairs(rt.alloc(), count)?;
        let plan = document(rt.alloc(), "plan", grouping, 1, 100, parts)?;
        let texts = Texts {
            inventory: inventory.as_str(),
            requests: requests.as_str(),
            bindings: UNBOUND,
            plan: plan.as_str(),
        };
        let found = told(rt.alloc(), texts)?;
        assert!(rt; found.as_str() == want, "{count} {grouping}: {found}");
    }
    Ok(())
}
