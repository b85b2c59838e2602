//! Searches with a budget, a gap, or no rack part, and words that are refused.
use crate::documents::{THREE, UNBOUND, one_request};
use crate::runs::{Texts, solve};
use std::test::Fail;

// Eight servers on four racks of two switchboards.
const EIGHT: &str = concat!(
    "server,type,rack,switchboard,datacenter\n",
    "s1,t,k1,m1,d1\ns2,t,k1,m1,d1\ns3,t,k2,m1,d1\ns4,t,k2,m1,d1\n",
    "s5,t,k3,m2,d1\ns6,t,k3,m2,d1\ns7,t,k4,m2,d1\ns8,t,k4,m2,d1\n",
);

// The words of `solve` over the three files with one option.
fn with<'a>(option: &'a str, number: &'a str) -> [&'a str; 7] {
    [
        "ras",
        "solve",
        "inventory",
        "requests",
        "bindings",
        option,
        number,
    ]
}

#[test]
fn three_servers(rt: HostRuntime) -> Result<(), Fail> {
    let cases = [
        (
            ("--gap", "0"),
            "0||0|yes plan\nregion value 4 lower 4 gap 0\n|",
        ),
        (
            ("--nodes", "1"),
            "5||0|yes limit\nregion value 4 lower 3 gap 1\n|",
        ),
        (("--gap", "1"), "0||0|yes plan\nregion value 4 lower "),
        (("--gap", "x"), "2|"),
        (("--nodes", "0"), "2|"),
        (("--nodes", "20001"), "2|"),
        (("--racks", "65"), "2|"),
    ];
    let requests = one_request(rt.alloc(), 2, 1, 1, "")?;
    let texts = Texts {
        inventory: THREE,
        requests: requests.as_str(),
        bindings: UNBOUND,
        plan: "",
    };
    for ((option, number), want) in cases {
        let found = solve(rt.alloc(), with(option, number).as_slice(), texts)?;
        let told = found.told.as_str();
        assert!(rt; told.starts_with(want), "{option} {number}: {told}");
    }
    Ok(())
}

#[test]
fn racks_evened_out(rt: HostRuntime) -> Result<(), Fail> {
    let cases = [
        (
            "4",
            r#""chosen":["a"]"#,
            "0||0|yes plan\nregion value 4 lower 4 gap 0\nrack value 4 lower 4 gap 0\n|",
        ),
        (
            "4",
            r#"{"assignment":{"s1":"a","s2":"a","s5":"a","s6":"a"},"#,
            "0||0|yes plan\nregion value 4 lower 4 gap 0\nrack value 4 lower 4 gap 0\n|",
        ),
        (
            "0",
            r#"{"assignment":{"s1":"a","s2":"a","s5":"a","s6":"a"},"#,
            "0||0|yes plan\nregion value 4 lower 4 gap 0\n|",
        ),
    ];
    let requests = one_request(rt.alloc(), 1, 2, 1, ",\"rack_limit\":1,\"rack_weight\":3")?;
    let texts = Texts {
        inventory: EIGHT,
        requests: requests.as_str(),
        bindings: UNBOUND,
        plan: "",
    };
    for (racks, part, want) in cases {
        let found = solve(rt.alloc(), with("--racks", racks).as_slice(), texts)?;
        assert!(rt; found.told.as_str() == want, "{racks}: {}", found.told);
        assert!(rt;
            found.document.contains(part),
            "{racks}: {}",
            found.document
        );
    }
    Ok(())
}
