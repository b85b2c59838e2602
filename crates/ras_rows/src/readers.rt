//! Files that are not valid, and files at their limits.
use crate::documents::{SIX, UNBOUND, document, one_request};
use crate::runs::{Texts, told};
use std::alloc::{AllocError, Global};
use std::test::Fail;

const PART: &str =
    r#"{"assignment":{"s1":"a","s2":"a","s3":"a","s4":"a","s5":"a","s6":"a"},"gap":0,"lower":6,"tree":[["bound",20,[7,1,8,1,9,1]]],"value":6}"#;

#[test]
fn faults_of_one_file(rt: HostRuntime) -> Result<(), Fail> {
    let head = "server,type,rack,switchboard,datacenter\n";
    let cases = [
        (
            "s1,t,k1,m1,d1\ns2,t,k1,m2,d1\n",
            (40, 10),
            "",
            "3||ras: inventory: line 3: rack moved\n",
        ),
        (
            "s1,t,k1,m1,d1\ns2,t,k1\n",
            (40, 10),
            "",
            "3||ras: inventory: line 3: columns 3\n",
        ),
        (
            "s1,t,k1,m1,d1\n",
            (40, 1001),
            "",
            "3||ras: requests: place 1: range\n",
        ),
        (
            "s1,t,k1,m1,d1\n",
            (10_000_001, 10),
            "",
            "3||ras: requests: place 1: range\n",
        ),
        (
            "s1,t,k1,m1,d1\n",
            (40, 10),
            "s9,a,0,1\n",
            "3||ras: bindings: line 2: unknown\n",
        ),
        (
            "s1,t,k1,m1,d1\n",
            (40, 10),
            "",
            "3||ras: plan: region: name\n",
        ),
        (
            "s1,t,k1,m1,d1\ns1,t,k1,m1,d1\n",
            (40, 1001),
            "s9,a,0,1\n",
            "3||ras: inventory: line 3: twice\n",
        ),
        (
            "s1,t,k1,m1,d1\n",
            (40, 1001),
            "s9,a,0,1\n",
            "3||ras: requests: place 1: range\n",
        ),
    ];
    let plan = document(rt.alloc(), "plan", "class", 0, 100, PART)?;
    for (servers, (need, value), lines, want) in cases {
        let inventory = format!(in rt.alloc(); "{head}{servers}")?;
        let requests = one_request(rt.alloc(), 1, need, value, "")?;
        let bindings = format!(in rt.alloc(); "{UNBOUND}{lines}")?;
        let texts = Texts {
            inventory: inventory.as_str(),
            requests: requests.as_str(),
            bindings: bindings.as_str(),
            plan: plan.as_str(),
        };
        let found = told(rt.alloc(), texts)?;
        assert!(rt; found.as_str() == want, "{inventory}{bindings}: {found}");
    }
    Ok(())
}

#[test]
fn marks_and_line_ends(rt: HostRuntime) -> Result<(), Fail> {
    let inventory = SIX.replace(rt.alloc(), "\n", "\r\n")?;
    let inventory = format!(in rt.alloc(); "\u{FEFF}{inventory}")?;
    let requests = one_request(rt.alloc(), 1, 40, 10, "")?;
    let requests = format!(in rt.alloc(); "\u{FEFF}{requests}")?;
    let plan = document(rt.alloc(), "plan", "class", 0, 100, PART)?;
    let plan = format!(in rt.alloc(); "\u{FEFF}{plan}\r\n")?;
    let texts = Texts {
        inventory: inventory.as_str(),
        requests: requests.as_str(),
        bindings: "\u{FEFF}server,reservation,busy,up\r\n",
        plan: plan.as_str(),
    };
    let found = told(rt.alloc(), texts)?;
    let want = "0|yes plan\nregion value 6 lower 6 gap 0\n|";
    assert!(rt; found.as_str() == want, "{found}");
    let cut = r#"{"answer":"plan","format":1,"gap":0,"grouping":"cl"#;
    let texts = Texts { plan: cut, ..texts };
    let found = told(rt.alloc(), texts)?;
    assert!(rt;
        found.as_str() == "3||ras: plan: top: not json\n",
        "{found}"
    );
    Ok(())
}

// An inventory of one server on each of so many switchboards.
fn switchboards(alloc: Global, count: u32) -> Result<String, AllocError> {
    let mut text = String::from_str(alloc, "server,type,rack,switchboard,datacenter\n")?;
    for i in 0..count {
        let line = format!(in alloc; "s{i},t,k{i},m{i},d\n")?;
        text.push_str(line.as_str())?;
    }
    Ok(text)
}

#[test]
fn numbers_at_their_limits(rt: HostRuntime) -> Result<(), Fail> {
    let cases = [
        (64, "0|yes infeasible\n|"),
        (65, "3||ras: inventory: line 66: many\n"),
    ];
    let requests = one_request(rt.alloc(), 1, 10_000_000, 1000, "")?;
    let tree = r#"{"tree":[["refute",1,[128,1]]]}"#;
    let plan = document(rt.alloc(), "infeasible", "class", 0, 1, tree)?;
    for (count, want) in cases {
        let inventory = switchboards(rt.alloc(), count)?;
        let texts = Texts {
            inventory: inventory.as_str(),
            requests: requests.as_str(),
            bindings: UNBOUND,
            plan: plan.as_str(),
        };
        let found = told(rt.alloc(), texts)?;
        assert!(rt; found.as_str() == want, "{count}: {found}");
    }
    Ok(())
}
