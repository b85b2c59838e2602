//! Reservations that name their protection: none, the loss of a switchboard, or that of a datacenter.
use crate::documents::{UNBOUND, document, one_request};
use crate::runs::{Texts, solve, told};
use crate::solving::SOLVE;
use std::alloc::{AllocError, Global};
use std::test::Fail;

// Two datacenters with two switchboards each, and one server on each switchboard.
const FOUR_BOARDS: &str =
    "server,type,rack,switchboard,datacenter\ns1,t,k1,m1,d1\ns2,t,k2,m2,d1\ns3,t,k3,m3,d2\ns4,t,k4,m4,d2\n";

const SECOND: &str = r#""format":2"#;

const APART: &str = r#""assignment":{"s1":"a","s3":"a"}"#;

const TOGETHER: &str = r#""assignment":{"s1":"a","s2":"a"}"#;

// Requests of this format with these further members of the reservation `a`, which needs 1 unit.
fn protected(alloc: Global, format: &str, further: &str) -> Result<String, AllocError> {
    let requests = one_request(alloc, 1, 1, 1, further)?;
    requests.as_str().replace(alloc, r#""format":1"#, format)
}

// The verdict on a document of format 1, and on the same of format 2 with this protection of `a`.
fn told_of(alloc: Global, protection: &str, part: &str) -> Result<String, Fail> {
    let further = format!(in alloc; ",\"protection\":\"{protection}\"")?;
    let requests = protected(alloc, SECOND, further.as_str())?;
    let plan = document(alloc, "plan", "class", 0, 100, part)?;
    let second = format!(in alloc; "\"format\":2,\"protection\":{{\"a\":\"{protection}\"}}")?;
    let renewed = plan
        .as_str()
        .replace(alloc, r#""format":1"#, second.as_str())?;
    let texts = Texts {
        inventory: FOUR_BOARDS,
        requests: requests.as_str(),
        bindings: UNBOUND,
        plan: plan.as_str(),
    };
    let first = told(alloc, texts)?;
    let texts = Texts {
        inventory: FOUR_BOARDS,
        requests: requests.as_str(),
        bindings: UNBOUND,
        plan: renewed.as_str(),
    };
    let then = told(alloc, texts)?;
    Ok(format!(in alloc; "{first}{then}")?)
}

#[test]
fn checked(rt: HostRuntime) -> Result<(), Fail> {
    let cases = [
        (
            "datacenter",
            r#"{APART,"gap":0,"lower":2,"tree":[["bound",1,[9,1,10,1]]],"value":2}"#,
            "1|no protection a\n|0|yes plan\nregion value 2 lower 2 gap 0\n|",
        ),
        (
            "datacenter",
            r#"{TOGETHER,"gap":0,"lower":2,"tree":[["bound",1,[9,1,10,1]]],"value":2}"#,
            "1|no protection a\n|1|no need region a d1\n|",
        ),
        (
            "switchboard",
            r#"{APART,"gap":0,"lower":2,"tree":[["bound",1,[9,1,10,1]]],"value":2}"#,
            "1|no lower region stated 2 found 0\n|1|no lower region stated 2 found 0\n|",
        ),
        (
            "switchboard",
            r#"{TOGETHER,"gap":0,"lower":2,"tree":[["bound",3,[9,1,10,1,11,1,12,1]]],"value":2}"#,
            "0|yes plan\nregion value 2 lower 2 gap 0\n|0|yes plan\nregion value 2 lower 2 gap 0\n|",
        ),
        (
            "none",
            r#"{"assignment":{"s1":"a"},"gap":0,"lower":1,"tree":[["bound",1,[8,1]]],"value":1}"#,
            "1|no protection a\n|0|yes plan\nregion value 1 lower 1 gap 0\n|",
        ),
    ];
    for (protection, part, want) in cases {
        let part = part.replace(rt.alloc(), "APART", APART)?;
        let part = part.as_str().replace(rt.alloc(), "TOGETHER", TOGETHER)?;
        let found = told_of(rt.alloc(), protection, part.as_str())?;
        assert!(rt; found.as_str() == want, "{protection} {part}: {found}");
    }
    Ok(())
}

#[test]
fn members_and_plans(rt: HostRuntime) -> Result<(), Fail> {
    let cases = [
        (
            SECOND,
            "",
            "3|ras: requests: place 1: shape\n|3||ras: requests: place 1: shape\n",
            "",
        ),
        (
            SECOND,
            r#","protection":"rack""#,
            "3|ras: requests: place 1: range\n|3||ras: requests: place 1: range\n",
            "",
        ),
        (
            r#""format":3"#,
            "",
            "3|ras: requests: place 0: format\n|3||ras: requests: place 0: format\n",
            "",
        ),
        (
            SECOND,
            r#","protection":"datacenter""#,
            "0||0|yes plan\nregion value 2 lower 2 gap 0\n|",
            r#""assignment":{"s1":"a","s3":"a"}"#,
        ),
        (
            SECOND,
            r#","protection":"none""#,
            "0||0|yes plan\nregion value 1 lower 1 gap 0\n|",
            r#""protection":{"a":"none"}"#,
        ),
    ];
    for (format, further, want, part) in cases {
        let requests = protected(rt.alloc(), format, further)?;
        let texts = Texts {
            inventory: FOUR_BOARDS,
            requests: requests.as_str(),
            bindings: UNBOUND,
            plan: "",
        };
        let found = solve(rt.alloc(), SOLVE.as_slice(), texts)?;
        assert!(rt; found.told.as_str() == want, "{requests}: {}", found.told);
        assert!(rt;
            found.document.contains(part),
            "{requests}: {}",
            found.document
        );
    }
    Ok(())
}
