//! Six servers of which all are taken.
use crate::documents::{SIX, UNBOUND, document, one_request};
use crate::runs::{CHECK, Failing, NOTHING, Texts, told, told_by};
use std::test::Fail;

const ALL: &str = r#""assignment":{"s1":"a","s2":"a","s3":"a","s4":"a","s5":"a","s6":"a"}"#;

#[test]
fn six_servers(rt: HostRuntime) -> Result<(), Fail> {
    let requests = one_request(rt.alloc(), 1, 40, 10, "")?;
    let cases = [
        (
            "class",
            0,
            r#"{ALL,"gap":0,"lower":6,"tree":[["bound",20,[7,1,8,1,9,1]]],"value":6}"#,
            "0|yes plan\nregion value 6 lower 6 gap 0\n|",
        ),
        (
            "single",
            0,
            r#"{ALL,"gap":0,"lower":6,"tree":[["bound",20,[13,1,14,1,15,1]]],"value":6}"#,
            "0|yes plan\nregion value 6 lower 6 gap 0\n|",
        ),
        (
            "single",
            1,
            r#"{ALL,"gap":1,"lower":6,"tree":[["bound",20,[13,1,14,1,15,1]]],"value":7}"#,
            "1|no value region stated 7 found 6\n|",
        ),
        (
            "class",
            1,
            r#"{ALL,"gap":1,"lower":6,"tree":[["bound",20,[7,1,8,1,9,1]]],"value":7}"#,
            "1|no value region stated 7 found 6\n|",
        ),
        (
            "class",
            0,
            r#"{ALL,"gap":0,"lower":5,"tree":[["bound",20,[7,1,8,1,9,1]]],"value":5}"#,
            "1|no value region stated 5 found 6\n|",
        ),
        (
            "class",
            1,
            r#"{ALL,"gap":1,"lower":5,"tree":[["bound",20,[7,1,8,1,9,1]]],"value":6}"#,
            "1|no lower region stated 5 found 6\n|",
        ),
        (
            "class",
            1,
            r#"{ALL,"gap":1,"lower":6,"tree":[["bound",20,[7,1,8,1,9,1]]],"value":6}"#,
            "1|no gap region stated 1\n|",
        ),
    ];
    for (grouping, gap, part, want) in cases {
        let part = part.replace(rt.alloc(), "ALL", ALL)?;
        let plan = document(rt.alloc(), "plan", grouping, gap, 100, part.as_str())?;
        let texts = Texts {
            inventory: SIX,
            requests: requests.as_str(),
            bindings: UNBOUND,
            plan: plan.as_str(),
        };
        let found = told(rt.alloc(), texts)?;
        assert!(rt; found.as_str() == want, "{plan}: {found}");
    }
    Ok(())
}

// A plan that is accepted.
const PART: &str =
    r#"{"assignment":{"s1":"a","s2":"a","s3":"a","s4":"a","s5":"a","s6":"a"},"gap":0,"lower":6,"tree":[["bound",20,[7,1,8,1,9,1]]],"value":6}"#;

#[test]
fn failing_devices(rt: HostRuntime) -> Result<(), Fail> {
    let cases = [
        ((0, 0, 0), "0|yes plan\nregion value 6 lower 6 gap 0\n|"),
        ((1, 0, 0), "6||ras: read failed\n"),
        ((4, 0, 0), "6||ras: read failed\n"),
        ((5, 0, 0), "0|yes plan\nregion value 6 lower 6 gap 0\n|"),
        ((0, 1, 0), "7||ras: write failed\n"),
        ((0, 1, 10), "7|yes plan\nr|ras: write failed\n"),
        (
            (0, 1, 100),
            "7|yes plan\nregion value 6 lower 6 gap 0\n|ras: write failed\n",
        ),
        ((0, 2, 10), "0|yes plan\nregion value 6 lower 6 gap 0\n|"),
        ((2, 1, 0), "6||ras: read failed\n"),
    ];
    let requests = one_request(rt.alloc(), 1, 40, 10, "")?;
    let plan = document(rt.alloc(), "plan", "class", 0, 100, PART)?;
    let texts = Texts {
        inventory: SIX,
        requests: requests.as_str(),
        bindings: UNBOUND,
        plan: plan.as_str(),
    };
    for ((read, put, taken), want) in cases {
        let failing = Failing { read, put, taken };
        let found = told_by(rt.alloc(), CHECK.as_slice(), texts, failing)?;
        assert!(rt; found.as_str() == want, "{read} {put} {taken}: {found}");
    }
    Ok(())
}

#[test]
fn words(rt: HostRuntime) -> Result<(), Fail> {
    let cases = [
        (
            [
                "ras",
                "check",
                "inventory",
                "requests",
                "bindings",
                "plan",
                "",
            ]
            .as_slice(),
            "2|",
        ),
        (
            ["ras", "check", "inventory", "requests", "bindings"].as_slice(),
            "2|",
        ),
        (["ras", "solve", "inventory", "requests"].as_slice(), "2|"),
        (["ras"].as_slice(), "2||ras: bad words\n"),
        (
            ["ras", "chek", "inventory"].as_slice(),
            "2||ras: bad words\n",
        ),
        (
            ["ras", "check", "inventory", "requests", "bindings", "gone"].as_slice(),
            "6||ras: read failed\n",
        ),
        (
            [
                "ras",
                "check",
                "inventory",
                "requests",
                "bindings",
                "bindings",
            ]
            .as_slice(),
            "3||ras: plan: top: not json\n",
        ),
    ];
    let texts = Texts {
        inventory: SIX,
        requests: "{}",
        bindings: UNBOUND,
        plan: "{}",
    };
    let requests = one_request(rt.alloc(), 1, 40, 10, "")?;
    let texts = Texts {
        requests: requests.as_str(),
        ..texts
    };
    for (line, want) in cases {
        let found = told_by(rt.alloc(), line, texts, NOTHING)?;
        assert!(rt; found.as_str().starts_with(want), "{want}: {found}");
    }
    Ok(())
}
