//! Documents of searches whose budget is spent, over three servers on a switchboard each.
use crate::documents::{SIX, THREE, UNBOUND, document, one_request};
use crate::runs::{Texts, told};
use std::test::Fail;

#[test]
fn shown_points(rt: HostRuntime) -> Result<(), Fail> {
    let leaves = r#"["bound",1,[8,2,9,2]],["bound",1,[7,2]]"#;
    let cases = [
        (
            "2,[0,0,0,0,0,0],[1,1,1,1,1,1]",
            "0|yes limit\nregion value 6 lower 4 gap 2\n|",
        ),
        (
            "2,[0,0,1,0,0,0],[1,1,0,0,1,1]",
            "0|yes limit\nregion value 6 lower 4 gap 2\n|",
        ),
        (
            "2,[0,0,1,0,1,0],[1,1,0,0,0,0]",
            "1|no point region node 0\n|",
        ),
        (
            "2,[1,0,0,0,0,0],[0,0,1,1,1,1]",
            "1|no point region node 0\n|",
        ),
        (
            "1,[0,1,1,0,1,0],[0,0,0,0,0,0]",
            "1|no point region node 0\n|",
        ),
        (
            "2,[0,0,0,0,0,0],[1,0,1,1,1,1]",
            "1|no point region node 0\n|",
        ),
        (
            "4,[0,0,0,0,0,0],[2,2,1,3,1,3]",
            "1|no point region node 0\n|",
        ),
        (
            "2,[0,0,1,1,0,0],[1,1,1,1,1,1]",
            "1|no point region node 0\n|",
        ),
        ("2,[0,0,0,0,0],[1,1,1,1,1]", "1|no point region node 0\n|"),
        (
            "2,[0,0,0,0,0,0,0],[1,1,1,1,1,1,1]",
            "1|no point region node 0\n|",
        ),
        (
            "2,[0,0,0,0,0,0],[1,1,1,1,1]",
            "3||ras: plan: region node 0: shape\n",
        ),
    ];
    let requests = one_request(rt.alloc(), 2, 1, 1, "")?;
    for (point, want) in cases {
        let part = format!(in rt.alloc();
            "{{\"assignment\":{{\"s1\":\"a\",\"s2\":\"a\",\"s3\":\"a\"}},\"gap\":2,\"lower\":4,\"tree\":[[\"split\",0,0,1,2,{point}],{leaves}],\"value\":6}}"
        )?;
        let plan = document(rt.alloc(), "limit", "class", 0, 3, part.as_str())?;
        let texts = Texts {
            inventory: THREE,
            requests: requests.as_str(),
            bindings: UNBOUND,
            plan: plan.as_str(),
        };
        let found = told(rt.alloc(), texts)?;
        assert!(rt; found.as_str() == want, "{point}: {found}");
    }
    Ok(())
}

#[test]
fn budgets_and_gaps(rt: HostRuntime) -> Result<(), Fail> {
    let one =
        r#"{"assignment":{"s1":"a","s2":"a"},"gap":1,"lower":3,"tree":[["bound",1,[7,1,8,1,9,1]]],"value":4}"#;
    let cases = [
        (
            "limit",
            0,
            1,
            "0|yes limit\nregion value 4 lower 3 gap 1\n|",
        ),
        (
            "limit",
            0,
            2,
            "0|yes limit\nregion value 4 lower 3 gap 1\n|",
        ),
        ("limit", 0, 3, "1|no budget region nodes 1\n|"),
        ("limit", 0, 100, "1|no budget region nodes 1\n|"),
        ("limit", 1, 1, "1|no gap region stated 1\n|"),
        ("plan", 1, 1, "0|yes plan\nregion value 4 lower 3 gap 1\n|"),
        ("plan", 0, 1, "1|no gap region stated 1\n|"),
        ("infeasible", 0, 1, "3||ras: plan: region: shape\n"),
    ];
    let requests = one_request(rt.alloc(), 2, 1, 1, "")?;
    for (answer, gap, nodes, want) in cases {
        let plan = document(rt.alloc(), answer, "class", gap, nodes, one)?;
        let texts = Texts {
            inventory: THREE,
            requests: requests.as_str(),
            bindings: UNBOUND,
            plan: plan.as_str(),
        };
        let found = told(rt.alloc(), texts)?;
        assert!(rt; found.as_str() == want, "{answer} {gap} {nodes}: {found}");
    }
    Ok(())
}

#[test]
fn limits_without_a_plan(rt: HostRuntime) -> Result<(), Fail> {
    let cases = [
        (
            r#"{"lower":7,"tree":[["bound",20,[7,1,8,1,9,1]]]}"#,
            "0|yes limit\nregion lower 7\n|",
        ),
        (
            r#"{"lower":6,"tree":[["bound",20,[7,1,8,1,9,1]]]}"#,
            "1|no lower region stated 6 found 7\n|",
        ),
        (
            r#"{"lower":7,"tree":[["refute",1,[7,1]]]}"#,
            "1|no lower region stated 7 found none\n|",
        ),
        (
            r#"{"tree":[["bound",20,[7,1,8,1,9,1]]]}"#,
            "3||ras: plan: region: shape\n",
        ),
    ];
    let requests = one_request(rt.alloc(), 1, 41, 10, "")?;
    for (part, want) in cases {
        let plan = document(rt.alloc(), "limit", "class", 0, 1, part)?;
        let texts = Texts {
            inventory: SIX,
            requests: requests.as_str(),
            bindings: UNBOUND,
            plan: plan.as_str(),
        };
        let found = told(rt.alloc(), texts)?;
        assert!(rt; found.as_str() == want, "{part}: {found}");
    }
    Ok(())
}
