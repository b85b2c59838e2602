//! Documents that were made to mislead, over three servers on a switchboard each.
use crate::documents::{THREE, UNBOUND, document, one_request};
use crate::runs::{Texts, told};
use std::alloc::Global;
use std::test::Fail;

// What is told of a plan with these parts, where three servers are asked for one unit.
fn told_of(alloc: Global, parts: &str) -> Result<String, Fail> {
    let requests = one_request(alloc, 2, 1, 1, "")?;
    let plan = document(alloc, "plan", "class", 0, 100, parts)?;
    let texts = Texts {
        inventory: THREE,
        requests: requests.as_str(),
        bindings: UNBOUND,
        plan: plan.as_str(),
    };
    Ok(told(alloc, texts)?)
}

#[test]
fn trees(rt: HostRuntime) -> Result<(), Fail> {
    let cases = [
        (
            r#"[["split",0,0,1,2],["bound",1,[8,2,9,2]],["bound",1,[7,2]]]"#,
            "0|yes plan\nregion value 4 lower 4 gap 0\n|",
        ),
        (
            r#"[["split",0,0,2,1],["bound",1,[7,2]],["bound",1,[8,2,9,2]]]"#,
            "0|yes plan\nregion value 4 lower 4 gap 0\n|",
        ),
        (
            r#"[["split",0,0,1,1],["bound",1,[]]]"#,
            "1|no tree region node 0 child\n|",
        ),
        (
            r#"[["split",0,0,0,1],["bound",1,[]]]"#,
            "1|no tree region node 0 child\n|",
        ),
        (
            r#"[["split",6,0,1,2],["bound",1,[]],["bound",1,[]]]"#,
            "1|no tree region node 0 column\n|",
        ),
        (
            r#"[["split",0,1,1,2],["bound",1,[]],["bound",1,[]]]"#,
            "1|no tree region node 0 at\n|",
        ),
        (
            r#"[["split",0,0,1,2],["split",0,0,3,4],["bound",1,[]],["bound",1,[]],["bound",1,[]]]"#,
            "1|no tree region node 1 at\n|",
        ),
        (
            r#"[["split",0,0,1,3],["split",2,0,2,4],["bound",1,[]],["bound",1,[]]]"#,
            "1|no tree region node 1 child\n|",
        ),
        (
            r#"[["split",0,0,1,2],["split",2,0,2,3],["bound",1,[]],["bound",1,[]]]"#,
            "1|no tree region node 1 child\n|",
        ),
        (
            r#"[["bound",1,[]],["bound",1,[]]]"#,
            "1|no tree region node 1 orphan\n|",
        ),
        (
            r#"[["split",0,0,1,2],["bound",1,[8,2,9,2]],["bound",1,[7,2]],["bound",1,[]]]"#,
            "1|no tree region node 3 orphan\n|",
        ),
        (r#"[["bound",1,[10,1]]]"#, "1|no tree region node 0 row\n|"),
        (r#"[["refute",1,[7,1]]]"#, "1|no tree region node 0 weak\n|"),
        (
            r#"[["split",0,0,1,2],["refute",1,[8,1,9,1]],["bound",1,[7,2]]]"#,
            "1|no tree region node 1 weak\n|",
        ),
        (
            r#"[["bound",1,[7,1,8,1,9,1]]]"#,
            "1|no lower region stated 4 found 3\n|",
        ),
        (
            r#"[["bound",1152921504606846976,[7,1152921504606846976]]]"#,
            "1|no lower region stated 4 found 1\n|",
        ),
        (
            r#"[["bound",0,[]]]"#,
            "3||ras: plan: region node 0: range\n",
        ),
        (
            r#"[["bound",1,[7,1152921504606846977]]]"#,
            "3||ras: plan: region node 0: range\n",
        ),
        (
            r#"[["bound",1,[7,1,7,1]]]"#,
            "3||ras: plan: region node 0: shape\n",
        ),
        ("[]", "3||ras: plan: region: shape\n"),
    ];
    for (tree, want) in cases {
        let parts = r#"{"assignment":{"s1":"a","s2":"a"},"gap":0,"lower":4,"tree":TREE,"value":4}"#;
        let parts = parts.replace(rt.alloc(), "TREE", tree)?;
        let found = told_of(rt.alloc(), parts.as_str())?;
        assert!(rt; found.as_str() == want, "{tree}: {found}");
    }
    Ok(())
}

#[test]
fn parts(rt: HostRuntime) -> Result<(), Fail> {
    let cases = [
        (
            r#"{"assignment":{"s1":"a","s2":"a"},"gap":3,"lower":1,"tree":[["bound",1152921504606846976,[7,1152921504606846976]]],"value":4}"#,
            "1|no gap region stated 3\n|",
        ),
        (
            r#"{"assignment":{"s9":"a"},"gap":0,"lower":4,"tree":[["split",0,0,1,2],["bound",1,[8,2,9,2]],["bound",1,[7,2]]],"value":4}"#,
            "3||ras: plan: region: name\n",
        ),
        (
            r#"{"assignment":{"s1":"a","s2":"a"},"gap":0,"lower":4,"tree":[["split",0,0,1,2],["bound",1,[8,2,9,2]],["bound",1,[7,2]]],"value":4}}"#,
            "3||ras: plan: top: not json\n",
        ),
        (
            r#"{"assignment":{"s1":"a"},"gap":0,"lower":4,"tree":[["bound",1,[]]],"value":4}"#,
            "1|no need region a m1\n|",
        ),
        (
            r#"{"assignment":{},"gap":0,"lower":4,"tree":[["bound",1,[]]],"value":4}"#,
            "1|no need region a total\n|",
        ),
    ];
    for (parts, want) in cases {
        let found = told_of(rt.alloc(), parts)?;
        assert!(rt; found.as_str() == want, "{parts}: {found}");
    }
    Ok(())
}
