//! What `ras spare` prints.
use memory_runs::{
    THREE_AND_ONE, TWO, Texts, UNBOUND, document, one_request, requests, told_spare, unbounded,
};
use std::alloc::{AllocError, Global};
use std::test::Fail;

// Two servers of each of two types.
const TWO_TYPES: &str = concat!(
    "server,type,rack,switchboard,datacenter\n",
    "s1,t,k1,m1,d1\ns2,t,k2,m2,d1\ns3,u,k1,m1,d1\ns4,u,k2,m2,d1\n",
);

// Three servers that serve a reservation, and a fourth on the switchboard of the first.
const HELD: &str = "server,reservation,busy,up\ns1,a,0,1\ns2,a,0,1\ns3,a,0,1\n";

// A document that gives this assignment at this cost.
fn planned(alloc: Global, assignment: &str, value: u64) -> Result<String, Fail> {
    let part = unbounded(alloc, assignment, value)?;
    Ok(document(alloc, "plan", "class", value, 100, part.as_str())?)
}

// What a run over these files and these lines of failures tells.
fn replaced(alloc: Global, texts: Texts<'_>, lines: &str) -> Result<String, Fail> {
    let failures = format!(in alloc; "at,event,server\n{lines}")?;
    Ok(told_spare(alloc, texts, failures.as_str())?)
}

#[test]
fn pool_of_one_type(rt: HostRuntime) -> Result<(), Fail> {
    let cases = [
        (
            "0,fail,s4\n1,fail,s2\n2,fail,s2\n3,repair,s4\n",
            "0|0,replace,s4,a,s1\n1,short,s2,a,,5\n2,stale,s2\n3,return,s4\nend,total,4,1\n|",
        ),
        ("", "0|end,total,0,0\n|"),
        (
            "0,fail,s1\n0,repair,s1\n0,repair,s1\n",
            "0|0,idle,s1\n0,return,s1\n0,stale,s1\nend,total,3,0\n|",
        ),
        ("0,fail,s5\n", "3||ras: failures: line 2: unknown\n"),
        (
            "5,fail,s1\n4,repair,s1\n",
            "3||ras: failures: line 3: order\n",
        ),
        ("5,down,s1\n", "3||ras: failures: line 2: word\n"),
        ("5,fail\n", "3||ras: failures: line 2: columns 2\n"),
        (
            "5,fail,s1\nx,fail,s1\n",
            "3||ras: failures: line 3: column 1\n",
        ),
    ];
    let requests = one_request(rt.alloc(), 1, 10, 5, "")?;
    let plan = planned(rt.alloc(), r#""s2":"a","s3":"a","s4":"a""#, 6)?;
    let texts = Texts {
        inventory: THREE_AND_ONE,
        requests: requests.as_str(),
        bindings: HELD,
        plan: plan.as_str(),
    };
    for (lines, want) in cases {
        let found = replaced(rt.alloc(), texts, lines)?;
        assert!(rt; found.as_str() == want, "{found}");
    }
    Ok(())
}

#[test]
fn pool_of_two_types(rt: HostRuntime) -> Result<(), Fail> {
    let a = r#"{"name":"a","need":4,"values":{"t":4,"u":10}}"#;
    let requests = requests(rt.alloc(), 1, a)?;
    let plan = planned(rt.alloc(), r#""s1":"a","s2":"a""#, 2)?;
    let texts = Texts {
        inventory: TWO_TYPES,
        requests: requests.as_str(),
        bindings: UNBOUND,
        plan: plan.as_str(),
    };
    let lines = "0,fail,s1\n1,fail,s3\n2,repair,s1\n3,fail,s4\n";
    let found = replaced(rt.alloc(), texts, lines)?;
    assert!(rt;
        found.as_str()
            == "0|0,replace,s1,a,s3\n1,replace,s3,a,s4\n2,return,s1\n3,short,s4,a,s1,6\nend,total,4,1\n|",
        "{found}"
    );
    Ok(())
}

// Two servers that nobody holds, with requests and a document.
fn over_two<'a>(requests: &'a str, plan: &'a str) -> Texts<'a> {
    Texts {
        inventory: TWO,
        requests,
        bindings: UNBOUND,
        plan,
    }
}

// What a run over two servers that nobody holds tells.
fn replaced_of_two(alloc: Global, requests: &str, plan: &str, lines: &str) -> Result<String, Fail> {
    replaced(alloc, over_two(requests, plan), lines)
}

#[test]
fn no_target_to_start_from(rt: HostRuntime) -> Result<(), Fail> {
    let requests = one_request(rt.alloc(), 2, 3, 1, "")?;
    let part = r#"{"tree":[["refute",1,[5,1]]]}"#;
    let infeasible = document(rt.alloc(), "infeasible", "class", 0, 100, part)?;
    let wrong = planned(rt.alloc(), r#""s1":"a","s2":"a""#, 4)?;
    let cases = [
        (infeasible.as_str(), "0,fail,s1\n", "1|no target\n|"),
        (wrong.as_str(), "0,fail,s1\n", "1|no need region a total\n|"),
        (
            wrong.as_str(),
            "0,fail,s3\n",
            "3||ras: failures: line 2: unknown\n",
        ),
        ("{", "0,fail,s3\n", "3||ras: plan: top: not json\n"),
    ];
    for (plan, lines, want) in cases {
        let found = replaced_of_two(rt.alloc(), requests.as_str(), plan, lines)?;
        assert!(rt; found.as_str() == want, "{found}");
    }
    Ok(())
}

// So many failures of one server, one at each time.
fn failures(alloc: Global, count: u32) -> Result<String, AllocError> {
    let mut text = String::new(alloc);
    for at in 0..count {
        let line = format!(in alloc; "{at},fail,s1\n")?;
        text.push_str(line.as_str())?;
    }
    Ok(text)
}

#[test]
fn as_many_failures_as_may_be(rt: HostRuntime) -> Result<(), Fail> {
    let requests = one_request(rt.alloc(), 2, 1, 1, "")?;
    let plan = planned(rt.alloc(), r#""s1":"a","s2":"a""#, 4)?;
    let texts = over_two(requests.as_str(), plan.as_str());
    // The text has a line for each of them, and the sink no room for so many.
    let cases = [
        (100_000, "7|0,short,s1,a,,1\n1,stale,s1\n2,stale,s1\n"),
        (100_001, "3||ras: failures: line 100002: many\n"),
    ];
    for (count, want) in cases {
        let lines = failures(rt.alloc(), count)?;
        let found = replaced(rt.alloc(), texts, lines.as_str())?;
        assert!(rt; found.as_str().starts_with(want), "{count}");
    }
    Ok(())
}

#[test]
fn failures_without_a_head(rt: HostRuntime) -> Result<(), Fail> {
    let requests = one_request(rt.alloc(), 2, 1, 1, "")?;
    let plan = planned(rt.alloc(), r#""s1":"a","s2":"a""#, 4)?;
    let texts = over_two(requests.as_str(), plan.as_str());
    let found = told_spare(rt.alloc(), texts, "0,fail,s1\n")?;
    assert!(rt;
        found.as_str() == "3||ras: failures: line 1: head\n",
        "{found}"
    );
    Ok(())
}
