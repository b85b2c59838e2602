//! What `ras move` prints.
use memory_runs::{
    FOUR, SOLVE, THREE_AND_ONE, TWO, Texts, UNBOUND, document, requests, solve, told_move,
    unbounded,
};
use std::alloc::{AllocError, Global};
use std::test::Fail;

// A region, what is asked for of it, and who holds its servers.
#[derive(Clone, Copy)]
struct Region<'a> {
    inventory: &'a str,
    take: u32,
    reservations: &'a str,
    bindings: &'a str,
}

// What a run of `move` with this document, these lines of events and these options tells.
fn moved(
    alloc: Global,
    region: Region<'_>,
    plan: &str,
    lines: &str,
    options: &[&str],
) -> Result<String, Fail> {
    let requests = requests(alloc, region.take, region.reservations)?;
    let events = format!(in alloc; "at,event,server\n{lines}")?;
    let texts = Texts {
        inventory: region.inventory,
        requests: requests.as_str(),
        bindings: region.bindings,
        plan,
    };
    Ok(told_move(alloc, texts, events.as_str(), options)?)
}

// A document that gives this assignment at this cost.
fn planned(alloc: Global, assignment: &str, value: u64) -> Result<String, Fail> {
    let part = unbounded(alloc, assignment, value)?;
    Ok(document(alloc, "plan", "class", value, 100, part.as_str())?)
}

// The document that `solve` prints.
fn solved(alloc: Global, region: Region<'_>) -> Result<String, Fail> {
    let requests = requests(alloc, region.take, region.reservations)?;
    let texts = Texts {
        inventory: region.inventory,
        requests: requests.as_str(),
        bindings: region.bindings,
        plan: "",
    };
    Ok(solve(alloc, SOLVE.as_slice(), texts)?.document)
}

#[test]
fn holder_that_is_gone(rt: HostRuntime) -> Result<(), Fail> {
    let region = Region {
        inventory: TWO,
        take: 2,
        reservations: r#"{"name":"a","need":1,"values":{"t":1}}"#,
        bindings: "server,reservation,busy,up\ns1,old,0,1\n",
    };
    let cases = [
        (
            "8",
            "0|0,drain,s1,\n0,bind,s2,a\n1,bind,s1,a\nend,total,3,0\n|",
        ),
        (
            "1",
            "0|0,drain,s1,\n1,bind,s1,a\n2,bind,s2,a\nend,total,3,0\n|",
        ),
    ];
    let plan = solved(rt.alloc(), region)?;
    for (at_once, want) in cases {
        let found = moved(
            rt.alloc(),
            region,
            plan.as_str(),
            "0,tick,\n1,drained,s1\n2,joined,s1\n2,joined,s2\n",
            &["--at-once", at_once],
        )?;
        assert!(rt; found.as_str() == want, "{found}");
    }
    Ok(())
}

#[test]
fn bind_first_drain_later(rt: HostRuntime) -> Result<(), Fail> {
    let region = Region {
        inventory: THREE_AND_ONE,
        take: 1,
        reservations: r#"{"name":"a","need":10,"values":{"t":5}}"#,
        bindings: "server,reservation,busy,up\ns1,a,0,1\ns2,a,0,1\ns3,a,0,1\n",
    };
    let cases = [
        (
            "0,tick,\n1,joined,s4\n2,joined,s4\n3,drained,s1\n",
            "0|0,bind,s4,a\n1,drain,s1,a\n2,stale,s4,joined\nend,total,2,1\n|",
        ),
        (
            "0,tick,\n1,join-failed,s4\n2,tick,\n",
            "0|0,bind,s4,a\n2,bind,s4,a\nend,unsafe,s1,a\nend,total,2,0\n|",
        ),
        (
            "0,tick,\n0,tick,\n1,joined,s4\n1,joined,s4\n2,drained,s1\n2,drained,s1\n",
            "0|0,bind,s4,a\n1,drain,s1,a\n1,stale,s4,joined\n2,stale,s1,drained\nend,total,2,2\n|",
        ),
        ("5,tick,\n4,tick,\n", "3||ras: events: line 3: order\n"),
        ("5,tick\n", "3||ras: events: line 2: columns 2\n"),
        ("5,tock,\n", "3||ras: events: line 2: word\n"),
        ("5,tick,\nx,tick,\n", "3||ras: events: line 3: column 1\n"),
        ("5,down,s5\n", "3||ras: events: line 2: unknown\n"),
    ];
    let plan = planned(rt.alloc(), r#""s2":"a","s3":"a","s4":"a""#, 6)?;
    for (lines, want) in cases {
        let found = moved(rt.alloc(), region, plan.as_str(), lines, &[])?;
        assert!(rt; found.as_str() == want, "{found}");
    }
    Ok(())
}

#[test]
fn swap_that_is_unsafe(rt: HostRuntime) -> Result<(), Fail> {
    let region = Region {
        inventory: FOUR,
        take: 1,
        reservations: r#"{"name":"a","need":1,"values":{"t":1}},{"name":"b","need":1,"values":{"t":1}}"#,
        bindings: "server,reservation,busy,up\ns1,a,0,1\ns2,b,0,1\ns3,a,0,1\ns4,b,0,1\n",
    };
    let plan = planned(rt.alloc(), r#""s1":"b","s2":"a","s3":"a","s4":"b""#, 10)?;
    let lines = "0,tick,\n1,down,s3\n";
    let found = moved(rt.alloc(), region, plan.as_str(), lines, &[])?;
    assert!(rt;
        found.as_str() == "0|end,unsafe,s1,a\nend,unsafe,s2,b\nend,total,0,0\n|",
        "{found}"
    );
    Ok(())
}

#[test]
fn target_of_the_racks(rt: HostRuntime) -> Result<(), Fail> {
    let region = Region {
        inventory: concat!(
            "server,type,rack,switchboard,datacenter\n",
            "s1,t,k1,m1,d1\ns2,t,k1,m1,d1\ns3,t,k2,m1,d1\ns4,t,k2,m1,d1\n",
            "s5,t,k3,m2,d1\ns6,t,k3,m2,d1\ns7,t,k4,m2,d1\ns8,t,k4,m2,d1\ns9,u,k5,m2,d1\n",
        ),
        take: 1,
        reservations: concat!(
            r#"{"name":"a","need":2,"rack_limit":1,"rack_weight":3,"values":{"t":1}},"#,
            r#"{"name":"b","need":0,"values":{"u":1}}"#,
        ),
        bindings: UNBOUND,
    };
    let parts = concat!(
        r#"{"assignment":{"s1":"a","s2":"a","s5":"a","s6":"a"},"gap":0,"lower":4,"tree":[["bound",1,[7,1,8,1]]],"value":4},"#,
        r#""rack":{"assignment":{"s1":"a","s3":"a","s5":"a","s7":"a"},"chosen":["a"],"gap":0,"lower":4,"tree":[["bound",1,[9,1,10,1]]],"value":4}"#,
    );
    let plan = document(rt.alloc(), "plan", "class", 0, 100, parts)?;
    let found = moved(rt.alloc(), region, plan.as_str(), "0,tick,\n", &[])?;
    assert!(rt;
        found.as_str() == "0|0,bind,s1,a\n0,bind,s3,a\n0,bind,s5,a\n0,bind,s7,a\nend,total,4,0\n|",
        "{found}"
    );
    Ok(())
}

#[test]
fn nothing_is_moved(rt: HostRuntime) -> Result<(), Fail> {
    let region = Region {
        inventory: TWO,
        take: 2,
        reservations: r#"{"name":"a","need":3,"values":{"t":1}}"#,
        bindings: UNBOUND,
    };
    let part = r#"{"tree":[["refute",1,[5,1]]]}"#;
    let infeasible = document(rt.alloc(), "infeasible", "class", 0, 100, part)?;
    let wrong = planned(rt.alloc(), r#""s1":"a","s2":"a""#, 4)?;
    let cases = [
        (infeasible.as_str(), "0,tick,\n", "1|no target\n|"),
        (wrong.as_str(), "0,tick,\n", "1|no need region a total\n|"),
        (
            wrong.as_str(),
            "5,tick,\n4,tick,\n",
            "3||ras: events: line 3: order\n",
        ),
        ("{", "5,tick,\n4,tick,\n", "3||ras: plan: top: not json\n"),
    ];
    for (plan, lines, want) in cases {
        let found = moved(rt.alloc(), region, plan, lines, &["--at-once", "8"])?;
        assert!(rt; found.as_str() == want, "{found}");
    }
    Ok(())
}

#[test]
fn more_at_once_than_may_be(rt: HostRuntime) -> Result<(), Fail> {
    let region = Region {
        inventory: TWO,
        take: 2,
        reservations: "",
        bindings: UNBOUND,
    };
    for at_once in ["0", "65"] {
        let found = moved(rt.alloc(), region, "", "", &["--at-once", at_once])?;
        assert!(rt; found.as_str().starts_with("2||"), "{found}");
    }
    Ok(())
}

// Two servers, both to be taken by `a`, of which the first is held by nobody, or by who is gone.
fn two_servers(bindings: &str) -> Region<'_> {
    Region {
        inventory: TWO,
        take: 2,
        reservations: r#"{"name":"a","need":1,"values":{"t":1}}"#,
        bindings,
    }
}

#[test]
fn causes_at_the_end(rt: HostRuntime) -> Result<(), Fail> {
    let cases = [
        ("", "8", "0|end,ready,s1,\nend,ready,s2,\nend,total,0,0\n|"),
        (
            "0,down,s1\n",
            "8",
            "0|0,bind,s2,a\nend,down,s1,\nend,total,1,0\n|",
        ),
        (
            "0,tick,\n1,join-failed,s1\n",
            "8",
            "0|0,bind,s1,a\n0,bind,s2,a\nend,waiting,s1,\nend,total,2,0\n|",
        ),
        (
            "0,tick,\n",
            "1",
            "0|0,bind,s1,a\nend,full,s2,\nend,total,1,0\n|",
        ),
    ];
    let plan = planned(rt.alloc(), r#""s1":"a","s2":"a""#, 4)?;
    for (lines, at_once, want) in cases {
        let found = moved(
            rt.alloc(),
            two_servers(UNBOUND),
            plan.as_str(),
            lines,
            &["--at-once", at_once],
        )?;
        assert!(rt; found.as_str() == want, "{found}");
    }
    Ok(())
}

#[test]
fn each_event_taken_and_stale(rt: HostRuntime) -> Result<(), Fail> {
    let region = two_servers("server,reservation,busy,up\ns1,old,0,1\n");
    let lines = concat!(
        "0,tick,\n1,refused,s1\n2,up,s1\n3,join-failed,s2\n4,tick,\n5,refused,s2\n6,join-failed,s1\n",
        "7,down,s1\n8,down,s1\n9,drained,s1\n10,drained,s1\n11,joined,s1\n12,up,s1\n13,joined,s1\n",
    );
    let want = concat!(
        "0|0,drain,s1,\n0,bind,s2,a\n2,stale,s1,up\n4,drain,s1,\n4,bind,s2,a\n",
        "5,stale,s2,refused\n6,stale,s1,join-failed\n8,stale,s1,down\n",
        "10,stale,s1,drained\n11,stale,s1,joined\n12,bind,s1,a\nend,total,5,6\n|",
    );
    let plan = planned(rt.alloc(), r#""s1":"a","s2":"a""#, 4)?;
    let found = moved(rt.alloc(), region, plan.as_str(), lines, &[])?;
    assert!(rt; found.as_str() == want, "{found}");
    Ok(())
}

// So many ticks, one at each time.
fn ticks(alloc: Global, count: u32) -> Result<String, AllocError> {
    let mut text = String::new(alloc);
    for at in 0..count {
        let line = format!(in alloc; "{at},tick,\n")?;
        text.push_str(line.as_str())?;
    }
    Ok(text)
}

#[test]
fn as_many_events_as_may_be(rt: HostRuntime) -> Result<(), Fail> {
    let cases = [
        (100_000, "0|0,bind,s1,a\n0,bind,s2,a\nend,total,2,0\n|"),
        (100_001, "3||ras: events: line 100002: many\n"),
    ];
    let plan = planned(rt.alloc(), r#""s1":"a","s2":"a""#, 4)?;
    for (count, want) in cases {
        let lines = ticks(rt.alloc(), count)?;
        let region = two_servers(UNBOUND);
        let found = moved(rt.alloc(), region, plan.as_str(), lines.as_str(), &[])?;
        assert!(rt; found.as_str() == want, "{count}: {found}");
    }
    Ok(())
}

#[test]
fn events_without_a_head(rt: HostRuntime) -> Result<(), Fail> {
    let region = two_servers(UNBOUND);
    let requests = requests(rt.alloc(), region.take, region.reservations)?;
    let plan = planned(rt.alloc(), r#""s1":"a","s2":"a""#, 4)?;
    let texts = Texts {
        inventory: region.inventory,
        requests: requests.as_str(),
        bindings: region.bindings,
        plan: plan.as_str(),
    };
    let found = told_move(rt.alloc(), texts, "0,tick,\n", &[])?;
    assert!(rt;
        found.as_str() == "3||ras: events: line 1: head\n",
        "{found}"
    );
    Ok(())
}

// Requests of a reservation that no loss has to leave what it needs, and a document that gives it the server that it lacks.
const UNPROTECTED: &str = concat!(
    r#"{"format":2,"moves":{"take":1,"idle":5,"busy":50},"#,
    r#""reservations":[{"name":"a","need":1,"protection":"none","values":{"t":1}}]}"#,
);

const UNPROTECTED_PLAN: &str = concat!(
    r#"{"answer":"plan","format":2,"gap":6,"grouping":"class","nodes":100,"protection":{"a":"none"},"racks":4,"#,
    r#""region":{"assignment":{"s2":"a"},"gap":6,"lower":0,"tree":[["bound",1,[]]],"value":6}}"#,
);

#[test]
fn one_server_in_place_of_another(rt: HostRuntime) -> Result<(), Fail> {
    let texts = Texts {
        inventory: TWO,
        requests: UNPROTECTED,
        bindings: "server,reservation,busy,up\ns1,a,0,1\n",
        plan: UNPROTECTED_PLAN,
    };
    let lines = "at,event,server\n0,tick,\n1,joined,s2\n";
    let found = told_move(rt.alloc(), texts, lines, &[])?;
    assert!(rt;
        found.as_str() == "0|0,bind,s2,a\n1,drain,s1,a\nend,total,2,0\n|",
        "{found}"
    );
    Ok(())
}
