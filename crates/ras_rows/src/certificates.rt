//! Plans of least cost and refutations, each with a certificate that was made by hand.
use crate::documents::{SIX, THREE, UNBOUND, document, one_request, requests};
use crate::runs::{Texts, told};
use std::test::Fail;

const ALL: &str = r#""assignment":{"s1":"a","s2":"a","s3":"a","s4":"a","s5":"a","s6":"a"}"#;

const HALF: &str = r#""assignment":{"s1":"a","s3":"a","s5":"a"}"#;

#[test]
fn five_costs(rt: HostRuntime) -> Result<(), Fail> {
    let cases = [
        (
            "",
            r#"{HALF,"gap":0,"lower":3,"tree":[["bound",20,[7,1,8,1,9,1]]],"value":3}"#,
            "0|yes plan\nregion value 3 lower 3 gap 0\n|",
        ),
        (
            r#","buffer_weight":2"#,
            r#"{HALF,"gap":0,"lower":23,"tree":[["bound",20,[8,2,9,21,10,21,11,19]]],"value":23}"#,
            "0|yes plan\nregion value 23 lower 23 gap 0\n|",
        ),
        (
            r#","spread_limit":5,"spread_weight":1"#,
            r#"{HALF,"gap":0,"lower":18,"tree":[["bound",20,[7,11,8,11,9,11,10,20,11,20,12,20]]],"value":18}"#,
            "0|yes plan\nregion value 18 lower 18 gap 0\n|",
        ),
        (
            r#","near":[{"datacenter":"d1","least":60,"weight":1}]"#,
            r#"{ALL,"gap":0,"lower":6,"tree":[["bound",10,[10,1]]],"value":6}"#,
            "0|yes plan\nregion value 6 lower 6 gap 0\n|",
        ),
        (
            r#","near":[{"datacenter":"d9","least":7,"weight":3}]"#,
            r#"{HALF,"gap":0,"lower":24,"tree":[["bound",20,[7,1,8,1,9,1,10,60]]],"value":24}"#,
            "0|yes plan\nregion value 24 lower 24 gap 0\n|",
        ),
        (
            r#","buffer_weight":2"#,
            r#"{HALF,"gap":0,"lower":3,"tree":[["bound",20,[7,1,8,1,9,1]]],"value":3}"#,
            "1|no value region stated 3 found 23\n|",
        ),
    ];
    for (further, part, want) in cases {
        let requests = one_request(rt.alloc(), 1, 20, 10, further)?;
        let part = part.replace(rt.alloc(), "ALL", ALL)?;
        let part = part.as_str().replace(rt.alloc(), "HALF", HALF)?;
        let plan = document(rt.alloc(), "plan", "class", 0, 100, part.as_str())?;
        let texts = Texts {
            inventory: SIX,
            requests: requests.as_str(),
            bindings: UNBOUND,
            plan: plan.as_str(),
        };
        let found = told(rt.alloc(), texts)?;
        assert!(rt; found.as_str() == want, "{plan}: {found}");
    }
    Ok(())
}

#[test]
fn small_regions(rt: HostRuntime) -> Result<(), Fail> {
    let head = "server,type,rack,switchboard,datacenter\n";
    let two = "server,type,rack,switchboard,datacenter\ns1,t,k1,m1,d1\ns2,t,k1,m1,d1\n";
    let cases = [
        (
            SIX,
            (41, 10),
            ("infeasible", "class"),
            r#"{"tree":[["refute",1,[7,1]]]}"#,
            "0|yes infeasible\n|",
        ),
        (
            SIX,
            (41, 10),
            ("infeasible", "single"),
            r#"{"tree":[["refute",1,[13,1]]]}"#,
            "0|yes infeasible\n|",
        ),
        (
            SIX,
            (40, 10),
            ("infeasible", "class"),
            r#"{"tree":[["refute",1,[7,1]]]}"#,
            "1|no tree region node 0 weak\n|",
        ),
        (
            SIX,
            (41, 10),
            ("infeasible", "class"),
            r#"{"tree":[["bound",1,[7,1]]]}"#,
            "1|no open node 0\n|",
        ),
        (
            two,
            (1, 1),
            ("infeasible", "class"),
            r#"{"tree":[["refute",1,[3,1]]]}"#,
            "0|yes infeasible\n|",
        ),
        (
            two,
            (1, 1),
            ("infeasible", "single"),
            r#"{"tree":[["refute",1,[5,1]]]}"#,
            "0|yes infeasible\n|",
        ),
        (
            head,
            (0, 1),
            ("plan", "class"),
            r#"{"assignment":{},"gap":0,"lower":0,"tree":[["bound",1,[]]],"value":0}"#,
            "0|yes plan\nregion value 0 lower 0 gap 0\n|",
        ),
        (
            head,
            (1, 1),
            ("infeasible", "class"),
            r#"{"tree":[["refute",1,[0,1]]]}"#,
            "0|yes infeasible\n|",
        ),
        (
            SIX,
            (0, 10),
            ("plan", "class"),
            r#"{"assignment":{},"gap":0,"lower":0,"tree":[["bound",1,[]]],"value":0}"#,
            "0|yes plan\nregion value 0 lower 0 gap 0\n|",
        ),
        (
            SIX,
            (35, 10),
            ("plan", "class"),
            r#"{ALL,"gap":0,"lower":6,"tree":[["bound",20,[7,1,8,1,9,1]]],"value":6}"#,
            "0|yes plan\nregion value 6 lower 6 gap 0\n|",
        ),
        (
            SIX,
            (35, 10),
            ("plan", "single"),
            r#"{ALL,"gap":0,"lower":6,"tree":[["bound",20,[13,1,14,1,15,1]]],"value":6}"#,
            "0|yes plan\nregion value 6 lower 6 gap 0\n|",
        ),
    ];
    for (inventory, (need, value), (answer, grouping), part, want) in cases {
        let requests = one_request(rt.alloc(), 1, need, value, "")?;
        let part = part.replace(rt.alloc(), "ALL", ALL)?;
        let plan = document(rt.alloc(), answer, grouping, 0, 100, part.as_str())?;
        let texts = Texts {
            inventory,
            requests: requests.as_str(),
            bindings: UNBOUND,
            plan: plan.as_str(),
        };
        let found = told(rt.alloc(), texts)?;
        assert!(rt; found.as_str() == want, "{plan}: {found}");
    }
    Ok(())
}

#[test]
fn held_servers(rt: HostRuntime) -> Result<(), Fail> {
    let four = concat!(
        "server,type,rack,switchboard,datacenter\n",
        "s1,t,k1,m1,d1\ns2,t,k1,m1,d1\ns3,t,k2,m2,d1\ns4,t,k2,m2,d1\n",
    );
    let last_again = concat!(
        "server,type,rack,switchboard,datacenter\n",
        "s1,t,k1,m1,d1\ns2,t,k2,m2,d1\ns3,t,k3,m3,d1\ns4,t,k1,m1,d1\n",
    );
    let one = r#"{"name":"a","need":10,"values":{"t":5}}"#;
    let both = r#"{"name":"a","need":1,"values":{"t":1}},{"name":"b","need":1,"values":{"t":1}}"#;
    let cases = [
        (
            last_again,
            one,
            "s1,a,0,1\ns2,a,0,1\ns3,a,0,1\n",
            6,
            r#"{"assignment":{"s2":"a","s3":"a","s4":"a"},"gap":6,"lower":0,"tree":[["bound",1,[]]],"value":6}"#,
            "0|yes plan\nregion value 6 lower 0 gap 6\n|",
        ),
        (
            last_again,
            one,
            "s1,a,0,1\ns2,a,0,1\ns3,a,0,1\ns4,,0,0\n",
            6,
            r#"{"assignment":{"s2":"a","s3":"a","s4":"a"},"gap":6,"lower":0,"tree":[["bound",1,[]]],"value":6}"#,
            "1|no serves region s4\n|",
        ),
        (
            four,
            both,
            "s1,a,0,1\ns2,b,0,1\ns3,a,0,1\ns4,b,0,1\n",
            10,
            r#"{"assignment":{"s1":"b","s2":"a","s3":"a","s4":"b"},"gap":10,"lower":0,"tree":[["bound",1,[]]],"value":10}"#,
            "0|yes plan\nregion value 10 lower 0 gap 10\n|",
        ),
        (
            four,
            both,
            "s1,a,1,1\ns2,a,0,1\ns3,a,0,1\ns4,b,0,1\n",
            0,
            r#"{"assignment":{"s1":"a","s2":"b","s3":"a","s4":"b"},"gap":0,"lower":5,"tree":[["bound",1,[13,5]]],"value":5}"#,
            "0|yes plan\nregion value 5 lower 5 gap 0\n|",
        ),
        (
            THREE,
            r#"{"name":"a","need":1,"values":{"t":1}}"#,
            "s1,old,0,1\n",
            1,
            r#"{"assignment":{"s1":"a","s2":"a"},"gap":1,"lower":1,"tree":[["bound",1,[8,1]]],"value":2}"#,
            "0|yes plan\nregion value 2 lower 1 gap 1\n|",
        ),
    ];
    for (inventory, list, lines, gap, part, want) in cases {
        let requests = requests(rt.alloc(), 1, list)?;
        let bindings = format!(in rt.alloc(); "{UNBOUND}{lines}")?;
        let plan = document(rt.alloc(), "plan", "class", gap, 100, part)?;
        let texts = Texts {
            inventory,
            requests: requests.as_str(),
            bindings: bindings.as_str(),
            plan: plan.as_str(),
        };
        let found = told(rt.alloc(), texts)?;
        assert!(rt; found.as_str() == want, "{plan}: {found}");
    }
    Ok(())
}
