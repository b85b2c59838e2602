//! Notes on files that are not valid: which file, at which place, and why.
use crate::documents::{SIX, UNBOUND};
use crate::runs::{Texts, told};
use std::test::Fail;

const NO_REQUESTS: &str = r#"{"format":1,"moves":{"take":1,"idle":5,"busy":50},"reservations":[]}"#;

#[test]
fn faults_of_tables(rt: HostRuntime) -> Result<(), Fail> {
    let head = "server,type,rack,switchboard,datacenter\n";
    let cases = [
        ("", UNBOUND, "3||ras: inventory: line 1: head\n"),
        (
            "s1,t,k1,m1,d1\n",
            UNBOUND,
            "3||ras: inventory: line 1: head\n",
        ),
        (
            "HEADs1,t,k1,m1,d1\ns2,t,,m1,d1\n",
            UNBOUND,
            "3||ras: inventory: line 3: column 3\n",
        ),
        (
            "HEADs1,t,k1,m1,d1\ns2,t,k2,m1,d2\n",
            UNBOUND,
            "3||ras: inventory: line 3: switchboard moved\n",
        ),
        (
            "HEADs1,t,k1,m1,d1\n",
            "",
            "3||ras: bindings: line 1: head\n",
        ),
        (
            "HEADs1,t,k1,m1,d1\n",
            "server,reservation,up,busy\n",
            "3||ras: bindings: line 1: head\n",
        ),
        (
            "HEADs1,t,k1,m1,d1\n",
            "server,reservation,busy,up\ns1,a,0\n",
            "3||ras: bindings: line 2: columns 3\n",
        ),
        (
            "HEADs1,t,k1,m1,d1\n",
            "server,reservation,busy,up\ns1,,0,yes\n",
            "3||ras: bindings: line 2: column 4\n",
        ),
        (
            "HEADs1,t,k1,m1,d1\n",
            "server,reservation,busy,up\ns1,,0,1\ns1,,0,1\n",
            "3||ras: bindings: line 3: twice\n",
        ),
    ];
    for (servers, bindings, want) in cases {
        let inventory = servers.replace(rt.alloc(), "HEAD", head)?;
        let texts = Texts {
            inventory: inventory.as_str(),
            requests: NO_REQUESTS,
            bindings,
            plan: "{}",
        };
        let found = told(rt.alloc(), texts)?;
        assert!(rt; found.as_str() == want, "{inventory}{bindings}: {found}");
    }
    Ok(())
}

#[test]
fn faults_of_requests(rt: HostRuntime) -> Result<(), Fail> {
    let top = r#"{"format":1,"moves":{"take":1,"idle":5,"busy":50},"reservations":["#;
    let cases = [
        ("", "3||ras: requests: place 0: not json\n"),
        ("[]", "3||ras: requests: place 0: shape\n"),
        (r#"TOP],"more":0}"#, "3||ras: requests: place 0: shape\n"),
        (
            r#"{"format":3,"moves":{"take":1,"idle":5,"busy":50},"reservations":[]}"#,
            "3||ras: requests: place 0: format\n",
        ),
        (
            r#"{"format":1,"moves":{"take":1,"idle":5,"busy":10001},"reservations":[]}"#,
            "3||ras: requests: place 0: range\n",
        ),
        (
            r#"TOP{"name":"a","need":0}]}"#,
            "3||ras: requests: place 1: shape\n",
        ),
        (
            r#"TOP{"name":"a","need":0,"values":{},"near":[WISHES]}]}"#,
            "3||ras: requests: place 1: many\n",
        ),
        (
            r#"TOP{"name":"a","need":0,"values":{},"near":[WISH,WISH]}]}"#,
            "3||ras: requests: place 1: twice\n",
        ),
        (
            r#"TOP{"name":"a","need":0,"values":{}},{"name":"a","need":0,"values":{}}]}"#,
            "3||ras: requests: place 2: twice\n",
        ),
    ];
    let wish = r#"{"datacenter":"d1","least":1,"weight":1}"#;
    let sixteen = "WISH,".repeat(rt.alloc(), 16)?;
    let seventeen = format!(in rt.alloc(); "{sixteen}WISH")?;
    for (text, want) in cases {
        let text = text.replace(rt.alloc(), "TOP", top)?;
        let text = text
            .as_str()
            .replace(rt.alloc(), "WISHES", seventeen.as_str())?;
        let text = text.as_str().replace(rt.alloc(), "WISH", wish)?;
        let texts = Texts {
            inventory: SIX,
            requests: text.as_str(),
            bindings: UNBOUND,
            plan: "{}",
        };
        let found = told(rt.alloc(), texts)?;
        assert!(rt; found.as_str() == want, "{text}: {found}");
    }
    Ok(())
}

// A document with a rack part whose form is right.
const RIGHT: &str =
    r#"{"answer":"plan","format":1,"gap":0,"grouping":"class","nodes":100,"racks":4,"region":{"assignment":{"s1":"a","s3":"a"},"gap":0,"lower":2,"tree":[["bound",1,[7,1]]],"value":2},"rack":{"assignment":{"s5":"a"},"chosen":["a"],"gap":0,"lower":3,"tree":[["bound",1,[9,1]]],"value":3}}"#;

#[test]
fn faults_of_documents(rt: HostRuntime) -> Result<(), Fail> {
    let cases = [
        (r#"{"answer":"plan","#, "{", "top: shape"),
        (r#""plan""#, r#""limits""#, "top: shape"),
        (r#""class""#, r#""servers""#, "top: shape"),
        (r#""nodes":100"#, r#""nodes":1.5"#, "top: shape"),
        (r#""plan""#, r#""infeasible""#, "top: shape"),
        (r#""format":1"#, r#""format":3"#, "top: format"),
        (r#""racks":4"#, r#""racks":65"#, "top: range"),
        (r#""nodes":100"#, r#""nodes":0"#, "top: range"),
        (r#""nodes":100"#, r#""nodes":20001"#, "top: range"),
        (
            r#""gap":0,"grouping""#,
            r#""gap":1000000000001,"grouping""#,
            "top: range",
        ),
        (r#""lower":2"#, r#""bound":2"#, "region: shape"),
        (
            r#""value":2"#,
            r#""value":4611686018427387905"#,
            "region: range",
        ),
        (
            r#"["bound",1,[7,1]]"#,
            r#"["bound",1,[2048,1]]"#,
            "region node 0: range",
        ),
        (r#""chosen":["a"],"#, "", "rack: shape"),
        (r#""chosen":["a"]"#, r#""chosen":[]"#, "rack: shape"),
        (
            r#""lower":3"#,
            r#""lower":4611686018427387905"#,
            "rack: range",
        ),
        (r#""chosen":["a"]"#, r#""chosen":["b"]"#, "rack: name"),
        (r#"{"s5":"a"}"#, r#"{"s7":"a"}"#, "rack: name"),
        (r#"[9,1]"#, r#"[9]"#, "rack node 0: shape"),
        (
            r#"["bound",1,[9,1]]"#,
            r#"["split",0,0,1,2],["bound",1,[]],["bound",0,[]]"#,
            "rack node 2: range",
        ),
    ];
    let requests =
        r#"{"format":1,"moves":{"take":1,"idle":5,"busy":50},"reservations":[{"name":"a","need":1,"values":{"t":1}}]}"#;
    for (right, wrong, place) in cases {
        let plan = RIGHT.replace(rt.alloc(), right, wrong)?;
        let texts = Texts {
            inventory: SIX,
            requests,
            bindings: UNBOUND,
            plan: plan.as_str(),
        };
        let found = told(rt.alloc(), texts)?;
        let want = format!(in rt.alloc(); "3||ras: plan: {place}\n")?;
        assert!(rt; found == want, "{plan}: {found}");
    }
    Ok(())
}
