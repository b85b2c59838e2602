//! Eight servers on four racks, whose load the rack part evens out.
use crate::documents::{UNBOUND, document, requests};
use crate::runs::{Texts, told};
use std::test::Fail;

// Eight servers of one type, two on each rack and four on each switchboard, and one of another type.
const EIGHT_AND_ONE: &str = concat!(
    "server,type,rack,switchboard,datacenter\n",
    "s1,t,k1,m1,d1\ns2,t,k1,m1,d1\ns3,t,k2,m1,d1\ns4,t,k2,m1,d1\n",
    "s5,t,k3,m2,d1\ns6,t,k3,m2,d1\ns7,t,k4,m2,d1\ns8,t,k4,m2,d1\ns9,u,k5,m2,d1\n",
);

const REGION: &str =
    r#"{"assignment":{"s1":"a","s2":"a","s5":"a","s6":"a"},"gap":0,"lower":4,"tree":[["bound",1,[7,1,8,1]]],"value":4}"#;

#[test]
fn racks_evened_out(rt: HostRuntime) -> Result<(), Fail> {
    let requests = requests(
        rt.alloc(),
        1,
        r#"{"name":"a","need":2,"rack_limit":1,"rack_weight":3,"values":{"t":1}},{"name":"b","need":0,"values":{"u":1}}"#,
    )?;
    let cases = [
        (
            r#"REGION,"rack":{"assignment":{"s1":"a","s3":"a","s5":"a","s7":"a"},"chosen":["a"],"gap":0,"lower":4,"tree":[["bound",1,[9,1,10,1]]],"value":4}"#,
            "0|yes plan\nregion value 4 lower 4 gap 0\nrack value 4 lower 4 gap 0\n|",
        ),
        ("REGION", "1|no chosen place 0\n|"),
        (
            r#"REGION,"rack":{"assignment":{"s1":"a","s3":"a","s5":"a","s7":"a"},"chosen":["b"],"gap":0,"lower":4,"tree":[["bound",1,[9,1,10,1]]],"value":4}"#,
            "1|no chosen place 0\n|",
        ),
        (
            r#"REGION,"rack":{"assignment":{"s1":"a","s3":"a","s5":"a","s7":"a"},"chosen":["a","b"],"gap":0,"lower":4,"tree":[["bound",1,[9,1,10,1]]],"value":4}"#,
            "1|no chosen place 1\n|",
        ),
        (
            r#"REGION,"rack":{"assignment":{"s1":"a","s3":"a","s5":"a","s7":"a","s9":"b"},"chosen":["a"],"gap":0,"lower":4,"tree":[["bound",1,[9,1,10,1]]],"value":4}"#,
            "1|no fixed s9\n|",
        ),
        (
            r#"REGION,"rack":{"assignment":{"s1":"a","s3":"b","s5":"a","s7":"a"},"chosen":["a"],"gap":0,"lower":4,"tree":[["bound",1,[9,1,10,1]]],"value":4}"#,
            "1|no fixed s3\n|",
        ),
        (
            r#"REGION,"rack":{"assignment":{"s1":"a","s2":"a","s5":"a","s6":"a"},"chosen":["a"],"gap":0,"lower":4,"tree":[["bound",1,[9,1,10,1]]],"value":4}"#,
            "1|no value rack stated 4 found 10\n|",
        ),
        (
            r#"REGION,"rack":{"assignment":{"s1":"a","s3":"a","s5":"a"},"chosen":["a"],"gap":0,"lower":4,"tree":[["bound",1,[9,1,10,1]]],"value":4}"#,
            "1|no need rack a m1\n|",
        ),
        (
            r#"REGION,"rack":{"assignment":{"s1":"a","s3":"a","s5":"a","s7":"a"},"chosen":["a"],"gap":0,"lower":4,"tree":[["bound",1,[9,1,15,1]]],"value":4}"#,
            "1|no tree rack node 0 row\n|",
        ),
    ];
    for (parts, want) in cases {
        let parts = parts.replace(rt.alloc(), "REGION", REGION)?;
        let plan = document(rt.alloc(), "plan", "class", 0, 100, parts.as_str())?;
        let texts = Texts {
            inventory: EIGHT_AND_ONE,
            requests: requests.as_str(),
            bindings: UNBOUND,
            plan: plan.as_str(),
        };
        let found = told(rt.alloc(), texts)?;
        assert!(rt; found.as_str() == want, "{parts}: {found}");
    }
    Ok(())
}
