//! Small regions that `solve` plans, and what `check` says of what it prints.
use crate::documents::{SIX, UNBOUND, one_request};
use crate::runs::{Texts, solve};
pub(crate) use memory_runs::SOLVE;
use std::test::Fail;

const HEAD: &str = "server,type,rack,switchboard,datacenter\n";

// One switchboard with two servers.
const ONE_BOARD: &str = "server,type,rack,switchboard,datacenter\ns1,t,k1,m1,d1\ns2,t,k1,m1,d1\n";

#[test]
fn needs(rt: HostRuntime) -> Result<(), Fail> {
    let cases = [
        (
            (SIX, 40, 10),
            r#""assignment":{"s1":"a","s2":"a","s3":"a","s4":"a","s5":"a","s6":"a"}"#,
            "0||0|yes plan\nregion value 6 lower 6 gap 0\n|",
        ),
        ((SIX, 41, 10), "\"infeasible\"", "4||0|yes infeasible\n|"),
        (
            (ONE_BOARD, 1, 1),
            "\"infeasible\"",
            "4||0|yes infeasible\n|",
        ),
        (
            (SIX, 0, 10),
            r#""assignment":{}"#,
            "0||0|yes plan\nregion value 0 lower 0 gap 0\n|",
        ),
        (
            (HEAD, 0, 1),
            r#""assignment":{}"#,
            "0||0|yes plan\nregion value 0 lower 0 gap 0\n|",
        ),
        ((HEAD, 1, 1), "\"infeasible\"", "4||0|yes infeasible\n|"),
        (
            (SIX, 35, 10),
            r#""assignment":{"s1":"a","s2":"a","s3":"a","s4":"a","s5":"a","s6":"a"}"#,
            "0||0|yes plan\nregion value 6 lower 6 gap 0\n|",
        ),
    ];
    for ((inventory, need, value), part, want) in cases {
        let requests = one_request(rt.alloc(), 1, need, value, "")?;
        let texts = Texts {
            inventory,
            requests: requests.as_str(),
            bindings: UNBOUND,
            plan: "",
        };
        let found = solve(rt.alloc(), SOLVE.as_slice(), texts)?;
        assert!(rt; found.told.as_str() == want, "{need}: {}", found.told);
        assert!(rt; found.document.contains(part), "{need}: {}", found.document);
    }
    Ok(())
}
