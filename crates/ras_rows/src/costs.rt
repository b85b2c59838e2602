//! What moves, protection, spread and nearness cost in the plans of `solve`.
use crate::documents::{FOUR, SIX, TWO, UNBOUND, one_request, requests};
use crate::runs::{Texts, solve};
use crate::solving::SOLVE;
use std::test::Fail;

#[test]
fn five_costs(rt: HostRuntime) -> Result<(), Fail> {
    let cases = [
        ("", "0||0|yes plan\nregion value 3 lower 3 gap 0\n|"),
        (
            ",\"buffer_weight\":2",
            "0||0|yes plan\nregion value 23 lower 23 gap 0\n|",
        ),
        (
            ",\"spread_limit\":5,\"spread_weight\":1",
            "0||0|yes plan\nregion value 18 lower 18 gap 0\n|",
        ),
        (
            r#","near":[{"datacenter":"d1","least":60,"weight":1}]"#,
            "0||0|yes plan\nregion value 6 lower 6 gap 0\n|",
        ),
        (
            r#","near":[{"datacenter":"d9","least":7,"weight":3}]"#,
            "0||0|yes plan\nregion value 24 lower 24 gap 0\n|",
        ),
    ];
    for (further, want) in cases {
        let requests = one_request(rt.alloc(), 1, 20, 10, further)?;
        let texts = Texts {
            inventory: SIX,
            requests: requests.as_str(),
            bindings: UNBOUND,
            plan: "",
        };
        let found = solve(rt.alloc(), SOLVE.as_slice(), texts)?;
        assert!(rt; found.told.as_str() == want, "{further}: {}", found.told);
    }
    Ok(())
}

#[test]
fn moves(rt: HostRuntime) -> Result<(), Fail> {
    let cases = [
        (
            FOUR,
            (
                1,
                r#"{"name":"a","need":1,"values":{"t":1}},{"name":"b","need":1,"values":{"t":1}}"#,
            ),
            "server,reservation,busy,up\ns1,a,1,1\ns2,a,0,1\ns3,a,0,1\ns4,b,0,1\n",
            r#""assignment":{"s1":"a","s2":"b","s3":"a","s4":"b"}"#,
            "0||0|yes plan\nregion value 5 lower 5 gap 0\n|",
        ),
        (
            TWO,
            (2, r#"{"name":"a","need":1,"values":{"t":1}}"#),
            "server,reservation,busy,up\ns1,old,0,1\n",
            r#""assignment":{"s1":"a","s2":"a"}"#,
            "0||0|yes plan\nregion value 4 lower 4 gap 0\n|",
        ),
    ];
    for (inventory, (take, reservations), bindings, part, want) in cases {
        let requests = requests(rt.alloc(), take, reservations)?;
        let texts = Texts {
            inventory,
            requests: requests.as_str(),
            bindings,
            plan: "",
        };
        let found = solve(rt.alloc(), SOLVE.as_slice(), texts)?;
        assert!(rt; found.told.as_str() == want, "{}", found.told);
        assert!(rt; found.document.contains(part), "{}", found.document);
    }
    Ok(())
}
