//! Runs of `ras core`, and what `check` says of each printed document over a file of the requests kept to its set.
use crate::documents::{SIX, THREE, UNBOUND, one_request, requests};
use crate::runs::{NOTHING, Outcome, Texts, ran, told, told_by};
use std::alloc::Global;
use std::test::Fail;

/// The words of `core` over the three files.
pub(crate) const CORE: [&str; 5] = ["ras", "core", "inventory", "requests", "bindings"];

const A: &str = r#"{"name":"a","need":40,"values":{"t":10}}"#;

const B: &str = r#"{"name":"b","need":10,"values":{"t":10}}"#;

// The first line of what was printed, and behind it.
fn parted(text: &str) -> (&str, &str) {
    match text.split_once('\n') {
        Some(parts) => parts,
        None => (text, ""),
    }
}

// What `check` says of each line of a text, over these requests in turn.
fn checked(alloc: Global, inventory: &str, text: &str, kept: &[String]) -> Result<String, Fail> {
    let mut found = String::new(alloc);
    let mut rest = text;
    for requests in kept {
        let (plan, later) = parted(rest);
        let texts = Texts {
            inventory,
            requests: requests.as_str(),
            bindings: UNBOUND,
            plan,
        };
        found.push_str(told(alloc, texts)?.as_str())?;
        rest = later;
    }
    found.push_str(rest)?;
    Ok(found)
}

// A run of `core` over servers and requests.
fn ran_core(alloc: Global, inventory: &str, requests: &str) -> Result<Outcome, Fail> {
    let texts = Texts {
        inventory,
        requests,
        bindings: UNBOUND,
        plan: "",
    };
    Ok(ran(alloc, CORE.as_slice(), texts, NOTHING)?)
}

#[test]
fn core_of_two(rt: HostRuntime) -> Result<(), Fail> {
    let both = format!(in rt.alloc(); "{A},{B}")?;
    let all = format!(in rt.alloc();
        "{both},{{\"name\":\"c\",\"need\":0,\"values\":{{\"t\":10}}}}"
    )?;
    let wanted = requests(rt.alloc(), 1, all.as_str())?;
    let found = ran_core(rt.alloc(), SIX, wanted.as_str())?;
    assert_eq!(rt; found.status, 0);
    assert_eq!(rt; found.noted.as_str(), "");
    let (line, documents) = parted(found.printed.as_str());
    assert_eq!(rt; line, "core a b");
    let (_, plans) = parted(documents);
    let (second, third) = parted(plans);
    let assignment = r#""assignment":{"s1":"a","s2":"a","s3":"a","s4":"a","s5":"a","s6":"a"}"#;
    assert!(rt;
        !second.contains(r#":"a""#) && second.contains(r#":"b""#),
        "{second}"
    );
    assert!(rt; third.contains(assignment), "{third}");
    let kept = vec![in rt.alloc();
        requests(rt.alloc(), 1, both.as_str())?,
        requests(rt.alloc(), 1, B)?,
        requests(rt.alloc(), 1, A)?,
    ]?;
    let verdicts = checked(rt.alloc(), SIX, documents, kept.as_slice())?;
    let want =
        "0|yes infeasible\n|0|yes plan\nregion value 2 lower 2 gap 0\n|0|yes plan\nregion value 6 lower 6 gap 0\n|";
    assert!(rt; verdicts.as_str() == want, "{verdicts}");
    Ok(())
}

#[test]
fn core_that_fits(rt: HostRuntime) -> Result<(), Fail> {
    let wanted = one_request(rt.alloc(), 2, 1, 1, "")?;
    let found = ran_core(rt.alloc(), THREE, wanted.as_str())?;
    assert_eq!(rt; found.status, 1);
    assert_eq!(rt; found.noted.as_str(), "");
    let kept = vec![in rt.alloc(); wanted]?;
    let verdicts = checked(rt.alloc(), THREE, found.printed.as_str(), kept.as_slice())?;
    assert!(rt;
        verdicts.starts_with("0|yes plan\nregion value 4 "),
        "{verdicts}"
    );
    Ok(())
}

#[test]
fn core_of_one(rt: HostRuntime) -> Result<(), Fail> {
    let wanted = one_request(rt.alloc(), 1, 41, 10, "")?;
    let found = ran_core(rt.alloc(), SIX, wanted.as_str())?;
    assert_eq!(rt; found.status, 0);
    let (line, documents) = parted(found.printed.as_str());
    assert_eq!(rt; line, "core a");
    let kept = vec![in rt.alloc(); wanted, requests(rt.alloc(), 1, "")?]?;
    let verdicts = checked(rt.alloc(), SIX, documents, kept.as_slice())?;
    let want = "0|yes infeasible\n|0|yes plan\nregion value 0 lower 0 gap 0\n|";
    assert!(rt; verdicts.as_str() == want, "{verdicts}");
    Ok(())
}

#[test]
fn invalid_files(rt: HostRuntime) -> Result<(), Fail> {
    let wanted = one_request(rt.alloc(), 1, 41, 10, "")?;
    let cases = [
        (
            ("server\n", wanted.as_str(), UNBOUND),
            "3||ras: inventory: line 1: head\n",
        ),
        (
            (SIX, "{}", "server\n"),
            "3||ras: requests: place 0: shape\n",
        ),
        (
            (
                SIX,
                wanted.as_str(),
                "server,reservation,busy,up\ns9,a,0,1\n",
            ),
            "3||ras: bindings: line 2: unknown\n",
        ),
    ];
    for ((inventory, requests, bindings), want) in cases {
        let texts = Texts {
            inventory,
            requests,
            bindings,
            plan: "",
        };
        let found = told_by(rt.alloc(), CORE.as_slice(), texts, NOTHING)?;
        assert!(rt; found.as_str() == want, "{found}");
    }
    Ok(())
}
