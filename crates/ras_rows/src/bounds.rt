//! Files and programs as large as they may be, and larger by one.
use crate::documents::{SIX, UNBOUND, document, one_request};
use crate::runs::{Texts, told};
use std::alloc::{AllocError, Global};
use std::test::Fail;

// An inventory of so many servers on one switchboard.
fn servers(alloc: Global, count: u32) -> Result<String, AllocError> {
    let mut text = String::from_str(alloc, "server,type,rack,switchboard,datacenter\n")?;
    for i in 0..count {
        let line = format!(in alloc; "s{i},t,k,m,d\n")?;
        text.push_str(line.as_str())?;
    }
    Ok(text)
}

#[test]
fn programs_of_the_largest_size(rt: HostRuntime) -> Result<(), Fail> {
    let cases = [
        (
            1023,
            "single",
            "0|yes plan\nregion value 0 lower 0 gap 0\n|",
        ),
        (1024, "single", "1|no size region\n|"),
        (1024, "class", "0|yes plan\nregion value 0 lower 0 gap 0\n|"),
        (
            20_000,
            "class",
            "0|yes plan\nregion value 0 lower 0 gap 0\n|",
        ),
        (20_001, "class", "3||ras: inventory: line 20002: many\n"),
    ];
    let requests = one_request(rt.alloc(), 1, 0, 1, "")?;
    let part = r#"{"assignment":{},"gap":0,"lower":0,"tree":[["bound",1,[]]],"value":0}"#;
    for (count, grouping, want) in cases {
        let inventory = servers(rt.alloc(), count)?;
        let plan = document(rt.alloc(), "plan", grouping, 0, 100, part)?;
        let texts = Texts {
            inventory: inventory.as_str(),
            requests: requests.as_str(),
            bindings: UNBOUND,
            plan: plan.as_str(),
        };
        let found = told(rt.alloc(), texts)?;
        assert!(rt; found.as_str() == want, "{count} {grouping}: {found}");
    }
    Ok(())
}

// A tree that splits one column so many times, each time off its least number.
fn chain(alloc: Global, column: u32, splits: u32) -> Result<String, AllocError> {
    let mut text = String::from_str(alloc, "[")?;
    for at in 0..splits {
        let node = format!(in alloc;
            "[\"split\",{column},{at},{},{}],[\"bound\",1,[]],",
            u64::from(at) * 2 + 1,
            u64::from(at) * 2 + 2
        )?;
        text.push_str(node.as_str())?;
    }
    text.push_str("[\"bound\",1,[]]]")?;
    Ok(text)
}

#[test]
fn a_chain_of_splits(rt: HostRuntime) -> Result<(), Fail> {
    let near = r#","near":[{"datacenter":"d1","least":20000,"weight":1}]"#;
    let requests = one_request(rt.alloc(), 1, 0, 10, near)?;
    let cases = [
        (
            10_000,
            "0|yes plan\nregion value 20000 lower 0 gap 20000\n|",
        ),
        (20_001, "1|no tree region node 40000 at\n|"),
    ];
    for (splits, want) in cases {
        let tree = chain(rt.alloc(), 6, splits)?;
        let part = format!(in rt.alloc();
            "{{\"assignment\":{{}},\"gap\":20000,\"lower\":0,\"tree\":{tree},\"value\":20000}}"
        )?;
        let plan = document(rt.alloc(), "plan", "class", 20000, 100, part.as_str())?;
        let texts = Texts {
            inventory: SIX,
            requests: requests.as_str(),
            bindings: UNBOUND,
            plan: plan.as_str(),
        };
        let found = told(rt.alloc(), texts)?;
        assert!(rt; found.as_str() == want, "{splits}: {found}");
    }
    Ok(())
}

// A text with blanks behind it, so that it has so many bytes, where it has no more.
fn padded(alloc: Global, text: &str, bytes: usize) -> Result<String, AllocError> {
    let blanks = " ".repeat(alloc, bytes.saturating_sub(text.len()))?;
    format!(in alloc; "{text}{blanks}")
}

#[test]
fn files_of_the_largest_size(rt: HostRuntime) -> Result<(), Fail> {
    let mebibyte = 1024 * 1024;
    let long = "8||ras: file too long\n";
    let cases = [
        (16 * mebibyte, 64 * mebibyte, "0|yes infeasible\n|"),
        (16 * mebibyte + 1, 0, long),
        (0, 64 * mebibyte + 1, long),
    ];
    let requests = one_request(rt.alloc(), 1, 41, 10, "")?;
    let tree = r#"{"tree":[["refute",1,[7,1]]]}"#;
    let plan = document(rt.alloc(), "infeasible", "class", 0, 100, tree)?;
    for (most, most_of_plan, want) in cases {
        let requests = padded(rt.alloc(), requests.as_str(), most)?;
        let plan = padded(rt.alloc(), plan.as_str(), most_of_plan)?;
        let texts = Texts {
            inventory: SIX,
            requests: requests.as_str(),
            bindings: UNBOUND,
            plan: plan.as_str(),
        };
        let found = told(rt.alloc(), texts)?;
        assert!(rt; found.as_str() == want, "{most} {most_of_plan}: {found}");
    }
    Ok(())
}
