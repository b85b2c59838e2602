use crate::{protection_text, read_requests};
use std::alloc::{AllocError, Global};
use std::test::Fail;

// What is told of requests with these bytes.
fn requests(alloc: Global, bytes: &[u8]) -> Result<String, AllocError> {
    if bytes.len() > 20_000 {
        return format!(in alloc; "long");
    }
    match read_requests(alloc, bytes) {
        Ok(requests) => format!(in alloc; "{} of {}", requests.list.len(), requests.moves.busy),
        Err(fault) => format!(in alloc; "{fault}"),
    }
}

#[test]
fn faults_of_the_whole(rt: HostRuntime) -> Result<(), Fail> {
    let moves = r#""moves":{"take":1,"idle":5,"busy":50}"#;
    let cases = [
        ("", "place 0: not json"),
        ("{", "place 0: not json"),
        ("[]", "place 0: shape"),
        (r#"{"format":1,MOVES}"#, "place 0: shape"),
        (r#"{"format":1,MOVES,"reservations":{}}"#, "place 0: shape"),
        (
            r#"{"format":1,MOVES,"reservations":[],"x":0}"#,
            "place 0: shape",
        ),
        (
            r#"{"format":1.0,MOVES,"reservations":[]}"#,
            "place 0: shape",
        ),
        (r#"{"format":3,MOVES,"reservations":[]}"#, "place 0: format"),
        (
            r#"{"format":3,"moves":{"take":10001,"idle":5,"busy":50},"reservations":[]}"#,
            "place 0: format",
        ),
        (
            r#"{"format":1,"moves":{"take":10001,"idle":5,"busy":50},"reservations":[7]}"#,
            "place 0: range",
        ),
        (r#"{"format":1,MOVES,"reservations":[]}"#, "0 of 50"),
    ];
    for (text, want) in cases {
        let text = text.replace(rt.alloc(), "MOVES", moves)?;
        let told = requests(rt.alloc(), text.as_bytes())?;
        assert!(rt; told.as_str() == want, "{text}: {told}");
    }
    Ok(())
}

#[test]
fn faults_of_reservations(rt: HostRuntime) -> Result<(), Fail> {
    let good =
        r#"{"name":"a","need":10000000,"values":{"t":1000},"near":[{"datacenter":"d1","least":10000000,"weight":10000}]}"#;
    let cases = [
        ("GOOD", "1 of 50"),
        ("7", "place 1: shape"),
        ("GOOD,7", "place 2: shape"),
        (r#"{"name":"a","need":1}"#, "place 1: shape"),
        (r#"{"name":"a b","need":1,"values":{}}"#, "place 1: shape"),
        (
            r#"{"name":"a","need":1,"values":{},"x":1}"#,
            "place 1: shape",
        ),
        (
            r#"{"name":"a","need":10000001,"values":{"t":-1}}"#,
            "place 1: shape",
        ),
        (
            r#"{"name":"a","need":10000001,"values":{}}"#,
            "place 1: range",
        ),
        (
            r#"{"name":"a","need":1,"values":{"t":1001}}"#,
            "place 1: range",
        ),
        (
            r#"{"name":"a","need":1,"values":{},"rack_weight":10001}"#,
            "place 1: range",
        ),
        (
            r#"{"name":"a","need":1,"values":{},"near":[{"datacenter":"d1","least":1}]}"#,
            "place 1: shape",
        ),
        (
            r#"{"name":"a","need":1,"values":{},"near":[{"datacenter":"d1","least":1,"weight":1},{"datacenter":"d1","least":1,"weight":1}]}"#,
            "place 1: twice",
        ),
        ("GOOD,GOOD", "place 2: twice"),
        (
            r#"GOOD,{"name":"a","need":10000001,"values":{}}"#,
            "place 2: range",
        ),
        (
            r#"7,{"name":"b","need":10000001,"values":{}}"#,
            "place 1: shape",
        ),
        (
            r#"{"name":"b","need":10000001,"values":{}},7"#,
            "place 1: range",
        ),
        ("GOOD,GOOD,7", "place 2: twice"),
        ("GOOD,7,GOOD", "place 2: shape"),
    ];
    for (list, want) in cases {
        let list = list.replace(rt.alloc(), "GOOD", good)?;
        let text = format!(in rt.alloc();
            "\u{FEFF}{{\"format\":1,\"moves\":{{\"take\":1,\"idle\":5,\"busy\":50}},\"reservations\":[{list}]}}"
        )?;
        let told = requests(rt.alloc(), text.as_bytes())?;
        assert!(rt; told.as_str() == want, "{text}: {told}");
    }
    Ok(())
}

// The protections of requests with these bytes, or their fault.
fn protections(alloc: Global, bytes: &[u8]) -> Result<String, AllocError> {
    if bytes.len() > 20_000 {
        return format!(in alloc; "long");
    }
    let requests = match read_requests(alloc, bytes) {
        Ok(requests) => requests,
        Err(fault) => return format!(in alloc; "{fault}"),
    };
    let mut told = String::new(alloc);
    for reservation in requests.list.as_slice() {
        told.push_str(protection_text(reservation.protection))?;
        told.push_str(" ")?;
    }
    Ok(told)
}

#[test]
fn protections_by_format(rt: HostRuntime) -> Result<(), Fail> {
    let cases = [
        (1, r#"{"name":"a",REST}"#, "switchboard "),
        (
            1,
            r#"{"name":"a",REST,"protection":"switchboard"}"#,
            "place 1: shape",
        ),
        (
            2,
            r#"{"name":"a",REST,"protection":"none"},{"name":"b",REST,"protection":"switchboard"},{"name":"c",REST,"protection":"datacenter"}"#,
            "none switchboard datacenter ",
        ),
        (2, r#"{"name":"a",REST}"#, "place 1: shape"),
        (2, r#"{"name":"a",REST,"protection":1}"#, "place 1: shape"),
        (
            2,
            r#"{"name":"a",REST,"protection":"rack"}"#,
            "place 1: range",
        ),
        (
            2,
            r#"{"name":"a",REST,"protection":"rack","x":1}"#,
            "place 1: shape",
        ),
    ];
    for (format, list, want) in cases {
        let list = list.replace(rt.alloc(), "REST", r#""need":1,"values":{"t":1}"#)?;
        let text = format!(in rt.alloc();
            "{{\"format\":{format},\"moves\":{{\"take\":1,\"idle\":5,\"busy\":50}},\"reservations\":[{list}]}}"
        )?;
        let told = protections(rt.alloc(), text.as_bytes())?;
        assert!(rt; told.as_str() == want, "{text}: {told}");
    }
    Ok(())
}

// So many entries, each with its number in the place of `#`.
fn numbered(alloc: Global, entry: &str, count: u32) -> Result<String, AllocError> {
    let mut list = String::new(alloc);
    for i in 0..count {
        if i > 0 {
            list.push_str(",")?;
        }
        let number = format!(in alloc; "{i}")?;
        let entry = entry.replace(alloc, "#", number.as_str())?;
        list.push_str(entry.as_str())?;
    }
    Ok(list)
}

#[test]
fn lists_that_are_too_long(rt: HostRuntime) -> Result<(), Fail> {
    let values = r#"{"name":"a","need":1,"values":{MANY}}"#;
    let near = r#"{"name":"a","need":1,"values":{},"near":[MANY]}"#;
    let center = r##"{"datacenter":"d#","least":1,"weight":1}"##;
    let same = r#"{"datacenter":"d","least":1,"weight":1}"#;
    let cases = [
        ("MANY", "7", 64, "place 1: shape"),
        ("MANY", "7", 65, "place 0: many"),
        (values, r##""t#":1"##, 1000, "1 of 50"),
        (values, r##""t#":1"##, 1001, "place 1: many"),
        (values, r##""t#":1001"##, 1001, "place 1: range"),
        (near, center, 16, "1 of 50"),
        (near, center, 17, "place 1: many"),
        (near, same, 16, "place 1: twice"),
        (near, same, 17, "place 1: many"),
    ];
    for (list, entry, count, want) in cases {
        let many = numbered(rt.alloc(), entry, count)?;
        let list = list.replace(rt.alloc(), "MANY", many.as_str())?;
        let text = format!(in rt.alloc();
            "{{\"format\":1,\"moves\":{{\"take\":1,\"idle\":5,\"busy\":50}},\"reservations\":[{list}]}}"
        )?;
        let told = requests(rt.alloc(), text.as_bytes())?;
        assert!(rt; told.as_str() == want, "{count} of {entry}: {told}");
    }
    Ok(())
}
