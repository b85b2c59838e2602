use crate::{Entry, read_script};
use online_mover::Event;
use ras_inventory::read_region;
use std::test::Fail;

const REGION: &[u8] = b"server,type,rack,switchboard,datacenter\ns1,t,k1,m1,d1\ns2,t,k2,m2,d1\n";

#[test]
fn rounds_and_events(rt: HostRuntime) -> Result<(), Fail> {
    let region = read_region(rt.alloc(), REGION).ok().ok_or("a region")?;
    let file = b"round,event,server\r\n1,tick,\r\n1,joined,s1\r\n3,down,s2\r\n100,tick,\r\n";
    let entries = read_script(rt.alloc(), &region, file)
        .ok()
        .ok_or("entries")?;
    let wanted = [
        Entry {
            round: 1,
            event: Event::Tick,
        },
        Entry {
            round: 1,
            event: Event::Joined(0),
        },
        Entry {
            round: 3,
            event: Event::Down(1),
        },
        Entry {
            round: 100,
            event: Event::Tick,
        },
    ];
    assert!(rt; entries.as_slice() == wanted.as_slice());
    Ok(())
}

#[test]
fn first_faults(rt: HostRuntime) -> Result<(), Fail> {
    let region = read_region(rt.alloc(), REGION).ok().ok_or("a region")?;
    for (file, told) in [
        ("", "line 1: head"),
        ("at,event,server\n", "line 1: head"),
        ("round,event,server\n1,tick\n", "line 2: columns 2"),
        ("round,event,server\n101,tick,\n", "line 2: column 1"),
        ("round,event,server\n0,fly,s9\n", "line 2: word"),
        ("round,event,server\n0,down,s9\n", "line 2: unknown"),
        ("round,event,server\n1,tick,s1\n", "line 2: unknown"),
        ("round,event,server\n0,tick,\n", "line 2: order"),
        ("round,event,server\n5,tick,\n4,tick,\n", "line 3: order"),
    ] {
        if file.len() > 100 {
            return Err(Fail::from("a short file"));
        }
        let fault = read_script(rt.alloc(), &region, file.as_bytes())
            .err()
            .ok_or("a fault")?;
        let shown = format!(in rt.alloc(); "{fault}")?;
        assert_eq!(rt; shown.as_str(), told);
    }
    Ok(())
}
