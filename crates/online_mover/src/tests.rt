use crate::{Event, Timed, read_events};
use ras_inventory::read_region;
use std::test::Fail;

const REGION: &[u8] = b"server,type,rack,switchboard,datacenter\ns1,t,k1,m1,d1\ns2,t,k2,m2,d1\n";

#[test]
fn each_word_of_an_event(rt: HostRuntime) -> Result<(), Fail> {
    let region = read_region(rt.alloc(), REGION).ok().ok_or("a region")?;
    let file = b"at,event,server\r\n0,tick,\r\n0,drained,s1\r\n3,refused,s2\r\n3,joined,s1\r\n\
        4,join-failed,s2\r\n9007199254740992,down,s1\r\n9007199254740992,up,s2\r\n";
    let events = read_events(rt.alloc(), &region, file).ok().ok_or("events")?;
    let wanted = [
        Timed {
            at: 0,
            event: Event::Tick,
        },
        Timed {
            at: 0,
            event: Event::Drained(0),
        },
        Timed {
            at: 3,
            event: Event::Refused(1),
        },
        Timed {
            at: 3,
            event: Event::Joined(0),
        },
        Timed {
            at: 4,
            event: Event::JoinFailed(1),
        },
        Timed {
            at: 9_007_199_254_740_992,
            event: Event::Down(0),
        },
        Timed {
            at: 9_007_199_254_740_992,
            event: Event::Up(1),
        },
    ];
    assert!(rt; events.as_slice() == wanted.as_slice());
    Ok(())
}

#[test]
fn first_faults(rt: HostRuntime) -> Result<(), Fail> {
    let region = read_region(rt.alloc(), REGION).ok().ok_or("a region")?;
    for (file, told) in [
        ("", "line 1: head"),
        ("at,event\n", "line 1: head"),
        ("at,event,server\n0,tick\n", "line 2: columns 2"),
        ("at,event,server\n0,tick,\nx,fly,s9\n", "line 3: column 1"),
        ("at,event,server\n0,fly,s9\n", "line 2: word"),
        ("at,event,server\n5,tick,\n4,down,s9\n", "line 3: unknown"),
        ("at,event,server\n0,tick,s1\n", "line 2: unknown"),
        ("at,event,server\n0,down,\n", "line 2: unknown"),
        ("at,event,server\n5,tick,\n4,tick,\n", "line 3: order"),
    ] {
        if file.len() > 100 {
            return Err(Fail::from("a short file"));
        }
        let fault = read_events(rt.alloc(), &region, file.as_bytes())
            .err()
            .ok_or("a fault")?;
        let shown = format!(in rt.alloc(); "{fault}")?;
        assert_eq!(rt; shown.as_str(), told);
    }
    Ok(())
}
