//! What the mover does at each event: its commands or `stale`, the cause at each server, and whether each reservation is
//! protected.
use crate::machine::{case_of, lines, mover_of};
use memory_runs::{FOUR, THREE_AND_ONE, TWO, requests};
use online_mover::Event;
use plan_model::Assignment;
use ras_table::List;
use std::alloc::{AllocError, Global};
use std::test::Fail;

// A region, what is asked for of it, who holds its servers, and where each is to go.
#[derive(Clone, Copy)]
struct Setting<'a> {
    inventory: &'a str,
    requests: &'a str,
    bindings: &'a str,
    target: &'a [Option<u32>],
}

// What these events do, where at most so many servers are in flight.
fn told(
    alloc: Global,
    setting: Setting<'_>,
    at_once: u32,
    events: &[Event],
) -> Result<String, Fail> {
    if setting.target.len() > 100 || at_once == 0 || at_once > 64 {
        return Err(Fail::from("few servers"));
    }
    let case = case_of(alloc, setting.inventory, setting.requests, setting.bindings)?;
    let target = Assignment {
        of: List::from_vec(Vec::from_slice(alloc, setting.target)?),
    };
    let mover = mover_of(alloc, &case, &target, at_once)?;
    lines(alloc, &case, mover, events)
}

// Two servers on two switchboards of one datacenter, and a third in another.
const TWO_AND_ONE: &str = concat!(
    "server,type,rack,switchboard,datacenter\n",
    "s1,t,k1,m1,d1\ns2,t,k2,m2,d1\ns3,t,k3,m3,d2\n",
);

// Requests of one reservation that needs one server, and this protection.
fn protected_by(alloc: Global, protection: &str) -> Result<String, AllocError> {
    format!(in alloc;
        "{{\"format\":2,\"moves\":{{\"take\":1,\"idle\":5,\"busy\":50}},\"reservations\":[{{\"name\":\"a\",\"need\":1,\"protection\":\"{protection}\",\"values\":{{\"t\":1}}}}]}}"
    )
}

#[test]
fn holder_that_is_gone(rt: HostRuntime) -> Result<(), Fail> {
    let requests = requests(rt.alloc(), 2, r#"{"name":"a","need":1,"values":{"t":1}}"#)?;
    let setting = Setting {
        inventory: TWO,
        requests: requests.as_str(),
        bindings: "server,reservation,busy,up\ns1,old,0,1\n",
        target: &[Some(0), Some(0)],
    };
    let events = [
        Event::Tick,
        Event::Drained(0),
        Event::Joined(0),
        Event::Joined(1),
    ];
    let cases = [
        (
            8,
            "drain 0 bind 1 0 | ..| -\nbind 0 0 | ..| -\n| ..| -\n| ..| +\n",
        ),
        (
            1,
            "drain 0 | .full | -\nbind 0 0 | .full | -\nbind 1 0 | ..| -\n| ..| +\n",
        ),
    ];
    for (at_once, want) in cases {
        let found = told(rt.alloc(), setting, at_once, &events)?;
        assert!(rt; found.as_str() == want, "{found}");
    }
    Ok(())
}

#[test]
fn bind_first_drain_later(rt: HostRuntime) -> Result<(), Fail> {
    let requests = requests(rt.alloc(), 1, r#"{"name":"a","need":10,"values":{"t":5}}"#)?;
    let setting = Setting {
        inventory: THREE_AND_ONE,
        requests: requests.as_str(),
        bindings: "server,reservation,busy,up\ns1,a,0,1\ns2,a,0,1\ns3,a,0,1\n",
        target: &[None, Some(0), Some(0), Some(0)],
    };
    let joined = [
        Event::Tick,
        Event::Joined(3),
        Event::Joined(3),
        Event::Drained(0),
    ];
    let doubled = [
        Event::Tick,
        Event::Tick,
        Event::Joined(3),
        Event::Joined(3),
        Event::Drained(0),
        Event::Drained(0),
    ];
    let failed = [Event::Tick, Event::JoinFailed(3), Event::Tick];
    let cases = [
        (
            joined.as_slice(),
            "bind 3 0 | unsafe 0 ...| +\ndrain 0 | ....| +\nstale | ....| +\n| ....| +\n",
        ),
        (
            doubled.as_slice(),
            concat!(
                "bind 3 0 | unsafe 0 ...| +\n| unsafe 0 ...| +\n",
                "drain 0 | ....| +\nstale | ....| +\n| ....| +\nstale | ....| +\n",
            ),
        ),
        (
            failed.as_slice(),
            "bind 3 0 | unsafe 0 ...| +\n| unsafe 0 ..waiting | +\nbind 3 0 | unsafe 0 ...| +\n",
        ),
    ];
    for (events, want) in cases {
        let found = told(rt.alloc(), setting, 8, events)?;
        assert!(rt; found.as_str() == want, "{found}");
    }
    Ok(())
}

#[test]
fn swap_that_is_unsafe(rt: HostRuntime) -> Result<(), Fail> {
    let requests = requests(
        rt.alloc(),
        1,
        r#"{"name":"a","need":1,"values":{"t":1}},{"name":"b","need":1,"values":{"t":1}}"#,
    )?;
    let setting = Setting {
        inventory: FOUR,
        requests: requests.as_str(),
        bindings: "server,reservation,busy,up\ns1,a,0,1\ns2,b,0,1\ns3,a,0,1\ns4,b,0,1\n",
        target: &[Some(1), Some(0), Some(0), Some(1)],
    };
    let events = [Event::Tick, Event::Down(2)];
    let found = told(rt.alloc(), setting, 8, &events)?;
    let want = "| unsafe 0 unsafe 1 ..| ++\n| unsafe 0 unsafe 1 ..| -+\n";
    assert!(rt; found.as_str() == want, "{found}");
    Ok(())
}

#[test]
fn losses_that_a_protection_names(rt: HostRuntime) -> Result<(), Fail> {
    let cases = [
        ("none", "drain 0 bind 2 0 | ...| +\n| ...| +\n"),
        (
            "switchboard",
            "bind 2 0 | unsafe 0 ..| +\ndrain 0 | ...| +\n",
        ),
        (
            "datacenter",
            "bind 2 0 | unsafe 0 ..| -\ndrain 0 | ...| +\n",
        ),
    ];
    let events = [Event::Tick, Event::Joined(2)];
    for (protection, want) in cases {
        let requests = protected_by(rt.alloc(), protection)?;
        let setting = Setting {
            inventory: TWO_AND_ONE,
            requests: requests.as_str(),
            bindings: "server,reservation,busy,up\ns1,a,0,1\ns2,a,0,1\n",
            target: &[None, Some(0), Some(0)],
        };
        let found = told(rt.alloc(), setting, 8, &events)?;
        assert!(rt; found.as_str() == want, "{protection}: {found}");
    }
    Ok(())
}
