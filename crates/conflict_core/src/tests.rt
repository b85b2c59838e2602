//! A planner without memory.

use crate::core;
use plan_checker::Planner;
use plan_document::{Answer, Part};
use plan_model::{Assignment, Case};
use program_rows::SizeFault;
use ras_inventory::{read_bindings, read_region};
use ras_requests::read_requests;
use ras_table::List;
use std::alloc::Global;
use std::test::Fail;
use symmetry_classes::Classes;

// Counts what it is asked for, and has no memory for it.
#[derive(Debug, Drop)]
struct Poor {
    calls: u32,
}

impl Planner for Poor {
    fn first(
        &mut self,
        _alloc: Global,
        _case: &Case,
        _classes: &Classes,
        _gap: u64,
        _nodes: u32,
    ) -> Result<(Answer, Part), SizeFault> {
        self.calls = self.calls.saturating_add(1);
        Err(SizeFault::Memory)
    }

    fn second(
        &mut self,
        _alloc: Global,
        _case: &Case,
        _from: &Assignment,
        _chosen: &List<u32>,
        _gap: u64,
        _nodes: u32,
    ) -> Result<(Answer, Part), SizeFault> {
        self.calls = self.calls.saturating_add(1);
        Err(SizeFault::Memory)
    }
}

const INVENTORY: &str = "server,type,rack,switchboard,datacenter\ns1,t,k1,m1,d1\ns2,t,k2,m2,d1\n";

const REQUESTS: &str = concat!(
    r#"{"format":1,"moves":{"take":1,"idle":5,"busy":50},"reservations":["#,
    r#"{"name":"a","need":1,"values":{"t":1}},{"name":"b","need":1,"values":{"t":1}}]}"#,
);

#[test]
fn want_of_memory_is_handed_on(rt: HostRuntime) -> Result<(), Fail> {
    let region = read_region(rt.alloc(), INVENTORY.as_bytes())
        .ok()
        .ok_or("a region")?;
    let requests = read_requests(rt.alloc(), REQUESTS.as_bytes())
        .ok()
        .ok_or("requests")?;
    let bindings = read_bindings(rt.alloc(), &region, b"server,reservation,busy,up\n")
        .ok()
        .ok_or("bindings")?;
    let mut planner = Poor { calls: 0 };
    let answer = core(rt.alloc(), &region, &requests, &bindings, 100, &mut planner);
    assert!(rt; answer.is_err() && planner.calls == 1);
    Ok(())
}
