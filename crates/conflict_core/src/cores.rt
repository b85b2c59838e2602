//! Cores: reservations that clash, and no more without any one of them.
ghost use Rattle.std.specs.Prelude.{◌≡◌, ◌≤◌, IfErr, IfOk, length};
ghost use Rattle.conflict_core.specs.Answers.{IsCoreAnswer, IsFaultOf};
ghost use Rattle.conflict_core.specs.Steps.{IsClash, IsStop};

use crate::answer::CoreAnswer;
use crate::sets::all_of;
use crate::steps::{Clash, Found, Stop, Tried};
use crate::tries::{narrow, try_each, try_set};
use plan_checker::Planner;
use program_rows::SizeFault;
use ras_inventory::{Bindings, Region};
use ras_requests::Requests;
use std::alloc::Global;

/// A core of a set that clashes.
fn core_of<P: Planner>(
    alloc: Global,
    region: &Region,
    requests: &Requests,
    bindings: &Bindings,
    clash: Clash,
    nodes: u32,
    planner: &mut P,
) -> Result<CoreAnswer, Stop>
    requires bound { length bindings.now.of ≡ length region.now.servers }
    requires clash { IsClash region.now requests.now bindings.now nodes clash }
    requires some { 1 ≤ nodes }
    requires few { nodes ≤ 20000 }
    ensures answer { IfOk result (IsCoreAnswer region.now requests.now bindings.now nodes) }
    ensures stop { IfErr result (IsStop region.now requests.now bindings.now nodes) }
{
    let mut clash = clash;
    loop {
        narrow(
            alloc, region, requests, bindings, &mut clash, nodes, planner,
        )?;
        match try_each(
            alloc,
            region,
            requests,
            bindings,
            &clash.members,
            nodes,
            planner,
        )? {
            Found::Plans(plans) => {
                return Ok(CoreAnswer::Core {
                    members: clash.members,
                    refutation: clash.refutation,
                    plans,
                });
            }
            Found::Fewer(fewer) => clash = fewer,
        }
    }
}

/// Whether all reservations can be met, or which clash.
fn find<P: Planner>(
    alloc: Global,
    region: &Region,
    requests: &Requests,
    bindings: &Bindings,
    nodes: u32,
    planner: &mut P,
) -> Result<CoreAnswer, Stop>
    requires bound { length bindings.now.of ≡ length region.now.servers }
    requires some { 1 ≤ nodes }
    requires few { nodes ≤ 20000 }
    ensures answer { IfOk result (IsCoreAnswer region.now requests.now bindings.now nodes) }
    ensures stop { IfErr result (IsStop region.now requests.now bindings.now nodes) }
{
    let all = all_of(alloc, requests)?;
    match try_set(alloc, region, requests, bindings, all, nodes, planner)? {
        Tried::Met(plan) => Ok(CoreAnswer::Fits { plan }),
        Tried::Clashes(clash) => core_of(alloc, region, requests, bindings, clash, nodes, planner),
    }
}

/// Whether all reservations can be met in a region with these bindings, one for each of its servers, or a core: reservations
/// that clash, and no more without any one of them. What a reservation that is left out holds is held by none of the requests.
///
/// Each document is accepted for the case of its set and keeps its promises. It has the wanted gap 10^12, these nodes, 1 to
/// 20,000, no racks and servers in classes. With a core, one document says that the members can't be met, and for each member
/// one has an assignment for the others. Where the budget was spent on a set before an assignment for it was found, that set
/// is told with its document; it has no first plan.
///
/// First all reservations are tried, then by halving fewer and fewer, as long as they clash.
///
/// # Errors
/// Only where the program of some set of the reservations has that many columns or rows; or for want of memory.
pub fn core<P: Planner>(
    alloc: Global,
    region: &Region,
    requests: &Requests,
    bindings: &Bindings,
    nodes: u32,
    planner: &mut P,
) -> Result<CoreAnswer, SizeFault>
    requires bound { length bindings.now.of ≡ length region.now.servers }
    requires some { 1 ≤ nodes }
    requires few { nodes ≤ 20000 }
    ensures answer { IfOk result (IsCoreAnswer region.now requests.now bindings.now nodes) }
    ensures fault { IfErr result (IsFaultOf region.now requests.now bindings.now) }
{
    match find(alloc, region, requests, bindings, nodes, planner) {
        Ok(answer) => Ok(answer),
        Err(Stop::Size(fault)) => Err(fault),
        Err(Stop::Spent(over, document)) => Ok(CoreAnswer::Limit { over, document }),
    }
}
