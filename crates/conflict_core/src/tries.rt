//! Sets that are tried, with fewer members each time.
ghost use Rattle.std.specs.Prelude.{◌≡◌, ◌≤◌, ◌<◌, IfErr, IfOk, OnOk, length};
ghost use Rattle.conflict_core.specs.Kept.{AreMembers};
ghost use Rattle.conflict_core.specs.Steps.{AreLeft, IsClash, IsFewer, IsFound, IsStop, IsTried};

use crate::sets::{cut, solve_set};
use crate::steps::{Clash, Found, Stop, Tried};
use plan_checker::Planner;
use plan_document::Answer;
use program_rows::SizeFault;
use ras_inventory::{Bindings, Region};
use ras_requests::Requests;
use ras_table::List;
use std::alloc::Global;

/// Whether a set can be met.
pub(crate) fn try_set<P: Planner>(
    alloc: Global,
    region: &Region,
    requests: &Requests,
    bindings: &Bindings,
    members: List<u32>,
    nodes: u32,
    planner: &mut P,
) -> Result<Tried, Stop>
    requires bound { length bindings.now.of ≡ length region.now.servers }
    requires those { AreMembers (length requests.now.list) members }
    requires some { 1 ≤ nodes }
    requires few { nodes ≤ 20000 }
    ensures tried { IfOk result (IsTried region.now requests.now bindings.now members nodes) }
    ensures stop { IfErr result (IsStop region.now requests.now bindings.now nodes) }
{
    let document = match solve_set(alloc, region, requests, bindings, &members, nodes, planner) {
        Ok(document) => document,
        Err(fault) => return Err(Stop::Size(fault)),
    };
    if document.region.plan.is_some() {
        return Ok(Tried::Met(document));
    }
    match document.answer {
        Answer::Limit => Err(Stop::Spent(members, document)),
        Answer::Infeasible => Ok(Tried::Clashes(Clash {
            members,
            refutation: document,
        })),
        // A document with this answer has a plan.
        Answer::Plan => unreachable!(),
    }
}

/// Cuts the members from one place to before another out of a set that clashes, where the others clash still.
fn cut_out<P: Planner>(
    alloc: Global,
    region: &Region,
    requests: &Requests,
    bindings: &Bindings,
    clash: &mut Clash,
    from: u32,
    to: u32,
    nodes: u32,
    planner: &mut P,
) -> Result<bool, Stop>
    requires bound { length bindings.now.of ≡ length region.now.servers }
    requires clash { IsClash region.now requests.now bindings.now nodes clash.old }
    requires order { from ≤ to }
    requires within { to ≤ length clash.old.members }
    requires some { 1 ≤ nodes }
    requires few { nodes ≤ 20000 }
    ensures clash { OnOk result (IsClash region.now requests.now bindings.now nodes clash.new) }
    ensures left { IfOk result (λ done. AreLeft clash.old.members from to done clash.new.members) }
    ensures stop { IfErr result (IsStop region.now requests.now bindings.now nodes) }
{
    let fewer = cut(alloc, &clash.members, from, to)?;
    match try_set(alloc, region, requests, bindings, fewer, nodes, planner)? {
        Tried::Met(_) => Ok(false),
        Tried::Clashes(found) => {
            *clash = found;
            Ok(true)
        }
    }
}

/// A place between two, and the first one where that is 0.
fn middle_of(low: u32, high: u32) -> u32
    requires { low < high }
    ensures low { low ≤ result }
    ensures high { result < high }
{
    if low == 0 {
        return 0;
    }
    low + (high - low) / 2
}

/// By halving, the fewest first members that clash with the last ones, of which so many are known to be needed.
fn halve<P: Planner>(
    alloc: Global,
    region: &Region,
    requests: &Requests,
    bindings: &Bindings,
    clash: &mut Clash,
    known: u32,
    nodes: u32,
    planner: &mut P,
) -> Result<(), Stop>
    requires bound { length bindings.now.of ≡ length region.now.servers }
    requires clash { IsClash region.now requests.now bindings.now nodes clash.old }
    requires known { known ≤ length clash.old.members }
    requires some { 1 ≤ nodes }
    requires few { nodes ≤ 20000 }
    ensures fewer { OnOk result (IsFewer region.now requests.now bindings.now nodes (length clash.old.members) clash.new) }
    ensures stop { IfErr result (IsStop region.now requests.now bindings.now nodes) }
{
    // No reservations at all can be met, so that need not be tried.
    let mut low = if known == 0 { 1 } else { 0 };
    let mut high = clash.members.len() - known;
    while low < high {
        // The last ones may clash by themselves, which is tried first.
        let middle = middle_of(low, high);
        if cut_out(
            alloc, region, requests, bindings, clash, middle, high, nodes, planner,
        )? {
            high = middle;
        } else {
            low = middle + 1;
        }
    }
    Ok(())
}

/// Leaves fewer members that clash: of the first ones that clash with those behind them that are known to be needed, the last
/// one is needed too.
pub(crate) fn narrow<P: Planner>(
    alloc: Global,
    region: &Region,
    requests: &Requests,
    bindings: &Bindings,
    clash: &mut Clash,
    nodes: u32,
    planner: &mut P,
) -> Result<(), Stop>
    requires bound { length bindings.now.of ≡ length region.now.servers }
    requires clash { IsClash region.now requests.now bindings.now nodes clash.old }
    requires some { 1 ≤ nodes }
    requires few { nodes ≤ 20000 }
    ensures fewer { OnOk result (IsFewer region.now requests.now bindings.now nodes (length clash.old.members) clash.new) }
    ensures stop { IfErr result (IsStop region.now requests.now bindings.now nodes) }
{
    let mut known = 0;
    while known < clash.members.len() {
        halve(
            alloc, region, requests, bindings, clash, known, nodes, planner,
        )?;
        known += 1;
    }
    Ok(())
}

/// What comes of taking each member away in turn.
pub(crate) fn try_each<P: Planner>(
    alloc: Global,
    region: &Region,
    requests: &Requests,
    bindings: &Bindings,
    members: &List<u32>,
    nodes: u32,
    planner: &mut P,
) -> Result<Found, Stop>
    requires bound { length bindings.now.of ≡ length region.now.servers }
    requires those { AreMembers (length requests.now.list) members.now }
    requires some { 1 ≤ nodes }
    requires few { nodes ≤ 20000 }
    ensures found { IfOk result (IsFound region.now requests.now bindings.now members.now nodes) }
    ensures stop { IfErr result (IsStop region.now requests.now bindings.now nodes) }
{
    let mut plans = Vec::new(alloc);
    for n in 0..members.len() {
        let fewer = cut(alloc, members, n, n + 1)?;
        match try_set(alloc, region, requests, bindings, fewer, nodes, planner)? {
            Tried::Met(document) => {
                if plans.push(document).is_err() {
                    return Err(Stop::Size(SizeFault::Memory));
                }
            }
            Tried::Clashes(clash) => return Ok(Found::Fewer(clash)),
        }
    }
    Ok(Found::Plans(List::from_vec(plans)))
}
