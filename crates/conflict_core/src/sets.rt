//! Sets of reservations, and the documents of their cases.
ghost use Rattle.std.specs.Prelude.{◌≡◌, ◌≤◌, ◌++◌, IfErr, IfOk, drop, length, take};
ghost use Rattle.plan_model.specs.Joined.{IsJoined};
ghost use Rattle.conflict_core.specs.Kept.{AreMembers, IsKeptTo, all_members};
ghost use Rattle.conflict_core.specs.Answers.{IsDocumentOf, IsFaultOf};

use crate::keep::keep_only;
use plan_checker::{Planner, phase_classes, solve_case};
use plan_document::Document;
use plan_model::{Case, Grouping, join};
use program_rows::{Phase, SizeFault};
use ras_inventory::{Bindings, Region};
use ras_requests::Requests;
use ras_table::List;
use std::alloc::{AllocError, Global};

/// The numbers of all reservations.
pub(crate) fn all_of(alloc: Global, requests: &Requests) -> Result<List<u32>, AllocError>
    ensures { IfOk result (λ members. members ≡ all_members requests.now) }
{
    let mut items = Vec::new(alloc);
    for r in 0..requests.list.len() {
        items.push(r)?;
    }
    Ok(List::from_vec(items))
}

/// The members without those from one place to before another.
pub(crate) fn cut(
    alloc: Global,
    members: &List<u32>,
    from: u32,
    to: u32,
) -> Result<List<u32>, AllocError>
    requires order { from ≤ to }
    requires within { to ≤ length members.now }
    ensures { IfOk result (λ fewer. fewer ≡ take from members.now ++ drop to members.now) }
{
    let list = members.as_slice();
    let mut items = Vec::from_slice(alloc, &list[..from as usize])?;
    items.extend_from_slice(&list[to as usize..])?;
    Ok(List::from_vec(items))
}

/// The document of the case that the members join to.
fn document_of<P: Planner>(
    alloc: Global,
    region: &Region,
    requests: &Requests,
    bindings: &Bindings,
    members: &List<u32>,
    kept: &Requests,
    case: &Case,
    nodes: u32,
    planner: &mut P,
) -> Result<Document, SizeFault>
    requires those { AreMembers (length requests.now.list) members.now }
    requires is_kept { IsKeptTo requests.now members.now kept.now }
    requires joined { IsJoined region.now kept.now bindings.now case.now }
    requires some { 1 ≤ nodes }
    requires few { nodes ≤ 20000 }
    ensures document { IfOk result (IsDocumentOf region.now requests.now bindings.now members.now nodes) }
    ensures fault { IfErr result (IsFaultOf region.now requests.now bindings.now) }
{
    let Ok(classes) = phase_classes(alloc, case, &Phase::Region, Grouping::Class) else {
        return Err(SizeFault::Memory);
    };
    solve_case(alloc, case, &classes, 1_000_000_000_000, nodes, 0, planner)
}

/// The document of the case of a set.
pub(crate) fn solve_set<P: Planner>(
    alloc: Global,
    region: &Region,
    requests: &Requests,
    bindings: &Bindings,
    members: &List<u32>,
    nodes: u32,
    planner: &mut P,
) -> Result<Document, SizeFault>
    requires bound { length bindings.now.of ≡ length region.now.servers }
    requires those { AreMembers (length requests.now.list) members.now }
    requires some { 1 ≤ nodes }
    requires few { nodes ≤ 20000 }
    ensures document { IfOk result (IsDocumentOf region.now requests.now bindings.now members.now nodes) }
    ensures fault { IfErr result (IsFaultOf region.now requests.now bindings.now) }
{
    let kept = keep_only(alloc, requests, members)?;
    let case = join(alloc, region, &kept, bindings)?;
    document_of(
        alloc, region, requests, bindings, members, &kept, &case, nodes, planner,
    )
}
