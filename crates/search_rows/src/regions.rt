//! A region whose relaxations have numbers that fit no certificate, and one whose first plan is not steady.
ghost use Rattle.std.specs.Prelude.{◌<◌, ◌≤◌, IsTrue};
ghost use Rattle.plan_model.specs.Allowed.{region_allowed};

use crate::reading::read;
use class_expand::settle;
use first_plans::first_plan;
use ip_model::Program;
use plan_checker::{Verdict, check, phase_classes};
use plan_document::{Answer, Document};
use plan_model::{Assignment, Case, Grouping, join, region_cost};
use plan_solver::solve;
use program_rows::{Phase, SizeFault, build};
use ras_inventory::{read_bindings, read_region};
use ras_requests::read_requests;
use std::alloc::{AllocError, Global};
use std::test::Fail;

// More bytes than a test puts in one file.
const LONGEST: usize = 10_000_000;

// The case of an inventory and of these reservations at a cost of `take`, where no server is held.
fn case_of(alloc: Global, inventory: &str, take: u32, reservations: &str) -> Result<Case, Fail> {
    let moves = format!(in alloc; "\"moves\":{{\"take\":{take},\"idle\":5,\"busy\":50}}")?;
    let requests = format!(in alloc; "{{\"format\":1,{moves},\"reservations\":[{reservations}]}}")?;
    if inventory.len() > LONGEST || requests.len() > LONGEST {
        return Err(Fail::from("short files"));
    }
    let region = read_region(alloc, inventory.as_bytes())
        .ok()
        .ok_or("a region")?;
    let requests = read_requests(alloc, requests.as_bytes())
        .ok()
        .ok_or("requests")?;
    let bindings = read_bindings(alloc, &region, b"server,reservation,busy,up\n")
        .ok()
        .ok_or("bindings")?;
    Ok(join(alloc, &region, &requests, &bindings)?)
}

// 28 servers of seven types, two of each on each of two switchboards.
fn inventory(alloc: Global) -> Result<String, AllocError> {
    let mut text = String::from_str(alloc, "server,type,rack,switchboard,datacenter\n")?;
    for server in 0u32..28 {
        let (kind, board) = (server % 7, server / 14);
        let line = format!(in alloc; "s{server},t{kind},k{board},m{board},d0\n")?;
        text.push_str(line.as_str())?;
    }
    Ok(text)
}

// The values of seven types for a reservation: numbers from 600 to 1,000 that share few factors.
fn values(alloc: Global, reservation: u32) -> Result<String, AllocError>
    requires { reservation < 7 }
{
    let mut text = String::new(alloc);
    for kind in 0u32..7 {
        let value = 600 + (613 * (reservation + 1) + 769 * (kind + 1) * (reservation + 2)) % 401;
        let comma = if kind == 0 { "" } else { "," };
        let member = format!(in alloc; "{comma}\"t{kind}\":{value}")?;
        text.push_str(member.as_str())?;
    }
    Ok(text)
}

// Seven reservations, each of which values each type.
fn reservations(alloc: Global) -> Result<String, AllocError> {
    let mut text = String::new(alloc);
    for number in 0u32..7 {
        let values = values(alloc, number)?;
        let need = 1201 + 37 * number;
        let comma = if number == 0 { "" } else { "," };
        let member = format!(in alloc;
            "{comma}{{\"name\":\"r{number}\",\"need\":{need},\"values\":{{{values}}}}}"
        )?;
        text.push_str(member.as_str())?;
    }
    Ok(text)
}

// The document of a case, with so many nodes and without the racks, which the checker accepts.
fn accepted(alloc: Global, case: &Case, nodes: u32) -> Result<Document, Fail>
    requires some { 1 ≤ nodes }
    requires few { nodes ≤ 20000 }
{
    let document = solve(alloc, case, 0, nodes, 0)?;
    match check(alloc, case, &document)? {
        Verdict::Yes => Ok(document),
        Verdict::No(_) => Err(Fail::from("a document that is accepted")),
    }
}

// The program of a case's region over its classes.
fn program_of(alloc: Global, case: &Case) -> Result<Program, SizeFault> {
    let classes = phase_classes(alloc, case, &Phase::Region, Grouping::Class)?;
    build(alloc, case, &classes, &Phase::Region)
}

#[test]
fn stopped_region(rt: HostRuntime) -> Result<(), Fail> {
    let alloc = rt.alloc();
    let inventory = inventory(alloc)?;
    let reservations = reservations(alloc)?;
    let case = case_of(alloc, inventory.as_str(), 1, reservations.as_str())?;
    let document = accepted(alloc, &case, 15)?;
    assert!(rt; document.answer == Answer::Limit);
    let reading = read(alloc, &program_of(alloc, &case)?, &document.region.tree)?;
    assert!(rt;
        reading.wrong.is_none() && reading.licensed > 0,
        "{reading:?}"
    );
    Ok(())
}

// Three servers of type t and one of type u, on a switchboard each.
const FOUR_BOARDS: &str = concat!(
    "server,type,rack,switchboard,datacenter\n",
    "s1,t,k1,m1,d1\ns2,t,k2,m2,d1\ns3,t,k3,m3,d1\ns4,u,k4,m4,d1\n",
);

// One unit of t, and units of u near datacenter d1, of which one is missed at a weight of 9.
const TWO_RESERVATIONS: &str = concat!(
    r#"{"name":"a","need":1,"values":{"t":1}},"#,
    r#"{"name":"b","need":0,"values":{"u":1},"near":[{"datacenter":"d1","least":1,"weight":9}]}"#,
);

// Settles an assignment that the region allows, and gives what it cost before.
fn settled(alloc: Global, case: &Case, plan: &mut Assignment) -> Result<u64, AllocError>
    requires { IsTrue (region_allowed case.now plan.old) }
{
    let cost = region_cost(case, plan);
    settle(alloc, case, &Phase::Region, plan)?;
    Ok(cost)
}

#[test]
fn settled_first_plan(rt: HostRuntime) -> Result<(), Fail> {
    let case = case_of(rt.alloc(), FOUR_BOARDS, 2, TWO_RESERVATIONS)?;
    let Some(mut plan) = first_plan(rt.alloc(), &case)? else {
        return Err(Fail::from("a first plan"));
    };
    let cost = settled(rt.alloc(), &case, &mut plan)?;
    let places = [Some(0), Some(0), None, Some(1)];
    assert!(rt;
        cost == 13 && plan.of.as_slice() == places.as_slice(),
        "{cost} {plan:?}"
    );
    Ok(())
}
