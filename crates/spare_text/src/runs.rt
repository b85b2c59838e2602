ghost use Rattle.std.specs.Prelude.{◌≡◌, ◌++◌, IfOk, IsTrue, OnOk, length, true, if◌then◌else◌};
ghost use Rattle.std.specs.List.{list_all};
ghost use Rattle.ras_inventory.specs.RegionRule.{server_names};
ghost use Rattle.ras_requests.specs.RequestsRule.{reservation_names};
ghost use Rattle.plan_model.specs.Allowed.{fits, serves};
ghost use Rattle.plan_model.specs.Units.{servers_with_places};
ghost use Rattle.spare_pool.specs.Steps.{change_within};
ghost use Rattle.spare_pool.specs.States.{state_at_start};
ghost use Rattle.spare_text.specs.Told.{is_short};
ghost use Rattle.spare_text.specs.Texts.{step_text, TellsRun, IsSpareText};

use crate::lines::{put_outcome, put_total};
use crate::words::{server_name, server_of};
use itoa::Buffer;
use plan_model::{Assignment, Case};
use ras_inventory::Region;
use ras_requests::Requests;
use ras_table::List;
use spare_pool::{Failure, Outcome, Pool};
use std::alloc::{AllocError, Global};

// The line of one step.
fn put_step(
    text: &mut Vec<u8>,
    region: &Region,
    requests: &Requests,
    pool: &Pool,
    failure: Failure,
    outcome: Outcome,
) -> Result<(), AllocError>
    ensures { OnOk result (text.new.items ≡ text.old.items
        ++ step_text (server_names region.now.servers) (reservation_names requests.now.list)
        (record { failure = failure; outcome = outcome; after = pool.now })) }
{
    let mut buffer = Buffer::new();
    let at = buffer.format(failure.at).as_bytes();
    let server = server_name(region, server_of(failure.change));
    put_outcome(text, region, requests, at, server, outcome)
}

// 1 for a step that left a reservation short, and 0 for another.
fn short_count(outcome: Outcome) -> u64
    ensures { result ≡ (if is_short outcome then 1 else 0) }
{
    match outcome {
        Outcome::Short { .. } => 1,
        Outcome::Replaced { .. } | Outcome::Idle | Outcome::Returned | Outcome::Stale => 0,
    }
}

// The lines of the steps over the failures. How many left a reservation short.
fn put_steps(
    text: &mut Vec<u8>,
    region: &Region,
    requests: &Requests,
    pool: &mut Pool,
    failures: &List<Failure>,
) -> Result<u64, AllocError>
    requires { list_all (λ failure. change_within (length pool.old.servers) failure.change) failures.now ≡ true }
    ensures { IfOk result (λ shorts. TellsRun (server_names region.now.servers) (reservation_names requests.now.list)
        pool.old failures.now pool.new text.old.items text.new.items shorts) }
{
    let mut shorts = 0u64;
    for failure in failures.as_slice() {
        let outcome = pool.change(failure.change);
        put_step(text, region, requests, pool, *failure, outcome)?;
        shorts += short_count(outcome);
    }
    Ok(shorts)
}

// The text of the run of a pool over failures.
fn run_text(
    alloc: Global,
    region: &Region,
    requests: &Requests,
    mut pool: Pool,
    failures: &List<Failure>,
) -> Result<Vec<u8>, AllocError>
    requires servers { length pool.servers ≡ length region.now.servers }
    requires there { list_all (λ failure. change_within (length region.now.servers) failure.change) failures.now ≡ true }
    ensures { IfOk result (λ text. IsSpareText (server_names region.now.servers) (reservation_names requests.now.list) pool failures.now text.items) }
{
    let mut text = Vec::new(alloc);
    let shorts = put_steps(&mut text, region, requests, &mut pool, failures)?;
    put_total(&mut text, u64::from(failures.len()), shorts)?;
    Ok(text)
}

/// The text of the failures and repairs of servers that serve what an assignment says: a line for each of them that says what it
/// led to, and last the totals.
pub fn spare_text(
    alloc: Global,
    region: &Region,
    requests: &Requests,
    case: &Case,
    a: &Assignment,
    failures: &List<Failure>,
) -> Result<Vec<u8>, AllocError>
    requires servers { length case.now.places ≡ length region.now.servers }
    requires fitting { IsTrue (fits case.now a.now) }
    requires serving { IsTrue (list_all (serves case.now) (servers_with_places case.now a.now)) }
    requires there { list_all (λ failure. change_within (length region.now.servers) failure.change) failures.now ≡ true }
    ensures { IfOk result (λ text.
        IsSpareText (server_names region.now.servers) (reservation_names requests.now.list) (state_at_start case.now a.now) failures.now text.items) }
{
    let pool = Pool::start(alloc, case, a)?;
    run_text(alloc, region, requests, pool, failures)
}
