//! The assignment that keeps what is bound.
ghost use Rattle.std.specs.Prelude.{◌≡◌, IfOk, IsTrue, length};
ghost use Rattle.plan_model.specs.Allowed.{fits};
ghost use Rattle.plan_model.specs.CaseRule.{holder_in_range};
ghost use Rattle.first_plans.specs.Kept.{kept_at, kept_plan as kept_plan_of};

use crate::reads::{place_at, value};
use plan_model::{Assignment, Case, Holder, Place};
use ras_table::List;
use std::alloc::{AllocError, Global};

/// The reservation that a server stays with: the one that holds it, where it is up and has a value above 0 for it.
fn kept(case: &Case, place: &Place) -> Option<u32>
    requires { IsTrue (holder_in_range (length case.now.wants) place.now.holder) }
    ensures { result ≡ kept_at case.now place.now }
{
    match place.holder {
        Holder::Held(r) => if place.up && value(case, r, place.kind) > 0 {
            Some(r)
        } else {
            None
        },
        Holder::Free => None,
        Holder::Gone => None,
    }
}

/// The assignment in which each up server stays with the reservation that holds it, where it has a value above 0 for it,
/// and every other server has none.
pub(crate) fn kept_plan(alloc: Global, case: &Case) -> Result<Assignment, AllocError>
    ensures { IfOk result (λ a. a ≡ kept_plan_of case.now) }
{
    let mut of = Vec::new(alloc);
    for server in 0..case.places.len() {
        of.push(kept(case, place_at(case, server)))?;
    }
    Ok(Assignment {
        of: List::from_vec(of),
    })
}
