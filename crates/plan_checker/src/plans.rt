//! What is wrong with the plan of a part.
ghost use Rattle.std.specs.Prelude.{◌≡◌, ◌<◌, IsTrue, length};
ghost use Rattle.plan_model.specs.Allowed.{fits};
ghost use Rattle.plan_checker.specs.Reasons.{serves_reason, need_reason, allowed_reason, value_reason};

use crate::verdict::{PhaseName, Reason};
use plan_model::{Assignment, Case, first_loss, first_not_served};

/// The first server that does not serve.
fn serves_reason(part: PhaseName, case: &Case, a: &Assignment) -> Option<Reason>
    requires { IsTrue (fits case.now a.now) }
    ensures { result ≡ serves_reason part case.now a.now }
{
    let server = first_not_served(case, a)?;
    Some(Reason::Serves {
        phase: part,
        server,
    })
}

/// The first reservation that does not keep its need.
fn need_reason(part: PhaseName, case: &Case, a: &Assignment) -> Option<Reason>
    requires { IsTrue (fits case.now a.now) }
    ensures { result ≡ need_reason part case.now a.now }
{
    for r in 0..case.wants.len() {
        if let Some(lost) = first_loss(case, a, r) {
            return Some(Reason::Need {
                phase: part,
                r,
                lost,
            });
        }
    }
    None
}

/// Why an assignment is not allowed.
pub fn allowed_reason(part: PhaseName, case: &Case, a: &Assignment) -> Option<Reason>
    requires { IsTrue (fits case.now a.now) }
    ensures { result ≡ allowed_reason part case.now a.now }
{
    if let Some(reason) = serves_reason(part, case, a) {
        return Some(reason);
    }
    need_reason(part, case, a)
}

/// Whether the stated value is not the cost.
pub fn value_reason(part: PhaseName, stated: u64, found: u64) -> Option<Reason>
    ensures { result ≡ value_reason part stated found }
{
    if stated == found {
        return None;
    }
    Some(Reason::Value {
        phase: part,
        stated,
        found,
    })
}
