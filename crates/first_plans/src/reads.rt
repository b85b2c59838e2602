//! Single servers and numbers of a case.
ghost use Rattle.std.specs.Prelude.{◌≡◌, ◌<◌, ◌≤◌, IsTrue, length};
ghost use Rattle.plan_model.specs.CaseRule.{holder_in_range};
ghost use Rattle.plan_model.specs.Units.{place_of, value_for, want_of};

use plan_model::{Case, Place};
use ras_requests::Protection;

/// The server of that number. Its switchboard and its datacenter are of at most 64 each, and its holder, if it has one, is
/// there.
pub(crate) fn place_at(case: &Case, server: u32) -> &Place
    requires { server < length case.now.places }
    ensures place { result.now ≡ place_of case.now server }
    ensures board { result.now.board < 64 }
    ensures center { result.now.center < 64 }
    ensures holder { IsTrue (holder_in_range (length case.now.wants) result.now.holder) }
{
    &case.places.as_slice()[server as usize]
}

/// The value of reservation r for a type of server, 0 to 1,000.
pub(crate) fn value(case: &Case, r: u32, kind: u32) -> u32
    requires { r < length case.now.wants }
    ensures value { result ≡ value_for case.now r kind }
    ensures most { result ≤ 1000 }
{
    let want = &case.wants.as_slice()[r as usize];
    want.values
        .as_slice()
        .get(kind as usize)
        .copied()
        .unwrap_or(0)
}

/// The units that reservation r needs.
pub(crate) fn need(case: &Case, r: u32) -> u64
    requires { r < length case.now.wants }
    ensures { result ≡ (want_of case.now r).need }
{
    u64::from(case.wants.as_slice()[r as usize].need)
}

/// What reservation r is protected against.
pub(crate) fn protection(case: &Case, r: u32) -> Protection
    requires { r < length case.now.wants }
    ensures { result ≡ (want_of case.now r).protection }
{
    case.wants.as_slice()[r as usize].protection
}
