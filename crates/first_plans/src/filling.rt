//! Servers are taken for one reservation until it keeps its need.
ghost use Rattle.std.specs.Prelude.{◌≡◌, ◌<◌, ◌≤◌, IsTrue, None, Some, if◌then◌else◌, length, slice_index_or};
ghost use Rattle.plan_model.specs.Allowed.{fits};
ghost use Rattle.plan_model.specs.Units.{server_with, share_of};
ghost use Rattle.first_plans.specs.FirstPlan.{filled, given};
ghost use Rattle.first_plans.specs.Sums.{AreSums};

use crate::reads::{place_at, value};
use crate::sums::Sums;
use crate::takes::next_server;
use plan_model::{Assignment, Case};

/// What a server gives reservation r.
fn share(case: &Case, a: &Assignment, r: u32, server: u32) -> u32
    requires fitting { IsTrue (fits case.now a.now) }
    requires in_range { r < length case.now.wants }
    requires there { server < length case.now.places }
    ensures value { result ≡ share_of case.now r (server_with case.now a.now server) }
    ensures most { result ≤ 1000 }
{
    let to = a.of.as_slice()[server as usize];
    match to {
        Some(q) if q == r => value(case, r, place_at(case, server).kind),
        _ => 0,
    }
}

/// The units of reservation r. One pass over the servers.
fn sums_of(case: &Case, a: &Assignment, r: u32) -> Sums
    requires fitting { IsTrue (fits case.now a.now) }
    requires in_range { r < length case.now.wants }
    ensures { AreSums case.now a.now r result }
{
    let mut sums = Sums::none();
    for server in 0..case.places.len() {
        sums.add(place_at(case, server), share(case, a, r, server));
    }
    sums
}

/// Gives reservation r a server that has none.
fn give(case: &Case, r: u32, server: u32, a: &mut Assignment, sums: &mut Sums)
    requires fitting { IsTrue (fits case.now a.old) }
    requires in_range { r < length case.now.wants }
    requires there { server < length case.now.places }
    requires free { slice_index_or a.old.of server None ≡ None }
    requires sums { AreSums case.now a.old r sums.old }
    ensures given { a.new ≡ given a.old server r }
    ensures fitting { IsTrue (fits case.now a.new) }
    ensures sums { AreSums case.now a.new r sums.new }
{
    let place = place_at(case, server);
    sums.add(place, value(case, r, place.kind));
    a.of.set(server, Some(r));
}

/// Takes servers for reservation r until it keeps its need, and says whether it does. Where it does not, no further server
/// may be taken for it.
pub(crate) fn fill(case: &Case, r: u32, a: &mut Assignment) -> bool
    requires fitting { IsTrue (fits case.now a.old) }
    requires in_range { r < length case.now.wants }
    ensures filled { (if result then Some a.new else None) ≡ filled case.now r (length case.now.places) a.old }
    ensures fitting { IsTrue (fits case.now a.new) }
{
    let mut sums = sums_of(case, a, r);
    for _taken in 0..case.places.len() {
        if sums.keep(case, r) {
            return true;
        }
        let Some(server) = next_server(case, a, r, &sums) else {
            return false;
        };
        give(case, r, server, a, &mut sums);
    }
    sums.keep(case, r)
}
