//! The server that is taken next for a reservation.
ghost use Rattle.std.specs.Prelude.{◌≡◌, ◌<◌, IsTrue, length};
ghost use Rattle.plan_model.specs.Allowed.{fits};
ghost use Rattle.first_plans.specs.Best.{best_of, better_of, candidate_of};
ghost use Rattle.first_plans.specs.FirstPlan.{next_server as next_server_of};
ghost use Rattle.first_plans.specs.Sums.{AreSums};

use crate::ranks::Rank;
use crate::reads::{place_at, protection, value};
use crate::sums::Sums;
use plan_model::{Assignment, Case};

/// A server that may be taken.
#[derive(Clone, Copy)]
pub(crate) struct Candidate {
    /// Its number.
    server: u32,
    /// What decides between it and another.
    rank: Rank,
}

/// The server of that number as a candidate, where it is up, has none and is worth something to reservation r.
fn candidate_at(case: &Case, a: &Assignment, r: u32, sums: &Sums, server: u32) -> Option<Candidate>
    requires fitting { IsTrue (fits case.now a.now) }
    requires in_range { r < length case.now.wants }
    requires sums { AreSums case.now a.now r sums.now }
    requires there { server < length case.now.places }
    ensures { result ≡ candidate_of case.now a.now r server }
{
    let place = place_at(case, server);
    let value = value(case, r, place.kind);
    if place.up && a.of.as_slice()[server as usize].is_none() && value > 0 {
        let in_center = sums.in_center[place.center as usize];
        let on_board = sums.on_board[place.board as usize];
        let rank = Rank::by(protection(case, r), in_center, on_board, value);
        Some(Candidate { server, rank })
    } else {
        None
    }
}

/// The earlier of two candidates, unless the later is taken before it.
fn better(earlier: Option<Candidate>, later: Option<Candidate>) -> Option<Candidate>
    ensures { result ≡ better_of earlier later }
{
    match (earlier, later) {
        (_, None) => earlier,
        (None, Some(_)) => later,
        (Some(first), Some(second)) => if second.rank.is_before(&first.rank) {
            later
        } else {
            earlier
        },
    }
}

/// The server that is taken next for reservation r: of those that are up, have none and are worth something to it, the first
/// that no other goes before. One pass over the servers.
pub(crate) fn next_server(case: &Case, a: &Assignment, r: u32, sums: &Sums) -> Option<u32>
    requires fitting { IsTrue (fits case.now a.now) }
    requires in_range { r < length case.now.wants }
    requires sums { AreSums case.now a.now r sums.now }
    ensures { result ≡ next_server_of case.now a.now r }
{
    let mut best = None;
    for server in 0..case.places.len() {
        best = better(best, candidate_at(case, a, r, sums, server));
    }
    best.map(|taken: Candidate| taken.server)
}
