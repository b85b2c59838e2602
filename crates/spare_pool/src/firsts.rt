ghost use Rattle.std.specs.Prelude.{◌≡◌, ◌<◌, List as Items, length, slice_set};
ghost use Rattle.plan_model.specs.Units.{place_of};
ghost use Rattle.spare_pool.specs.States.{is_spare as spare_of};
ghost use Rattle.spare_pool.specs.Firsts.{is_spare_of as is_spare_of_type, IsFirst, IsFirstFrom, AreFirsts};
ghost use Rattle.spare_pool.specs.declared.standings.Standing.{Standing as AnyStanding};

use crate::reads::kind;
use crate::standings::Standing;
use plan_model::Case;
use ras_table::List;

/// Whether a server is up and serves none.
fn is_spare(standing: Standing) -> bool
    ensures { result ≡ spare_of standing }
{
    standing.up && standing.serves.is_none()
}

// Whether a server is a spare of a type.
fn is_spare_of(case: &Case, servers: &List<Standing>, of: u32, server: u32) -> bool
    requires long { length servers.now ≡ length case.now.places }
    requires there { server < length servers.now }
    ensures { result ≡ is_spare_of_type (record { case = case.now; servers = servers.now }) of server }
{
    is_spare(servers.as_slice()[server as usize]) && kind(case, server) == of
}

// The first spare of a type from a number on.
fn next_spare(case: &Case, servers: &List<Standing>, of: u32, from: u32) -> Option<u32>
    requires { length servers.now ≡ length case.now.places }
    ensures { IsFirstFrom (record { case = case.now; servers = servers.now }) of from result }
{
    for server in from..servers.len() {
        if is_spare_of(case, servers, of, server) {
            return Some(server);
        }
    }
    None
}

// The first spare of a server's type, from what it was before the server stood as it does.
fn first_with(case: &Case, servers: &List<Standing>, server: u32, first: Option<u32>) -> Option<u32>
    requires long { length servers.now ≡ length case.now.places }
    requires there { server < length servers.now }
    ensures { (old : Items AnyStanding) (new : AnyStanding) → servers.now ≡ slice_set old server new
        → IsFirst (record { case = case.now; servers = old }) (place_of case.now server).kind first
        → IsFirst (record { case = case.now; servers = servers.now }) (place_of case.now server).kind result }
{
    let spare = is_spare(servers.as_slice()[server as usize]);
    let Some(before) = first else {
        return if spare { Some(server) } else { None };
    };
    if spare {
        return if before <= server {
            Some(before)
        } else {
            Some(server)
        };
    }
    if before == server {
        next_spare(case, servers, kind(case, server), server)
    } else {
        Some(before)
    }
}

/// The first spare of each type, where a server stands otherwise than before.
pub(crate) fn renew(
    case: &Case,
    servers: &List<Standing>,
    server: u32,
    firsts: &mut List<Option<u32>>,
)
    requires long { length servers.now ≡ length case.now.places }
    requires there { server < length servers.now }
    requires kinds { length firsts.old ≡ case.now.kinds }
    ensures { (old : Items AnyStanding) (new : AnyStanding) → servers.now ≡ slice_set old server new
        → AreFirsts (record { case = case.now; servers = old }) firsts.old
        → AreFirsts (record { case = case.now; servers = servers.now }) firsts.new }
{
    let of = kind(case, server);
    let first = first_with(case, servers, server, firsts.as_slice()[of as usize]);
    firsts.set(of, first);
}
