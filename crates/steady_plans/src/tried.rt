//! Of the servers that are alike, the one that was tried last.
ghost use Rattle.std.specs.Prelude.{◌≡◌, ◌<◌, ◌≤◌, ◌*◌, ◌+◌, IfOk, IsTrue, None, Some, length, nat_lt, slice_index, slice_index_or, true};
ghost use Rattle.std.specs.Option.{option_map_or};
ghost use Rattle.plan_model.specs.Units.{place_of};
ghost use Rattle.program_rows.specs.Settings.{setting_of, start_fits};
ghost use Rattle.steady_plans.specs.Tried.{HasRoom, cell_of, column_of};

use crate::alike::start_of;
use crate::values::place_at;
use indexmap::IndexSet;
use plan_model::{Case, Holder};
use program_rows::Phase;
use std::alloc::{AllocError, Global};

/// What servers have in common that stand alike and start with the same: those of a rack have one switchboard and datacenter.
#[derive(Clone, Copy, PartialEq, Eq, Hash)]
struct Likeness {
    kind: u32,
    rack: u32,
    holder: Holder,
    busy: bool,
    up: bool,
    start: Option<u32>,
}

/// Of the servers of each likeness that get the same, the one that was tried last.
#[derive(Drop)]
pub(crate) struct Tried {
    /// The number of each server's likeness.
    likeness: Vec<u32>,
    /// The servers that were tried: 65 places for each likeness, one for none and one for each reservation.
    servers: Vec<Option<u32>>,
}

/// The likeness of a server.
fn likeness_of(case: &Case, phase: &Phase<'_>, server: u32) -> Likeness
    requires start { IsTrue (start_fits case.now phase.now) }
    requires in_range { server < length case.now.places }
    ensures { result ≡ record {
      kind = (place_of case.now server).kind;
      rack = (place_of case.now server).rack;
      holder = (place_of case.now server).holder;
      busy = (place_of case.now server).busy;
      up = (place_of case.now server).up;
      start = slice_index_or (setting_of case.now phase.now).start.of server None;
    } }
{
    let place = place_at(case, server);
    let start = start_of(case, phase, server);
    Likeness {
        kind: place.kind,
        rack: place.rack,
        holder: place.holder,
        busy: place.busy,
        up: place.up,
        start,
    }
}

/// A table of the servers that were tried, with none yet.
///
/// # Errors
/// For want of memory.
pub(crate) fn none_tried(alloc: Global, case: &Case, phase: &Phase<'_>) -> Result<Tried, AllocError>
    requires { IsTrue (start_fits case.now phase.now) }
    ensures { IfOk result (λ tried. HasRoom case.now tried) }
{
    let mut found = IndexSet::new(alloc);
    let mut likeness = Vec::new(alloc);
    for server in 0..case.places.len() {
        let (number, _) = found.insert_full(likeness_of(case, phase, server))?;
        likeness.push(number as u32)?;
    }
    let servers = vec![in alloc; None; found.len() * 65]?;
    Ok(Tried { likeness, servers })
}

/// Which of the 65 places of a likeness a place has.
fn column(to: Option<u32>) -> usize
    requires { IsTrue (option_map_or (λ r. nat_lt r 64) to true) }
    ensures column { result ≡ column_of to }
    ensures few { result < 65 }
{
    match to {
        None => 0,
        Some(r) => r as usize + 1,
    }
}

/// Where the table has the server that was tried last, of those that are like a server and get a place.
fn cell(case: &Case, tried: &Tried, server: u32, to: Option<u32>) -> usize
    requires in_range { server < length case.now.places }
    requires there { IsTrue (option_map_or (λ r. nat_lt r (length case.now.wants)) to true) }
    requires room { HasRoom case.now tried.now }
    ensures cell { result ≡ cell_of tried.now server to }
    ensures within { result < length tried.now.servers.items }
{
    tried.likeness[server as usize] as usize * 65 + column(to)
}

/// The server that was tried last, of those that are like a server and get a place.
pub(crate) fn last_tried(case: &Case, tried: &Tried, server: u32, to: Option<u32>) -> Option<u32>
    requires in_range { server < length case.now.places }
    requires there { IsTrue (option_map_or (λ r. nat_lt r (length case.now.wants)) to true) }
    requires room { HasRoom case.now tried.now }
    ensures { result ≡ slice_index_or tried.now.servers.items (cell_of tried.now server to) None }
{
    tried.servers[cell(case, tried, server, to)]
}

/// Notes that a server is tried that gets a place.
pub(crate) fn note_tried(case: &Case, tried: &mut Tried, server: u32, to: Option<u32>)
    requires in_range { server < length case.now.places }
    requires there { IsTrue (option_map_or (λ r. nat_lt r (length case.now.wants)) to true) }
    requires room { HasRoom case.now tried.old }
    ensures room { HasRoom case.now tried.new }
    ensures noted { slice_index_or tried.new.servers.items (cell_of tried.new server to) None ≡ Some server }
{
    let at = cell(case, tried, server, to);
    tried.servers[at] = Some(server);
}
