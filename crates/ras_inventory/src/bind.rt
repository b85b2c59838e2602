ghost use Rattle.std.specs.Prelude.{◌≡◌, ◌≤◌, ◌<◌, ◌*◌, ◌^◌, IfOk, map, length};
ghost use Rattle.ras_table.specs.Answers.{Gives};
ghost use Rattle.ras_inventory.specs.RegionRule.{server_names};
ghost use Rattle.ras_inventory.specs.Bounds.{binding_in, binding_for, bindings_of, told};

use crate::bindings::{Binding, Bindings};
use crate::bound::{Bound, Bounds, read_bounds};
use crate::fault::BindingsFault;
use crate::region::Region;
use crate::server::Server;
use ras_table::{List, Name, read_records};
use std::alloc::{AllocError, Global};

// What a line says of its server.
fn binding_in(alloc: Global, bound: &Bound) -> Result<Binding, AllocError>
    ensures { IfOk result (λ binding. binding ≡ binding_in bound.now) }
{
    let holder = match &bound.holder {
        Some(name) => Some(name.copy(alloc)?),
        None => None,
    };
    Ok(Binding {
        holder,
        busy: bound.busy,
        up: bound.up,
    })
}

// The binding of a server: free, idle and up where no line names it.
fn binding_for(alloc: Global, bounds: &Bounds, name: &Name) -> Result<Binding, AllocError>
    requires { bounds.now.names ≡ map (λ b. b.server) bounds.now.list }
    ensures { IfOk result (λ binding. binding ≡ binding_for bounds.now.list name.now) }
{
    let free = Binding {
        holder: None,
        busy: false,
        up: true,
    };
    let Some(n) = bounds.names.find(name.bytes()) else {
        return Ok(free);
    };
    match bounds.list.get(n) {
        Some(bound) => binding_in(alloc, bound),
        None => Ok(free),
    }
}

// The bindings of these servers.
fn bindings_from(
    alloc: Global,
    servers: &[Server],
    bounds: &Bounds,
) -> Result<List<Binding>, AllocError>
    requires few { length servers.now ≤ 20000 }
    requires names { bounds.now.names ≡ map (λ b. b.server) bounds.now.list }
    ensures { IfOk result (λ list. list ≡ map (λ s. binding_for bounds.now.list s.name) servers.now) }
{
    let mut list = List::new(alloc, servers.len() as u32)?;
    for server in servers {
        let binding = binding_for(alloc, bounds, &server.name)?;
        if list.push(binding).is_err() {
            return Err(AllocError);
        }
    }
    Ok(list)
}

/// Reads the bindings of a region, or answers their first fault. The records are taken in order, and a record's
/// faults in the order of [`BindingsWhy`](crate::BindingsWhy). A server without a line is free, idle and up.
///
/// # Errors
///
/// `At` with the number of the record from 1 and its first fault, and `Memory` where memory runs out.
pub fn read_bindings(
    alloc: Global,
    region: &Region,
    bytes: &[u8],
) -> Result<Bindings, BindingsFault>
    requires { length bytes.now ≤ 64 * 2 ^ 20 }
    ensures bindings { Gives (λ bindings. bindings.of) told result (bindings_of (server_names region.now.servers) bytes.now) }
    ensures each { IfOk result (λ bindings. length bindings.of ≡ length region.now.servers) }
{
    let Ok(records) = read_records(alloc, bytes) else {
        return Err(BindingsFault::Memory);
    };
    let bounds = match read_bounds(alloc, region, records.as_slice()) {
        Ok(bounds) => bounds,
        Err(fault) => return Err(fault),
    };
    match bindings_from(alloc, region.servers.as_slice(), &bounds) {
        Ok(of) => Ok(Bindings { of }),
        Err(_) => Err(BindingsFault::Memory),
    }
}
