ghost use Rattle.std.specs.Prelude.{◌≡◌, ◌≤◌, ◌*◌, ◌^◌, Ok, IfOk, List, length};
ghost use Rattle.ras_inventory.specs.Regions.{Regional, region_of, seen as seen_region};
ghost use Rattle.ras_inventory.specs.RegionRule.{server_names};
ghost use Rattle.ras_inventory.specs.Bounds.{bindings_of};
ghost use Rattle.ras_inventory.specs.declared.bindings.Binding.{Binding};
ghost use Rattle.ras_requests.specs.Requested.{Requested, requests_of, seen as seen_requests};

use ras_inventory::{
    Bindings, BindingsFault, Region, RegionFault, read_bindings as bindings_in,
    read_region as region_in,
};
use ras_requests::{Requests, RequestsFault, read_requests as requests_in};
use std::alloc::{AllocError, Global};

/// The region of a valid inventory.
pub(crate) fn read_region(alloc: Global, inventory: &[u8]) -> Result<Region, AllocError>
    requires small { length inventory.now ≤ 64 * 2 ^ 20 }
    requires valid { (regional : Regional) × (region_of inventory.now ≡ Ok regional) }
    ensures { IfOk result (λ region. region_of inventory.now ≡ Ok (seen_region region)) }
{
    match region_in(alloc, inventory) {
        Ok(region) => Ok(region),
        Err(RegionFault::Memory) => Err(AllocError),
        Err(RegionFault::At { .. }) => unreachable!(),
    }
}

/// The requests of a valid file.
pub(crate) fn read_requests(alloc: Global, requests: &[u8]) -> Result<Requests, AllocError>
    requires small { length requests.now ≤ 64 * 2 ^ 20 }
    requires valid { (requested : Requested) × (requests_of requests.now ≡ Ok requested) }
    ensures { IfOk result (λ read. requests_of requests.now ≡ Ok (seen_requests read)) }
{
    match requests_in(alloc, requests) {
        Ok(read) => Ok(read),
        Err(RequestsFault::Memory) => Err(AllocError),
        Err(RequestsFault::At { .. }) => unreachable!(),
    }
}

/// The bindings of a valid file of a region.
pub(crate) fn read_bindings(
    alloc: Global,
    region: &Region,
    bindings: &[u8],
) -> Result<Bindings, AllocError>
    requires small { length bindings.now ≤ 64 * 2 ^ 20 }
    requires valid { (list : List Binding) × (bindings_of (server_names region.now.servers) bindings.now ≡ Ok list) }
    ensures bindings { IfOk result (λ read. bindings_of (server_names region.now.servers) bindings.now ≡ Ok read.of) }
    ensures each { IfOk result (λ read. length read.of ≡ length region.now.servers) }
{
    match bindings_in(alloc, region, bindings) {
        Ok(read) => Ok(read),
        Err(BindingsFault::Memory) => Err(AllocError),
        Err(BindingsFault::At { .. }) => unreachable!(),
    }
}
