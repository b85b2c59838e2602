ghost use Rattle.std.specs.Prelude.{◌≡◌, ◌≤◌, ◌*◌, None, Ok, IfOk, length};
ghost use Rattle.ras_inventory.specs.Regions.{region_of, seen as seen_region};
ghost use Rattle.ras_inventory.specs.RegionRule.{server_names};
ghost use Rattle.ras_inventory.specs.Bounds.{bindings_of};
ghost use Rattle.ras_requests.specs.Requested.{requests_of, seen as seen_requests};
ghost use Rattle.plan_model.specs.Joined.{IsJoined};
ghost use Rattle.plan_model.specs.declared.cases.Grouping.TheVariants.{Class};
ghost use Rattle.program_rows.specs.Settings.{region_setting, phase_classes};
ghost use Rattle.program_rows.specs.Sizes.{size_fault_of};
ghost use Rattle.region_gen.specs.Files.{inventory_text, bindings_text, requests_text};

use crate::read::{read_bindings, read_region, read_requests};
use plan_model::{Case, join};
use ras_inventory::{Bindings, Region};
use ras_requests::Requests;
use region_gen::sample;
use std::alloc::{AllocError, Global};

/// A sample region, what is asked of it, who holds its servers, and the case of these.
#[derive(Drop)]
pub struct SampleCase {
    /// Four servers on each switchboard.
    pub region: Region,
    /// Two reservations, `web` over both server types and `db` over one.
    pub requests: Requests,
    /// Web holds about a third of the servers, and the rest are free.
    pub bindings: Bindings,
    /// What a plan is made for.
    pub case: Case,
}

/// The case of the sample region of a number up to 65,536, with 2 to 40 switchboards: its size. Each part is what is
/// read from the files of the sample, and none of them is refused. The program of the case's region fits, over classes.
///
/// # Errors
///
/// Memory runs out.
pub fn sample_case(alloc: Global, number: u32, size: u32) -> Result<SampleCase, AllocError>
    requires number { number ≤ 65536 }
    requires least { 2 ≤ size }
    requires most { size ≤ 40 }
    ensures region { IfOk result (λ s. region_of (inventory_text number size) ≡ Ok (seen_region s.region)) }
    ensures requests { IfOk result (λ s. requests_of (requests_text size) ≡ Ok (seen_requests s.requests)) }
    ensures bindings { IfOk result (λ s. bindings_of (server_names s.region.servers) (bindings_text number size) ≡ Ok s.bindings.of) }
    ensures servers { IfOk result (λ s. length s.region.servers ≡ 4 * size) }
    ensures boards { IfOk result (λ s. length s.region.boards ≡ size) }
    ensures case { IfOk result (λ s. IsJoined s.region s.requests s.bindings s.case) }
    ensures fits { IfOk result (λ s. size_fault_of s.case (region_setting s.case) (phase_classes s.case (region_setting s.case) Class) ≡ None) }
{
    let files = sample(alloc, number, size)?;
    let region = read_region(alloc, files.inventory.as_slice())?;
    let requests = read_requests(alloc, files.requests.as_slice())?;
    let bindings = read_bindings(alloc, &region, files.bindings.as_slice())?;
    let case = join(alloc, &region, &requests, &bindings)?;
    Ok(SampleCase {
        region,
        requests,
        bindings,
        case,
    })
}
