ghost use Rattle.std.specs.Prelude.{◌≡◌, ◌≤◌, IfOk};
ghost use Rattle.region_gen.specs.Files.{inventory_text, bindings_text, requests_text};

use crate::draft::{Draft, written};
use crate::lines::requests_text;
use ras_table::List;
use std::alloc::{AllocError, Global};

/// The files of a sample region, as `ras check` and `ras solve` read them.
#[derive(Debug, Drop)]
pub struct SampleFiles {
    /// Four servers on each switchboard.
    pub inventory: List<u8>,
    /// Two reservations, `web` over both server types and `db` over one.
    pub requests: List<u8>,
    /// The servers that `web` holds, idle and up.
    pub bindings: List<u8>,
}

/// The sample region of a number up to 65,536, with 2 to 40 switchboards: its size.
pub fn sample(alloc: Global, number: u32, size: u32) -> Result<SampleFiles, AllocError>
    requires number { number ≤ 65536 }
    requires least { 2 ≤ size }
    requires most { size ≤ 40 }
    ensures inventory { IfOk result (λ files. files.inventory ≡ inventory_text number size) }
    ensures requests { IfOk result (λ files. files.requests ≡ requests_text size) }
    ensures bindings { IfOk result (λ files. files.bindings ≡ bindings_text number size) }
{
    let Draft {
        inventory,
        bindings,
        ..
    } = written(alloc, number, size)?;
    let requests = requests_text(alloc, size)?.into_bytes();
    Ok(SampleFiles {
        inventory: List::from_vec(inventory),
        requests: List::from_vec(requests),
        bindings: List::from_vec(bindings),
    })
}
