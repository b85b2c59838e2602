ghost use Rattle.std.specs.Prelude.{◌≡◌, ◌≤◌, ◌<◌, ◌*◌, ◌^◌, IfOk, map, length};
ghost use Rattle.ras_table.specs.Answers.{Gives};
ghost use Rattle.ras_inventory.specs.Lines.{told};
ghost use Rattle.ras_inventory.specs.Regions.{regional, region_of, seen};
ghost use Rattle.ras_inventory.specs.Registers.{IsRegisterOf};

use crate::fault::RegionFault;
use crate::labels::{Labels, labels_of, servers_of};
use crate::lines::{Lines, read_lines};
use crate::region::Region;
use ras_table::read_records;
use std::alloc::{AllocError, Global};

// The region of these servers.
fn region_from(alloc: Global, lines: Lines) -> Result<Region, AllocError>
    requires { IsRegisterOf lines.list lines.register }
    ensures { IfOk result (λ region. seen region ≡ regional lines.list) }
{
    let Lines { list, register } = lines;
    let labels = labels_of(alloc, list.as_slice())?;
    let servers = servers_of(alloc, list.as_slice(), &labels)?;
    let Labels {
        types,
        racks,
        boards,
        centers,
    } = labels;
    Ok(Region {
        servers,
        types,
        racks,
        boards,
        centers,
        index: register.into_names(),
    })
}

/// Reads the region of an inventory, or answers its first fault. The records are taken in order, and a record's
/// faults in the order of [`RegionWhy`](crate::RegionWhy).
///
/// # Errors
///
/// `At` with the number of the record from 1 and its first fault, and `Memory` where memory runs out.
pub fn read_region(alloc: Global, bytes: &[u8]) -> Result<Region, RegionFault>
    requires { length bytes.now ≤ 64 * 2 ^ 20 }
    ensures { Gives seen told result (region_of bytes.now) }
{
    let Ok(records) = read_records(alloc, bytes) else {
        return Err(RegionFault::Memory);
    };
    let lines = match read_lines(alloc, records.as_slice()) {
        Ok(lines) => lines,
        Err(fault) => return Err(fault),
    };
    match region_from(alloc, lines) {
        Ok(region) => Ok(region),
        Err(_) => Err(RegionFault::Memory),
    }
}
