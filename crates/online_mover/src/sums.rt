ghost use Rattle.std.specs.Prelude.{◌≡◌, ◌+◌, ◌^◌, ◌<◌, ◌≤◌, IfOk, length, slice_index, slice_set, replicate};
ghost use Rattle.online_mover.specs.Sums.{sums_of, empty_sums, lessened, raised};

use ras_table::List;
use std::alloc::{AllocError, Global};

/// The units of one reservation, in total, on each switchboard and in each datacenter.
#[derive(Clone, Copy, Debug)]
pub struct Sums {
    pub total: u64,
    pub boards: [u64; 64],
    pub centers: [u64; 64],
}

/// The sums of so many reservations that no server counts for.
pub(crate) fn sums_of_none(alloc: Global, reservations: u32) -> Result<List<Sums>, AllocError>
    ensures { IfOk result (λ sums. sums ≡ replicate reservations empty_sums) }
{
    let empty = Sums {
        total: 0,
        boards: [0; 64],
        centers: [0; 64],
    };
    let items = vec![in alloc; empty; reservations as usize]?;
    Ok(List::from_vec(items))
}

/// The units at one number of a table. Past its end are none.
pub(crate) fn entry(table: &[u64; 64], number: u32) -> u64
    ensures { result ≡ slice_index table.now number }
{
    table.get(number as usize).copied().unwrap_or(0)
}

/// Reservation r has so many units less on a switchboard of a datacenter.
pub(crate) fn lessen(sums: &mut List<Sums>, r: u32, board: u32, center: u32, units: u64)
    requires there { r < length sums.old }
    requires board { board < 64 }
    requires center { center < 64 }
    requires total { units ≤ (sums_of sums.old r).total }
    requires on_board { units ≤ slice_index (sums_of sums.old r).boards board }
    requires in_center { units ≤ slice_index (sums_of sums.old r).centers center }
    ensures { sums.new ≡ slice_set sums.old r (lessened (sums_of sums.old r) board center units) }
{
    let mut mine = sums.as_slice()[r as usize];
    mine.total -= units;
    mine.boards[board as usize] -= units;
    mine.centers[center as usize] -= units;
    sums.set(r, mine);
}

/// Reservation r has so many units more on a switchboard of a datacenter.
pub(crate) fn raise(sums: &mut List<Sums>, r: u32, board: u32, center: u32, units: u64)
    requires there { r < length sums.old }
    requires board { board < 64 }
    requires center { center < 64 }
    requires units { units < 2 ^ 32 }
    requires total { (sums_of sums.old r).total < 2 ^ 32 }
    requires on_board { slice_index (sums_of sums.old r).boards board < 2 ^ 32 }
    requires in_center { slice_index (sums_of sums.old r).centers center < 2 ^ 32 }
    ensures { sums.new ≡ slice_set sums.old r (raised (sums_of sums.old r) board center units) }
{
    let mut mine = sums.as_slice()[r as usize];
    mine.total += units;
    mine.boards[board as usize] += units;
    mine.centers[center as usize] += units;
    sums.set(r, mine);
}
