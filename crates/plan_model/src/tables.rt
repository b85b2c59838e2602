ghost use Rattle.std.specs.Prelude.{◌≡◌, ◌<◌, ◌≤◌, ◌+◌, ◌==◌, ℕ, IsTrue, length, slice_index, take, if◌then◌else◌};
ghost use Rattle.plan_model.specs.Allowed.{fits};
ghost use Rattle.plan_model.specs.Levels.{units_in_each};

use crate::cases::{Assignment, Case};
use crate::levels::{Level, number_at};
use crate::sums::share;

/// Of how many parts one pass over the servers counts the units.
pub const BLOCK: u32 = 256;

/// A table of no units.
fn no_units() -> [u64; 256]
    ensures { (k : ℕ) → k < 256 → slice_index result k ≡ 0 }
{
    [0u64; 256]
}

/// Adds an amount in the place of a part, where the table has one. Its first place is that of the part `first`.
fn add_at(table: &mut [u64; 256], first: u32, number: u32, amount: u32)
    requires { (k : ℕ) → k < 256 → slice_index table.old k ≤ 20000000 }
    ensures { (k : ℕ) → k < 256
        → slice_index table.new k ≡ slice_index table.old k + (if number == first + k then amount else 0) }
{
    let Some(at) = number.checked_sub(first) else {
        return;
    };
    if at < BLOCK {
        table[at as usize] += u64::from(amount);
    }
}

/// The units of reservation r in the parts of one level from the number `first` on, counted in one pass over the servers.
pub fn units_by_number(case: &Case, a: &Assignment, r: u32, level: Level, first: u32) -> [u64; 256]
    requires fitting { IsTrue (fits case.now a.now) }
    requires in_range { r < length case.now.wants }
    ensures { (n : ℕ) → n ≤ 256 → take n result ≡ units_in_each level case.now a.now r first n }
{
    let places = case.places.as_slice();
    let of = a.of.as_slice();
    let mut table = no_units();
    for (i, place) in places.iter().enumerate() {
        let amount = share(case, r, place, of[i]);
        add_at(&mut table, first, number_at(level, place), amount);
    }
    table
}
