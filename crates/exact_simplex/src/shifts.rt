//! The numbers of a box that change with another box.
ghost use Rattle.std.specs.Prelude.{◌≡◌, ◌+◌, ◌<◌, ◌^◌, ◌++◌, ◌-ℤ◌, pos, length, IfOk};
ghost use Rattle.exact_simplex.specs.Rebounds.{shifts_at, shifts_below, unit_from};

use ip_model::Bounds;
use std::alloc::{AllocError, Global};

/// The change of a number from which a row of the tableau measures.
#[derive(Clone, Copy)]
pub struct Shift {
    /// The row: a step for a low number, and a room for a high one.
    pub row: u32,
    /// The column, from 0 on, whose unit that row is.
    pub unit: Option<u32>,
    /// How much higher the number is.
    pub by: i64,
    /// Whether it is a low number.
    pub low: bool,
}

/// The first unit that is this row.
fn unit_of(units: &[u32], row: u32) -> Option<u32>
    requires { length units.now < 2 ^ 32 }
    ensures { result ≡ unit_from 0 units.now row }
{
    for (k, unit) in units.iter().enumerate() {
        if *unit == row {
            return Some(k as u32);
        }
    }
    None
}

/// How much higher a number is than another.
fn rise(old: u32, new: u32) -> i64
    ensures { result ≡ pos new -ℤ pos old }
{
    i64::from(new) - i64::from(old)
}

/// Adds the change of a number, where it is another one.
fn push_shift(
    shifts: &mut Vec<Shift>,
    units: &[u32],
    row: u32,
    low: bool,
    old: u32,
    new: u32,
) -> Result<(), AllocError>
    requires { length units.now < 2 ^ 32 }
    ensures { IfOk result (λ _. shifts.new.items ≡ shifts.old.items ++ shifts_at units.now row low (pos new -ℤ pos old)) }
{
    let by = rise(old, new);
    if by != 0 {
        let unit = unit_of(units, row);
        shifts.push(Shift { row, unit, by, low })?;
    }
    Ok(())
}

/// The changes from one box to another, column by column.
pub fn shifts_of(
    alloc: Global,
    units: &[u32],
    rows: u32,
    old: &Bounds,
    new: &Bounds,
) -> Result<Vec<Shift>, AllocError>
    requires few { length units.now + rows + length units.now < 2 ^ 32 }
    requires old_low { length old.now.low ≡ length units.now }
    requires old_high { length old.now.high ≡ length units.now }
    requires new_low { length new.now.low ≡ length units.now }
    requires new_high { length new.now.high ≡ length units.now }
    ensures { IfOk result (λ shifts. shifts.items ≡ shifts_below units.now rows old.now new.now (length units.now)) }
{
    let columns = units.len() as u32;
    let mut shifts = Vec::new(alloc);
    for j in 0..columns {
        let place = j as usize;
        let old_low = old.low.as_slice()[place];
        let new_low = new.low.as_slice()[place];
        push_shift(&mut shifts, units, j + 1, true, old_low, new_low)?;
        let old_high = old.high.as_slice()[place];
        let new_high = new.high.as_slice()[place];
        push_shift(
            &mut shifts,
            units,
            columns + rows + j + 1,
            false,
            old_high,
            new_high,
        )?;
    }
    Ok(shifts)
}
