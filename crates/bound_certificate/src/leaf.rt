//! The leaf bound of multipliers in a box, and refutation.
ghost use Rattle.std.specs.Prelude.{◌≡◌, ℕ, ◌+◌, ◌*◌, ◌-◌, ◌/◌, ◌<◌, ◌≤◌, ◌^◌, ◌↔◌, pos, min, IfOk, IsTrue, All, List, length, slice_index, unsigned_abs};
ghost use Rattle.ip_model.specs.Points.{IsBoxOf, IsPointIn, IsWholePointIn, value_of, value_over};
ghost use Rattle.bound_certificate.specs.Bound.{leaf_bound, rounded_up, weighted_total, unrounded_numerator, Refutes, RowsInRange};

use crate::multipliers::Multipliers;
use crate::reduced;
use ip_model::{Bounds, Program};
use std::alloc::{AllocError, Global};
use std::marker::Model;

/// Scratch space for a number of columns, seen as that number.
#[derive(Drop)]
pub struct Sums {
    reduced: Vec<i128>,
}

impl Model for Sums {
    ghost use Rattle.std.specs.Prelude.{ℕ, length};

    ghost Value = { ℕ };

    ghost view = { λ sums. length sums.reduced.items };
}

impl Sums {
    /// Scratch space for this number of columns. The only fault is want of memory.
    pub fn new(alloc: Global, columns: u32) -> Result<Sums, AllocError>
        ensures { IfOk result (λ sums. sums ≡ columns) }
    {
        let reduced = vec![in alloc; 0i128; columns as usize]?;
        Ok(Sums { reduced })
    }
}

/// The base and what the rows are to reach, weighted by the multipliers, plus the least of the reduced costs over the box.
/// Base and costs are taken `scale` times.
fn weighted_sum(
    program: &Program,
    bounds: &Bounds,
    y: &Multipliers,
    scale: u64,
    sums: &mut Sums,
) -> i128
    requires is_box { IsBoxOf program.now bounds.now }
    requires rows { RowsInRange program.now y.now }
    requires sums { sums.old ≡ length program.now.columns }
    requires scale { scale ≤ 2 ^ 60 }
    ensures value { result ≡ weighted_total program.now bounds.now y.now.tops scale }
    ensures size { unsigned_abs result ≤ 2 ^ 119 }
    ensures sums { sums.new ≡ sums.old }
{
    reduced::total(
        program,
        bounds,
        y.tops.as_slice(),
        scale,
        sums.reduced.as_mut_slice(),
    )
}

/// The least whole number that is not below total / den, from 0 to 2^62.
fn rounded(total: i128, den: u64) -> u64
    requires den { 1 ≤ den }
    requires size { unsigned_abs total ≤ 2 ^ 119 }
    ensures { result ≡ min (rounded_up total den) (2 ^ 62) }
{
    if total <= 0 {
        return 0;
    }
    let den = u128::from(den);
    let up = (total as u128 + (den - 1)) / den;
    up.min(1 << 62) as u64
}

#[tactic(auto, using(crate::proofs::LeafBound::leaf_bound_under, crate::proofs::LeafBound::leaf_bound_under_up))]
/// The leaf bound of the multipliers in the box, which lies at or under the value of each whole point there.
pub fn bound(program: &Program, bounds: &Bounds, y: &Multipliers, sums: &mut Sums) -> u64
    requires is_box { IsBoxOf program.now bounds.now }
    requires rows { RowsInRange program.now y.now }
    requires sums { sums.old ≡ length program.now.columns }
    ensures value { result ≡ leaf_bound program.now bounds.now y.now }
    ensures under { (point : List ℕ) → IsWholePointIn program.now bounds.now point → result ≤ value_of program.now point }
    ensures under_up { (den : ℕ) (x : ℕ → ℕ) → 1 ≤ den → IsPointIn program.now bounds.now den x → result ≤ (value_over program.now den x + (den - 1)) / den }
    ensures sums { sums.new ≡ sums.old }
{
    rounded(weighted_sum(program, bounds, y, y.den, sums), y.den)
}

#[tactic(auto, using(crate::proofs::LeafBound::refuted_has_none))]
/// Whether the multipliers refute the box. Where they do, its relaxation has no point.
pub fn refutes(program: &Program, bounds: &Bounds, y: &Multipliers, sums: &mut Sums) -> bool
    requires is_box { IsBoxOf program.now bounds.now }
    requires rows { RowsInRange program.now y.now }
    requires sums { sums.old ≡ length program.now.columns }
    ensures value { IsTrue result ↔ Refutes program.now bounds.now y.now }
    ensures none { IsTrue result → (den : ℕ) (x : ℕ → ℕ) → 1 ≤ den → IsPointIn program.now bounds.now den x → ⊥ }
    ensures sums { sums.new ≡ sums.old }
{
    weighted_sum(program, bounds, y, 0, sums) > 0
}
