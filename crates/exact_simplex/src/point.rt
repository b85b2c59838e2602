//! The point of a least tableau.
ghost use Rattle.std.specs.Prelude.{◌≡◌, ℕ, ◌+◌, ◌*◌, ◌<◌, ◌≤◌, ◌^◌, suc, pos, ◌-ℤ◌, unsigned_abs, IfOk, IfSome, IfNone, length, slice_index};
ghost use Rattle.std.specs.Int.{◌∣◌};
ghost use Rattle.ip_model.specs.declared.point.Point.{Point};
ghost use Rattle.exact_fraction.specs.Exact.{IsRatio};
ghost use Rattle.exact_simplex.specs.Cells.{cell_of, row_of};
ghost use Rattle.exact_simplex.specs.Certificates.{IsExactPoint};
ghost use Rattle.exact_simplex.specs.Commons.{IsLeastOver, IsStepFrom};

use crate::commons::common_den;
use crate::table::Tableau;
use exact_fraction::Fraction;
use ip_model::{Bounds, Point};
use ras_table::List;
use std::alloc::{AllocError, Global};

/// A column's whole number and part over a denominator, from its low number and its step.
fn number_over(low: u32, step: Fraction, den: u64) -> (u32, u64)
    requires step { IsStepFrom low step }
    requires some { 1 ≤ den }
    requires most { den ≤ 2 ^ 60 }
    requires over { unsigned_abs step.den ∣ den }
    ensures part { result.1 < den }
    ensures value { IsRatio step.num step.den (pos (result.0 * den + result.1) -ℤ pos (den * low)) (pos den) }
{
    let own = step.den.unsigned_abs();
    let top = step.num.unsigned_abs();
    let part = (top % own) * (u128::from(den) / own);
    (low + (top / own) as u32, part as u64)
}

/// The steps of the columns above their low numbers.
fn steps_of(alloc: Global, at: &Tableau) -> Result<Vec<Fraction>, AllocError>
    requires { length at.now.units < length at.now.cells }
    ensures size { IfOk result (λ steps. length steps.items ≡ length at.now.units) }
    ensures steps { IfOk result (λ steps. (j : ℕ) → j < length at.now.units → cell_of steps.items j ≡ cell_of (row_of at.now.cells (suc j)) 0) }
{
    let columns = at.columns() - 1;
    let mut steps = Vec::with_capacity(alloc, columns as usize)?;
    for j in 0..columns {
        steps.push(at.cell(j + 1, 0))?;
    }
    Ok(steps)
}

/// The point with these steps above the low numbers, over a common denominator.
fn point_over(alloc: Global, low: &[u32], steps: &[Fraction], den: u64) -> Result<Point, AllocError>
    requires few { length steps.now < 2 ^ 32 }
    requires lows { length low.now ≡ length steps.now }
    requires den { IsLeastOver (length steps.now) steps.now den }
    requires steps { (j : ℕ) → j < length steps.now → IsStepFrom (slice_index low.now j) (cell_of steps.now j) }
    ensures den { IfOk result (λ point. point.den ≡ den) }
    ensures wholes { IfOk result (λ point. length point.whole ≡ length steps.now) }
    ensures parts { IfOk result (λ point. length point.part ≡ length steps.now) }
    ensures values { IfOk result (λ point. (j : ℕ) → j < length steps.now → IsRatio (cell_of steps.now j).num (cell_of steps.now j).den (pos (slice_index point.whole j * den + slice_index point.part j) -ℤ pos (den * slice_index low.now j)) (pos den)) }
{
    let mut whole = Vec::with_capacity(alloc, steps.len())?;
    let mut part = Vec::with_capacity(alloc, steps.len())?;
    for (j, step) in steps.iter().enumerate() {
        let number = number_over(low[j], *step, den);
        whole.push(number.0)?;
        part.push(number.1)?;
    }
    Ok(Point {
        den,
        whole: List::from_vec(whole),
        part: List::from_vec(part),
    })
}

/// The point of a least tableau, where it has a denominator up to 2^60.
pub fn point_of(alloc: Global, at: &Tableau, bounds: &Bounds) -> Result<Option<Point>, AllocError>
    requires size { length at.now.units < length at.now.cells }
    requires lows { length bounds.now.low ≡ length at.now.units }
    requires steps { (j : ℕ) → j < length at.now.units → IsStepFrom (slice_index bounds.now.low j) (cell_of (row_of at.now.cells (suc j)) 0) }
    ensures point { IfOk result (λ found. IfSome found (λ point. IsExactPoint bounds.now at.now point)) }
    ensures none { IfOk result (λ found. IfNone found ((point : Point) → IsExactPoint bounds.now at.now point → ⊥)) }
{
    let steps = steps_of(alloc, at)?;
    let Some(den) = common_den(steps.as_slice()) else {
        return Ok(None);
    };
    let low = bounds.low.as_slice();
    Ok(Some(point_over(alloc, low, steps.as_slice(), den)?))
}
