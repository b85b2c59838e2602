//! The two sides of a split.
ghost use Rattle.std.specs.Prelude.{◌≡◌, ◌-◌, ◌^◌, ◌<◌, IfOk, length};
ghost use Rattle.bound_certificate.specs.Trees.{high_side, low_side};

use ip_model::Bounds;
use ras_table::List;
use std::alloc::{AllocError, Global};

/// The box below a split.
pub fn low_side(alloc: Global, bounds: &Bounds, column: u32, at: u32) -> Result<Bounds, AllocError>
    requires { column < length bounds.now.high }
    ensures { IfOk result (λ side. side ≡ low_side bounds.now column at) }
{
    let low = bounds.low.as_slice().to_vec(alloc)?;
    let mut high = bounds.high.as_slice().to_vec(alloc)?;
    high[column as usize] = at;
    Ok(Bounds {
        low: List::from_vec(low),
        high: List::from_vec(high),
    })
}

/// The box above a split.
pub fn high_side(alloc: Global, bounds: &Bounds, column: u32, at: u32) -> Result<Bounds, AllocError>
    requires column { column < length bounds.now.low }
    requires at { at < 2 ^ 32 - 1 }
    ensures { IfOk result (λ side. side ≡ high_side bounds.now column at) }
{
    let mut low = bounds.low.as_slice().to_vec(alloc)?;
    let high = bounds.high.as_slice().to_vec(alloc)?;
    low[column as usize] = at + 1;
    Ok(Bounds {
        low: List::from_vec(low),
        high: List::from_vec(high),
    })
}
