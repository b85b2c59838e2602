//! What one less and one more of a column do to the cost and to what is short.

use crate::layout::{Lack, Layout};
use crate::state::State;

/// A change of the cost, and of the units that rows without a helper lack.
#[derive(Clone, Copy, Debug)]
pub struct Effect {
    pub cost: i64,
    pub short: i64,
}

impl Effect {
    pub const NONE: Effect = Effect { cost: 0, short: 0 };

    /// Both changes. A sum that does not fit is the nearest that does.
    pub fn with(self, other: Effect) -> Effect {
        Effect {
            cost: self.cost.saturating_add(other.cost),
            short: self.short.saturating_add(other.short),
        }
    }
}

/// The helper's number once one of its rows lacks `next`.
fn helper_after(layout: &Layout, state: &State, helper: u32, row: u32, next: i64) -> i64 {
    let number = state.helper(helper);
    if next >= number {
        return next;
    }
    if state.lacking(row) < number {
        return number;
    }
    let mut most = next.max(0);
    for other in layout.served(helper) {
        if *other != row {
            most = most.max(state.lacking(*other));
        }
    }
    most
}

/// What it does that a row lacks `next` in place of `lack`.
fn effect_in_row(layout: &Layout, state: &State, row: u32, lack: i64, next: i64) -> Effect {
    match layout.lack(row) {
        Lack::OfClass => Effect::NONE,
        Lack::Hard => Effect {
            cost: 0,
            short: next.max(0).saturating_sub(lack.max(0)),
        },
        Lack::Helped { helper, cost } => {
            let after = helper_after(layout, state, helper, row, next);
            let change = after.saturating_sub(state.helper(helper));
            Effect {
                cost: cost.saturating_mul(change),
                short: 0,
            }
        }
    }
}

/// Whether a row changes nothing where it lacks one of these: it has no helper, and is met with both.
fn is_idle(layout: &Layout, row: u32, most: i64) -> bool {
    match layout.lack(row) {
        Lack::OfClass => true,
        Lack::Hard => most <= 0,
        Lack::Helped { .. } => false,
    }
}

/// What one less of a count column does, and what one more does.
pub fn effects_of(layout: &Layout, state: &State, column: u32) -> (Effect, Effect) {
    let cost = layout.cost(column);
    let mut fall = Effect {
        cost: cost.saturating_neg(),
        short: 0,
    };
    let mut rise = Effect { cost, short: 0 };
    for entry in layout.entries(column) {
        let lack = state.lacking(entry.row);
        let less = lack.saturating_add(entry.factor);
        let more = lack.saturating_sub(entry.factor);
        if !is_idle(layout, entry.row, less.max(more)) {
            fall = fall.with(effect_in_row(layout, state, entry.row, lack, less));
            rise = rise.with(effect_in_row(layout, state, entry.row, lack, more));
        }
    }
    (fall, rise)
}
