//! Counts with the sums of the rows, the helpers that they ask, and the effects of single steps, kept while moves are made.

use crate::effects::{Effect, effects_of};
use crate::groups::columns_at;
use crate::layout::{Lack, Layout};
use std::alloc::{AllocError, Global};

/// Counts and what follows from them.
#[derive(Debug, Drop)]
pub struct State {
    /// The number of each count column, and 0 for each helper.
    pub counts: Vec<u32>,
    /// For each row what it asks, less the sum of its count columns.
    pub lacks: Vec<i64>,
    /// For each helper the least number that its rows ask.
    pub helpers: Vec<i64>,
    /// What one less of a column does.
    pub falls: Vec<Effect>,
    /// What one more of a column does.
    pub rises: Vec<Effect>,
    /// What the rows without a helper lack, added up.
    pub short: i64,
}

/// Puts a value at a place, if that is there.
pub fn put<T: Copy>(values: &mut [T], place: u32, value: T) {
    let place = place as usize;
    if place < values.len() {
        values[place] = value;
    }
}

impl State {
    /// The state of no servers at all.
    pub fn new(alloc: Global, layout: &Layout) -> Result<State, AllocError> {
        let columns = layout.strips.len();
        let rows = layout.rows.as_slice();
        Ok(State {
            counts: vec![in alloc; 0u32; columns]?,
            lacks: rows.iter().map(|asked| asked.least).collect(alloc)?,
            helpers: vec![in alloc; 0i64; columns]?,
            falls: vec![in alloc; Effect::NONE; columns]?,
            rises: vec![in alloc; Effect::NONE; columns]?,
            short: 0,
        })
    }

    /// The number of a count column.
    pub fn count(&self, column: u32) -> u32 {
        match self.counts.as_slice().get(column as usize) {
            Some(count) => *count,
            None => 0,
        }
    }

    /// The number of a helper.
    pub fn helper(&self, column: u32) -> i64 {
        match self.helpers.as_slice().get(column as usize) {
            Some(number) => *number,
            None => 0,
        }
    }

    /// What one less of a column does.
    pub fn fall(&self, column: u32) -> Effect {
        match self.falls.as_slice().get(column as usize) {
            Some(effect) => *effect,
            None => Effect::NONE,
        }
    }

    /// What one more of a column does.
    pub fn rise(&self, column: u32) -> Effect {
        match self.rises.as_slice().get(column as usize) {
            Some(effect) => *effect,
            None => Effect::NONE,
        }
    }

    /// What a row asks, less the sum of its count columns.
    pub fn lacking(&self, row: u32) -> i64 {
        match self.lacks.as_slice().get(row as usize) {
            Some(lack) => *lack,
            None => 0,
        }
    }

    /// Takes off what a column's rows lack what this many units of it give.
    pub fn add_units(&mut self, layout: &Layout, column: u32, units: i64) {
        for entry in layout.entries(column) {
            let more = entry.factor.saturating_mul(units);
            let lack = self.lacking(entry.row).saturating_sub(more);
            put(self.lacks.as_mut_slice(), entry.row, lack);
        }
    }

    /// Puts a helper at the least number that its rows ask.
    pub fn settle(&mut self, layout: &Layout, helper: u32) {
        let mut most = 0;
        for row in layout.served(helper) {
            most = most.max(self.lacking(*row));
        }
        put(self.helpers.as_mut_slice(), helper, most);
    }

    /// Settles the helpers of a column's rows.
    pub fn settle_rows(&mut self, layout: &Layout, column: u32) {
        for entry in layout.entries(column) {
            if let Lack::Helped { helper, .. } = layout.lack(entry.row) {
                self.settle(layout, helper);
            }
        }
    }

    /// Computes the effects of a column's steps again.
    pub fn weigh(&mut self, layout: &Layout, column: u32) {
        let (fall, rise) = effects_of(layout, self, column);
        put(self.falls.as_mut_slice(), column, fall);
        put(self.rises.as_mut_slice(), column, rise);
    }

    /// Computes the effects of a column and of its reservation's columns again.
    pub fn weigh_around(&mut self, layout: &Layout, column: u32) {
        self.weigh(layout, column);
        let Some(strip) = layout.strips.as_slice().get(column as usize) else {
            return;
        };
        if let Some(place) = strip.reservation {
            for other in columns_at(layout.reservations.as_slice(), place) {
                self.weigh(layout, *other);
            }
        }
    }
}
