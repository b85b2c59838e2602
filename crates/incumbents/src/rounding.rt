//! Counts from the numbers of a point, class by class.

use crate::layout::{Lack, Layout};
use crate::state::{State, put};
use ip_model::{Mark, Point};

/// The whole number nearest to a column's number, the greater of two.
fn nearest(point: &Point, column: u32) -> u32 {
    let place = column as usize;
    let Some(whole) = point.whole.as_slice().get(place) else {
        return 0;
    };
    let Some(part) = point.part.as_slice().get(place) else {
        return *whole;
    };
    if point.den.saturating_sub(*part) <= *part {
        whole.saturating_add(1)
    } else {
        *whole
    }
}

/// Rounds the numbers of a class. Each column but the last takes what is nearest, as far as there are servers, and the last what is left.
fn round_class(layout: &Layout, class: &[u32], point: &Point, counts: &mut [u32]) {
    let Some((last, others)) = class.split_last() else {
        return;
    };
    let mut left = layout.top(*last);
    for column in others {
        let number = nearest(point, *column).min(left);
        put(counts, *column, number);
        left -= number;
    }
    put(counts, *last, left);
}

/// Rounds the numbers of each class.
pub fn round(layout: &Layout, point: &Point, counts: &mut [u32]) {
    for class in layout.classes.as_slice() {
        round_class(layout, class.columns.as_slice(), point, counts);
    }
}

/// Takes over the numbers of the count columns.
pub fn take_over(layout: &Layout, numbers: &[u32], counts: &mut [u32]) {
    for (j, strip) in layout.strips.as_slice().iter().enumerate() {
        if let Some(number) = numbers.get(j) {
            if matches!(strip.column.mark, Mark::Count { .. }) && j < counts.len() {
                counts[j] = *number;
            }
        }
    }
}

/// Computes what follows from a state's counts.
pub fn fill(layout: &Layout, state: &mut State) {
    for column in 0..layout.column_count {
        let count = state.count(column);
        if count > 0 {
            state.add_units(layout, column, i64::from(count));
        }
    }
    for column in 0..layout.column_count {
        state.settle(layout, column);
    }
    for row in 0..layout.row_count {
        if matches!(layout.lack(row), Lack::Hard) {
            let lack = state.lacking(row).max(0);
            state.short = state.short.saturating_add(lack);
        }
    }
    for class in layout.classes.as_slice() {
        for column in class.columns.as_slice() {
            state.weigh(layout, *column);
        }
    }
}
