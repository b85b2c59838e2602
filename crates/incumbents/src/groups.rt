//! Columns in groups, by a number that the columns of a group share.

use std::alloc::{AllocError, Global};

/// The columns that share a number, in order.
#[derive(Debug, Drop)]
pub struct Group {
    pub key: u32,
    pub columns: Vec<u32>,
}

/// The place of the group with this number, which is made where there is none.
fn place_of(alloc: Global, groups: &mut Vec<Group>, key: u32) -> Result<usize, AllocError> {
    for (i, group) in groups.as_slice().iter().enumerate() {
        if group.key == key {
            return Ok(i);
        }
    }
    groups.push(Group {
        key,
        columns: Vec::new(alloc),
    })?;
    Ok(groups.len() - 1)
}

/// Adds a column to the group with this number. The place of that group.
pub fn join(
    alloc: Global,
    groups: &mut Vec<Group>,
    key: u32,
    column: u32,
) -> Result<usize, AllocError> {
    let place = place_of(alloc, groups, key)?;
    if let Some(group) = groups.as_mut_slice().get_mut(place) {
        group.columns.push(column)?;
    }
    Ok(place)
}

/// The columns of the group at a place, of which there are none where there is no group.
pub fn columns_at(groups: &[Group], place: usize) -> &[u32] {
    match groups.get(place) {
        Some(group) => group.columns.as_slice(),
        None => &[],
    }
}
