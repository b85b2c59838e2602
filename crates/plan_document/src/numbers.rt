ghost use Rattle.std.specs.Prelude.{◌≡◌, ◌<◌, ◌^◌, IfOk, length, map, option_map, option_and_then, None, nat_le, nat_lt};
ghost use Rattle.serde_json.specs.Find.{at};
ghost use Rattle.serde_json.specs.View.{view};
ghost use Rattle.plan_document.specs.Sizes.{size};
ghost use Rattle.plan_document.specs.Numbers.{wholes, entries_of, has_size, numbers_of, numbers_at, whole_at, paired, rises_from, is_above, pairs_of, pairs_at};

use crate::shape::Pair;
use ras_table::List;
use serde_json::Value;
use std::alloc::{AllocError, Global};

/// The entries of an array.
pub fn entries_of(value: &Value) -> Option<&[Value]>
    ensures { option_map (λ v. map view v.now) result ≡ entries_of (view value.now) }
{
    match value.as_array() {
        Some(entries) => Some(entries.as_slice()),
        None => None,
    }
}

/// Whether a value is an array with this many entries.
pub fn has_size(value: &Value, size: usize) -> bool
    ensures { result ≡ has_size size (view value.now) }
{
    match entries_of(value) {
        Some(entries) => entries.len() == size,
        None => false,
    }
}

// The whole numbers that values are.
fn wholes_of(alloc: Global, values: &[Value]) -> Result<Option<List<u64>>, AllocError>
    requires { length values.now < 2 ^ 32 }
    ensures { IfOk result (λ found. found ≡ wholes (map view values.now)) }
{
    let mut found = Vec::new(alloc);
    for value in values {
        let Some(number) = value.as_u64() else {
            return Ok(None);
        };
        found.push(number)?;
    }
    Ok(Some(List::from_vec(found)))
}

// The whole numbers of an array.
fn numbers_of(alloc: Global, value: &Value) -> Result<Option<List<u64>>, AllocError>
    requires { size (view value.now) < 2 ^ 32 }
    ensures { IfOk result (λ found. found ≡ numbers_of (view value.now)) }
{
    match entries_of(value) {
        Some(values) => wholes_of(alloc, values),
        None => Ok(None),
    }
}

/// The whole numbers of an array that is an entry.
pub fn numbers_at(
    alloc: Global,
    value: &Value,
    place: usize,
) -> Result<Option<List<u64>>, AllocError>
    requires { size (view value.now) < 2 ^ 32 }
    ensures { IfOk result (λ found. found ≡ numbers_at place (view value.now)) }
{
    match value.get(place) {
        Some(found) => numbers_of(alloc, found),
        None => Ok(None),
    }
}

/// An entry that is a whole number.
pub fn whole_at(value: &Value, place: usize) -> Option<u64>
    ensures { result ≡ whole_at place (view value.now) }
{
    value.get(place).and_then(Value::as_u64)
}

// The numbers of a list, two by two.
fn paired(alloc: Global, numbers: &[u64]) -> Result<Option<List<Pair>>, AllocError>
    requires { length numbers.now < 2 ^ 32 }
    ensures { IfOk result (λ found. found ≡ paired None numbers.now) }
{
    let mut found = Vec::new(alloc);
    let mut pending = None;
    for number in numbers {
        match pending {
            Some(row) => {
                found.push(Pair { row, num: *number })?;
                pending = None;
            }
            None => {
                pending = Some(*number);
            }
        }
    }
    match pending {
        Some(_) => Ok(None),
        None => Ok(Some(List::from_vec(found))),
    }
}

// Whether a row is above the one before, if there is one.
fn is_above(last: Option<u64>, row: u64) -> bool
    ensures { result ≡ is_above last row }
{
    match last {
        Some(last) => last < row,
        None => true,
    }
}

// Whether each row is above the one before.
fn rises(pairs: &[Pair]) -> bool
    ensures { result ≡ rises_from None pairs.now }
{
    let mut last = None;
    for pair in pairs {
        if !is_above(last, pair.row) {
            return false;
        }
        last = Some(pair.row);
    }
    true
}

// The rows and numerators of an array.
fn pairs_of(alloc: Global, value: &Value) -> Result<Option<List<Pair>>, AllocError>
    requires { size (view value.now) < 2 ^ 32 }
    ensures { IfOk result (λ found. found ≡ pairs_of (view value.now)) }
{
    let Some(numbers) = numbers_of(alloc, value)? else {
        return Ok(None);
    };
    let Some(pairs) = paired(alloc, numbers.as_slice())? else {
        return Ok(None);
    };
    if rises(pairs.as_slice()) {
        Ok(Some(pairs))
    } else {
        Ok(None)
    }
}

/// The rows and numerators of an array that is an entry.
pub fn pairs_at(
    alloc: Global,
    value: &Value,
    place: usize,
) -> Result<Option<List<Pair>>, AllocError>
    requires { size (view value.now) < 2 ^ 32 }
    ensures { IfOk result (λ found. found ≡ pairs_at place (view value.now)) }
{
    match value.get(place) {
        Some(found) => pairs_of(alloc, found),
        None => Ok(None),
    }
}
