ghost use Rattle.std.specs.Prelude.{◌≡◌, ◌≤◌, ◌<◌, ◌^◌, length, IfOk, IfSome, All, Some, None, true, map, option_map, option_and_then, nat_le, nat_lt};
ghost use Rattle.std.specs.List.{list_all};
ghost use Rattle.serde_json.specs.View.{view};
ghost use Rattle.ras_table.specs.Answers.{Gives};
ghost use Rattle.bound_certificate.specs.Rising.{TopInRange};
ghost use Rattle.plan_document.specs.Sizes.{size};
ghost use Rattle.plan_document.specs.Numbers.{rises_from};
ghost use Rattle.plan_document.specs.Shapes.{word_at, weights_of, fractions_of, cut_with, cut_of, shape_of, Rises, is_den, is_place, is_count, pair_fits, if_all, if_weights_fit, if_fractions_fit, if_shown_fits, if_cut_fits, if_fits};
ghost use Rattle.plan_document.specs.Seen.{seen_top, seen_multipliers, seen_point, seen_node};
ghost use Rattle.plan_document.specs.Faults.{told, node_at};
ghost use Rattle.plan_document.specs.declared.shape.Shape.TheVariants.{Split};

use crate::fault::{DocFault, DocPlace, DocWhy};
use crate::numbers::{has_size, numbers_at, pairs_at, whole_at};
use crate::shape::{Cut, Fractions, Pair, Shape, Weights};
use bound_certificate::{Multipliers, Node, Top};
use ip_model::Point;
use ras_table::List;
use serde_json::Value;
use std::alloc::{AllocError, Global};

// An entry that is a text.
fn word_at(value: &Value, place: usize) -> Option<&str>
    ensures { option_map (λ s. s.now) result ≡ word_at place (view value.now) }
{
    match value.get(place) {
        Some(found) => found.as_str(),
        None => None,
    }
}

// The multipliers of a leaf.
fn weights_of(alloc: Global, value: &Value) -> Result<Option<Weights>, AllocError>
    requires { size (view value.now) < 2 ^ 32 }
    ensures is { IfOk result (λ w. w ≡ weights_of (view value.now)) }
    ensures rises { IfOk result (λ w. IfSome w (λ w. rises_from None w.pairs ≡ true)) }
{
    if !has_size(value, 3) {
        return Ok(None);
    }
    let Some(den) = whole_at(value, 1) else {
        return Ok(None);
    };
    let Some(pairs) = pairs_at(alloc, value, 2)? else {
        return Ok(None);
    };
    Ok(Some(Weights { den, pairs }))
}

// A shown point.
fn fractions_of(alloc: Global, value: &Value) -> Result<Option<Fractions>, AllocError>
    requires { size (view value.now) < 2 ^ 32 }
    ensures { IfOk result (λ f. f ≡ fractions_of (view value.now)) }
{
    let Some(den) = whole_at(value, 5) else {
        return Ok(None);
    };
    let Some(whole) = numbers_at(alloc, value, 6)? else {
        return Ok(None);
    };
    let Some(part) = numbers_at(alloc, value, 7)? else {
        return Ok(None);
    };
    if whole.len() == part.len() {
        Ok(Some(Fractions { den, whole, part }))
    } else {
        Ok(None)
    }
}

// A split with this point.
fn cut_with(shown: Option<Fractions>, value: &Value) -> Option<Cut>
    ensures { result ≡ cut_with shown (view value.now) }
{
    let column = whole_at(value, 1)?;
    let at = whole_at(value, 2)?;
    let low = whole_at(value, 3)?;
    let high = whole_at(value, 4)?;
    Some(Cut {
        column,
        at,
        low,
        high,
        shown,
    })
}

// A split.
fn cut_of(alloc: Global, value: &Value) -> Result<Option<Cut>, AllocError>
    requires { size (view value.now) < 2 ^ 32 }
    ensures { IfOk result (λ c. c ≡ cut_of (view value.now)) }
{
    if has_size(value, 5) {
        return Ok(cut_with(None, value));
    }
    if !has_size(value, 8) {
        return Ok(None);
    }
    let Some(shown) = fractions_of(alloc, value)? else {
        return Ok(None);
    };
    Ok(cut_with(Some(shown), value))
}

// A node, before its ranges are tested.
fn shape_of(alloc: Global, value: &Value) -> Result<Option<Shape>, AllocError>
    requires { size (view value.now) < 2 ^ 32 }
    ensures is { IfOk result (λ s. s ≡ shape_of (view value.now)) }
    ensures rises { IfOk result (λ s. IfSome s Rises) }
{
    let Some(word) = word_at(value, 0) else {
        return Ok(None);
    };
    if word.as_bytes() == "split".as_bytes() {
        return match cut_of(alloc, value)? {
            Some(cut) => Ok(Some(Shape::Split(cut))),
            None => Ok(None),
        };
    }
    if word.as_bytes() == "bound".as_bytes() {
        return match weights_of(alloc, value)? {
            Some(weights) => Ok(Some(Shape::Bound(weights))),
            None => Ok(None),
        };
    }
    if word.as_bytes() == "refute".as_bytes() {
        return match weights_of(alloc, value)? {
            Some(weights) => Ok(Some(Shape::Refute(weights))),
            None => Ok(None),
        };
    }
    Ok(None)
}

// Whether a number may be a denominator or a numerator.
fn is_den(number: u64) -> bool
    ensures { result ≡ is_den number }
{
    1 <= number && number <= 1 << 60
}

// Whether a number may be a row's or a column's.
fn is_place(number: u64) -> bool
    ensures { result ≡ is_place number }
{
    number <= 2047
}

// Whether a number may be a column's.
fn is_count(number: u64) -> bool
    ensures { result ≡ is_count number }
{
    number <= 4_294_967_294
}

// Whether a row and its numerator are in their ranges.
fn pair_fits(pair: Pair) -> bool
    ensures is { result ≡ pair_fits pair }
    ensures small { result ≡ true → pair.row ≤ 2047 }
    ensures range { result ≡ true → is_den pair.num ≡ true }
{
    is_place(pair.row) && is_den(pair.num)
}

// The multipliers of rows, if all are in their ranges.
fn tops_of(alloc: Global, pairs: &[Pair]) -> Result<Option<List<Top>>, AllocError>
    requires { length pairs.now < 2 ^ 32 }
    ensures is { IfOk result (λ tops. option_map (map seen_top) tops ≡ if_all pair_fits pairs.now) }
    ensures range { IfOk result (λ tops. IfSome tops (All TopInRange)) }
{
    let mut tops = Vec::new(alloc);
    for pair in pairs {
        if !pair_fits(*pair) {
            return Ok(None);
        }
        tops.push(Top {
            row: pair.row as u32,
            num: pair.num,
        })?;
    }
    Ok(Some(List::from_vec(tops)))
}

// The multipliers of a leaf, if all are in their ranges.
fn multipliers_of(alloc: Global, weights: &Weights) -> Result<Option<Multipliers>, AllocError>
    requires { rises_from None weights.now.pairs ≡ true }
    ensures { IfOk result (λ m. option_map seen_multipliers m ≡ if_weights_fit weights.now) }
{
    if !is_den(weights.den) {
        return Ok(None);
    }
    let Some(tops) = tops_of(alloc, weights.pairs.as_slice())? else {
        return Ok(None);
    };
    Ok(Some(Multipliers {
        den: weights.den,
        tops,
    }))
}

// The numbers of columns, if all are in their range.
fn counts_of(alloc: Global, numbers: &[u64]) -> Result<Option<List<u32>>, AllocError>
    requires { length numbers.now < 2 ^ 32 }
    ensures { IfOk result (λ found. found ≡ if_all is_count numbers.now) }
{
    let mut found = Vec::new(alloc);
    for number in numbers {
        if !is_count(*number) {
            return Ok(None);
        }
        found.push(*number as u32)?;
    }
    Ok(Some(List::from_vec(found)))
}

// Whether all parts are below the denominator.
fn are_below(den: u64, parts: &[u64]) -> bool
    ensures { result ≡ list_all (λ p. nat_lt p den) parts.now }
{
    parts.iter().all(|p| *p < den)
}

// A shown point, if its numbers are in their ranges.
fn point_of(alloc: Global, shown: Fractions) -> Result<Option<Point>, AllocError>
    ensures { IfOk result (λ p. option_map seen_point p ≡ if_fractions_fit shown) }
{
    let Fractions { den, whole, part } = shown;
    if !is_den(den) {
        return Ok(None);
    }
    let Some(whole) = counts_of(alloc, whole.as_slice())? else {
        return Ok(None);
    };
    if !are_below(den, part.as_slice()) {
        return Ok(None);
    }
    Ok(Some(Point { den, whole, part }))
}

// What a split shows, if its numbers are in their ranges.
fn shown_of(alloc: Global, shown: Option<Fractions>) -> Result<Option<Option<Point>>, AllocError>
    ensures { IfOk result (λ p. option_map (option_map seen_point) p ≡ if_shown_fits shown) }
{
    match shown {
        None => Ok(Some(None)),
        Some(shown) => match point_of(alloc, shown)? {
            Some(point) => Ok(Some(Some(point))),
            None => Ok(None),
        },
    }
}

// A split, if its numbers are in their ranges.
fn split_of(alloc: Global, cut: Cut) -> Result<Option<Node>, AllocError>
    ensures { IfOk result (λ n. option_map seen_node n ≡ option_map Split (if_cut_fits cut)) }
{
    let Cut {
        column,
        at,
        low,
        high,
        shown,
    } = cut;
    if !is_place(column) || !is_count(at) || !is_count(low) || !is_count(high) {
        return Ok(None);
    }
    match shown_of(alloc, shown)? {
        Some(shown) => Ok(Some(Node::Split {
            column: column as u32,
            at: at as u32,
            low: low as u32,
            high: high as u32,
            shown,
        })),
        None => Ok(None),
    }
}

// A node, if its numbers are in their ranges.
fn node_of(alloc: Global, shape: Shape) -> Result<Option<Node>, AllocError>
    requires { Rises shape }
    ensures { IfOk result (λ n. option_map seen_node n ≡ if_fits shape) }
{
    match shape {
        Shape::Split(cut) => split_of(alloc, cut),
        Shape::Bound(weights) => match multipliers_of(alloc, &weights)? {
            Some(multipliers) => Ok(Some(Node::Bound(multipliers))),
            None => Ok(None),
        },
        Shape::Refute(weights) => match multipliers_of(alloc, &weights)? {
            Some(multipliers) => Ok(Some(Node::Refute(multipliers))),
            None => Ok(None),
        },
    }
}

/// The node at a place, or its fault.
pub fn node_at(alloc: Global, place: DocPlace, value: &Value) -> Result<Node, DocFault>
    requires { size (view value.now) < 2 ^ 32 }
    ensures { Gives seen_node told result (node_at place (view value.now)) }
{
    let Some(shape) = shape_of(alloc, value)? else {
        return Err(DocFault::At {
            place,
            why: DocWhy::Shape,
        });
    };
    let Some(node) = node_of(alloc, shape)? else {
        return Err(DocFault::At {
            place,
            why: DocWhy::Range,
        });
    };
    Ok(node)
}
