//! Better whole points during a search, by moves from the points that it comes upon.
ghost use Rattle.std.specs.Prelude.{◌≡◌, ◌⊎◌, ℕ, OnOk, List, Option, Some};
ghost use Rattle.std.specs.Option.{ForSome};
ghost use Rattle.ip_model.specs.declared.program.Program.{Program};
ghost use Rattle.incumbents.specs.Incumbents.{IsIncumbent};
ghost use Rattle.branch_bound.specs.Openings.{HasWithin, Improves, IsBestSince};

use crate::explore::Explored;
use crate::found::Best;
use incumbents::{Incumbent, Layout, improve, improve_by_pairs, improve_rounded};
use ip_model::{Point, Program};
use std::alloc::{AllocError, Global};

/// Keeps a whole point where it is better than what is known.
pub fn keep_better(best: &mut Option<Best>, found: Best)
    ensures improves { Improves best.old best.new }
    ensures within { HasWithin best.new found.value }
    ensures either { (best.new ≡ best.old) ⊎ (best.new ≡ Some found) }
{
    if let Some(known) = best {
        if known.value <= found.value {
            return;
        }
    }
    *best = Some(found);
}

/// Keeps a point that moves led to, where it is better than what is known.
fn keep_offer(best: &mut Option<Best>, found: Incumbent)
    ensures improves { Improves best.old best.new }
    ensures best { (program : Program) (first : Option (List ℕ)) → IsIncumbent program found → IsBestSince program first best.old → IsBestSince program first best.new }
{
    let Incumbent { point, value } = found;
    keep_better(best, Best { point, value });
}

/// The same where there is one.
fn keep_any(best: &mut Option<Best>, found: Option<Incumbent>)
    ensures improves { Improves best.old best.new }
    ensures best { (program : Program) (first : Option (List ℕ)) → ForSome found (λ offer. IsIncumbent program offer) → IsBestSince program first best.old → IsBestSince program first best.new }
{
    if let Some(found) = found {
        keep_offer(best, found);
    }
}

/// Whether a value is less than that of what is known.
fn is_better(best: &Option<Best>, value: u64) -> bool {
    match best {
        Some(best) => value < best.value,
        None => true,
    }
}

/// Offers what pairs of moves from these numbers lead to.
fn offer_pairs(
    alloc: Global,
    program: &Program,
    layout: &Layout,
    numbers: &[u32],
    best: &mut Option<Best>,
) -> Result<(), AllocError>
    ensures improves { OnOk result (Improves best.old best.new) }
    ensures best { OnOk result ((first : Option (List ℕ)) → IsBestSince program.now first best.old → IsBestSince program.now first best.new) }
{
    let found = improve_by_pairs(alloc, program, layout, numbers)?;
    keep_any(best, found);
    Ok(())
}

/// Offers what single moves from these numbers lead to, and then what pairs of moves do.
pub fn offer_first(
    alloc: Global,
    program: &Program,
    layout: &Layout,
    numbers: &[u32],
    best: &mut Option<Best>,
) -> Result<(), AllocError>
    ensures improves { OnOk result (Improves best.old best.new) }
    ensures best { OnOk result ((first : Option (List ℕ)) → IsBestSince program.now first best.old → IsBestSince program.now first best.new) }
{
    let found = improve(alloc, program, layout, numbers)?;
    keep_any(best, found);
    offer_pairs(alloc, program, layout, numbers, best)
}

/// The same by pairs of moves, where it is wanted.
fn offer_pairs_if(
    alloc: Global,
    program: &Program,
    layout: &Layout,
    numbers: &[u32],
    wanted: bool,
    best: &mut Option<Best>,
) -> Result<(), AllocError>
    ensures improves { OnOk result (Improves best.old best.new) }
    ensures best { OnOk result ((first : Option (List ℕ)) → IsBestSince program.now first best.old → IsBestSince program.now first best.new) }
{
    if !wanted {
        return Ok(());
    }
    offer_pairs(alloc, program, layout, numbers, best)
}

/// Offers what single moves from a point of the relaxation lead to. Where that is better than what is known, or `always`, pairs of moves
/// go on from it: they take many times as long, so a search does not try them at each node.
pub fn offer_rounded(
    alloc: Global,
    program: &Program,
    layout: &Layout,
    point: &Point,
    always: bool,
    best: &mut Option<Best>,
) -> Result<(), AllocError>
    ensures improves { OnOk result (Improves best.old best.new) }
    ensures best { OnOk result ((first : Option (List ℕ)) → IsBestSince program.now first best.old → IsBestSince program.now first best.new) }
{
    let Some(found) = improve_rounded(alloc, program, layout, point)? else {
        return Ok(());
    };
    let wanted = always || is_better(best, found.value);
    offer_pairs_if(alloc, program, layout, found.point.as_slice(), wanted, best)?;
    keep_offer(best, found);
    Ok(())
}

/// The same from the point that tells how a box is to be split, where there is one.
pub fn offer_explored(
    alloc: Global,
    program: &Program,
    layout: &Layout,
    explored: &Explored,
    always: bool,
    best: &mut Option<Best>,
) -> Result<(), AllocError>
    ensures improves { OnOk result (Improves best.old best.new) }
    ensures best { OnOk result ((first : Option (List ℕ)) → IsBestSince program.now first best.old → IsBestSince program.now first best.new) }
{
    match explored {
        Explored::Divided { cut, duals: _ } => match &cut.shown {
            Some(point) => offer_rounded(alloc, program, layout, point, always, best),
            None => Ok(()),
        },
        _ => Ok(()),
    }
}
