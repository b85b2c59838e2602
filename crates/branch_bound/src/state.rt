//! A search under way.
ghost use Rattle.std.specs.Prelude.{◌≡◌, ℕ, ◌+◌, ◌<◌, ◌≤◌, ◌^◌, ◌↔◌, [], IfOk, IfSome, IsSome, IsTrue, OnOk, List, Option, length};
ghost use Rattle.std.specs.Option.{option_copied};
ghost use Rattle.ip_model.specs.declared.program.Program.{Program};
ghost use Rattle.ip_model.specs.Points.{full_box_of, IsWholePoint};
ghost use Rattle.search_tree.specs.Growth.{IsGrown};
ghost use Rattle.branch_bound.specs.Exploring.{IsExplored};
ghost use Rattle.branch_bound.specs.Finding.{IsFound};
ghost use Rattle.branch_bound.specs.Openings.{IsBestSince};
ghost use Rattle.branch_bound.specs.Origins.{IsOrigin};
ghost use Rattle.branch_bound.specs.Searching.{IsNear, IsPopped, IsSearch, IsStep, IsStopped};

use crate::children::children;
use crate::explore::{Explored, explore_anew};
use crate::found::{Best, Found};
use crate::frontier::Frontier;
use crate::heuristics::{offer_explored, offer_first};
use crate::leaf::OpenLeaf;
use crate::make::{Made, leaf_of};
use crate::origin::Origin;
use bound_certificate::Multipliers;
use incumbents::Layout;
use ip_model::{Bounds, Program, full_box, value};
use ras_table::List;
use search_tree::SearchTree;
use std::alloc::{AllocError, Global};

/// A search under way: the tree so far, its open leaves, and the best whole point that is known.
#[derive(Drop)]
pub struct Search {
    pub tree: SearchTree,
    pub frontier: Frontier,
    pub best: Option<Best>,
}

/// What a step of a search does.
#[derive(Clone, Copy, Debug)]
pub enum Step {
    /// A leaf was split.
    Grown,
    /// No leaf is open.
    AllRefuted,
    /// No leaf is split any more, and this is the tree's bound.
    Stopped { lower: u64 },
}

/// The first whole point with its value, where there is one.
fn known(
    alloc: Global,
    program: &Program,
    first: Option<&List<u32>>,
) -> Result<Option<Best>, AllocError>
    requires { IfSome (option_copied first) (IsWholePoint program.now) }
    ensures { IfOk result (λ best. IsBestSince program.now (option_copied first.entry) best) }
{
    let Some(point) = first else {
        return Ok(None);
    };
    let value = value(program, point);
    let point = List::from_vec(point.as_slice().to_vec(alloc)?);
    Ok(Some(Best { point, value }))
}

/// The first whole point, or a better one that moves lead to from it, where there is one.
fn first_best(
    alloc: Global,
    program: &Program,
    layout: &Layout,
    first: Option<&List<u32>>,
) -> Result<Option<Best>, AllocError>
    requires { IfSome (option_copied first) (IsWholePoint program.now) }
    ensures { IfOk result (λ best. IsBestSince program.now (option_copied first.entry) best) }
{
    let mut best = known(alloc, program, first)?;
    if let Some(point) = first {
        offer_first(alloc, program, layout, point.as_slice(), &mut best)?;
    }
    Ok(best)
}

/// Multipliers of no row.
fn no_multipliers(alloc: Global) -> Result<Multipliers, AllocError>
    ensures { IfOk result (λ y. y.tops ≡ []) }
{
    let tops = List::new(alloc, 0)?;
    Ok(Multipliers { den: 1, tops })
}

/// Whether the best whole point is above the bound by at most the gap.
fn is_near(best: &Option<Best>, lower: u64, gap: u64) -> bool
    ensures { IsTrue result ↔ IsNear best.now lower gap }
{
    match best {
        Some(best) => best.value.saturating_sub(lower) <= gap,
        None => false,
    }
}

/// The search whose tree is one leaf with the box of the program, in which this was found.
fn of_one_leaf(
    alloc: Global,
    program: &Program,
    bounds: &Bounds,
    explored: Explored,
    known: Option<Best>,
) -> Result<Search, AllocError>
    requires full { bounds.now ≡ full_box_of program.now }
    requires explored { IsExplored program.now bounds.now explored }
    ensures right { IfOk result (λ search. IsSearch program.now search.tree search.frontier search.best) }
    ensures size { IfOk result (λ search. length search.tree ≡ 1) }
    ensures best { IfOk result (λ search. (first : Option (List ℕ)) → IsBestSince program.now first known → IsBestSince program.now first search.best) }
{
    let mut best = known;
    let parent = no_multipliers(alloc)?;
    let Made { node, leaf } = leaf_of(alloc, program, bounds, explored, &parent, &mut best)?;
    let tree = SearchTree::new(alloc, node)?;
    let mut frontier = Frontier::new(alloc);
    frontier.push(leaf)?;
    Ok(Search {
        tree,
        frontier,
        best,
    })
}

/// The search whose tree is one leaf with the box of the program, and what all its nodes share.
pub fn start(
    alloc: Global,
    program: &Program,
    first: Option<&List<u32>>,
) -> Result<(Origin, Search), AllocError>
    requires { IfSome (option_copied first) (IsWholePoint program.now) }
    ensures origin { IfOk result (λ begun. IsOrigin program.now begun.0) }
    ensures right { IfOk result (λ begun. IsSearch program.now begun.1.tree begun.1.frontier begun.1.best) }
    ensures size { IfOk result (λ begun. length begun.1.tree ≡ 1) }
    ensures best { IfOk result (λ begun. IsBestSince program.now (option_copied first.entry) begun.1.best) }
{
    let layout = Layout::new(alloc, program)?;
    let mut best = first_best(alloc, program, &layout, first)?;
    let full = full_box(alloc, program)?;
    let (explored, at) = explore_anew(alloc, program, &full)?;
    offer_explored(alloc, program, &layout, &explored, true, &mut best)?;
    let search = of_one_leaf(alloc, program, &full, explored, best)?;
    Ok((Origin { full, at, layout }, search))
}

impl Search {
    /// Splits an open leaf of least bound, which was taken out.
    fn split(
        &mut self,
        alloc: Global,
        program: &Program,
        origin: &Origin,
        node: u32,
        leaf: OpenLeaf,
    ) -> Result<(), AllocError>
        requires origin { IsOrigin program.now origin.now }
        requires popped { IsPopped program.now self.old.tree self.old.frontier self.old.best node leaf }
        requires cut { IsSome leaf.cut }
        requires room { length self.old.tree < 2 ^ 30 }
        ensures right { OnOk result (IsSearch program.now self.new.tree self.new.frontier self.new.best) }
        ensures size { OnOk result (length self.new.tree ≡ length self.old.tree + 2) }
        ensures best { OnOk result ((first : Option (List ℕ)) → IsBestSince program.now first self.old.best → IsBestSince program.now first self.new.best) }
    {
        let cut = leaf.cut.unwrap();
        let bounds = self.tree.bounds(alloc, program, node)?;
        let parent = self.tree.multipliers(node).unwrap();
        let (low, high) = children(
            alloc,
            program,
            origin,
            &bounds,
            &cut,
            parent,
            &mut self.best,
        )?;
        self.tree
            .split(node, cut.column, cut.at, cut.shown, low.node, high.node)?;
        self.frontier.push(low.leaf)?;
        self.frontier.push(high.leaf)?;
        Ok(())
    }

    /// Splits the open leaf of least bound, unless the best whole point is near its bound or the budget has no room.
    pub fn step(
        &mut self,
        alloc: Global,
        program: &Program,
        origin: &Origin,
        gap: u64,
        nodes: u32,
    ) -> Result<Step, AllocError>
        requires origin { IsOrigin program.now origin.now }
        requires right { IsSearch program.now self.old.tree self.old.frontier self.old.best }
        requires budget { nodes ≤ 20000 }
        requires within { length self.old.tree ≤ nodes }
        ensures step { IfOk result (λ step. IsStep program.now gap nodes (length self.old.tree) self.new.tree self.new.frontier self.new.best step) }
        ensures best { OnOk result ((first : Option (List ℕ)) → IsBestSince program.now first self.old.best → IsBestSince program.now first self.new.best) }
    {
        let Some((node, leaf)) = self.frontier.pop() else {
            return Ok(Step::AllRefuted);
        };
        let lower = leaf.bound;
        if is_near(&self.best, lower, gap) {
            return Ok(Step::Stopped { lower });
        }
        if self.tree.len() + 2 > nodes {
            return Ok(Step::Stopped { lower });
        }
        self.split(alloc, program, origin, node, leaf)?;
        Ok(Step::Grown)
    }

    /// What the search found, where it is over with this bound.
    pub fn finish(self, lower: u64, gap: u64) -> Found
        ensures { (program : Program) (first : Option (List ℕ)) (budget : ℕ) → IsGrown program self.tree → length self.tree ≤ budget → IsBestSince program first self.best → IsStopped program self.tree self.best lower gap budget → IsFound program first gap budget result }
    {
        let near = is_near(&self.best, lower, gap);
        let tree = self.tree.into_tree();
        if !near {
            return Found::Limit {
                best: self.best,
                lower,
                tree,
            };
        }
        let Best { point, value } = self.best.unwrap();
        Found::Plan {
            point,
            value,
            lower,
            tree,
        }
    }
}
