//! The planner that searches the programs of both phases.

use plan_checker::Planner;
use plan_document::{Answer, Part};
use plan_model::{Assignment, Case, Grouping};
use program_rows::SizeFault;
use rack_phase::rack;
use ras_table::List;
use region_phase::region_with;
use std::alloc::Global;
use symmetry_classes::Classes;

/// Solves each phase by an exact search of its program, from the first plan or the region's assignment on. It keeps nothing
/// between its calls.
#[derive(Debug, Clone, Copy)]
pub struct ExactPlanner;

impl Planner for ExactPlanner {
    fn first(
        &mut self,
        alloc: Global,
        case: &Case,
        classes: &Classes,
        gap: u64,
        nodes: u32,
    ) -> Result<(Answer, Part), SizeFault> {
        region_with(alloc, case, classes, gap, nodes)
    }

    fn second(
        &mut self,
        alloc: Global,
        case: &Case,
        from: &Assignment,
        chosen: &List<u32>,
        gap: u64,
        nodes: u32,
    ) -> Result<(Answer, Part), SizeFault> {
        rack(alloc, case, from, chosen, Grouping::Class, gap, nodes)
    }
}
