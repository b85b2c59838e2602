//! A planner that counts what it solves.

use plan_checker::Planner;
use plan_document::{Answer, Part};
use plan_model::{Assignment, Case};
use plan_solver::ExactPlanner;
use program_rows::SizeFault;
use ras_table::List;
use std::alloc::Global;
use symmetry_classes::Classes;

/// Plans as the exact planner does, counts the phases that it solves, and has no memory for one of them.
#[derive(Debug, Drop)]
pub(crate) struct Counting {
    /// How many phases were to be solved.
    pub calls: u32,
    /// The number, from 1, of the one for which there is no memory; 0 for none.
    pub failing: u32,
}

impl Planner for Counting {
    fn first(
        &mut self,
        alloc: Global,
        case: &Case,
        classes: &Classes,
        gap: u64,
        nodes: u32,
    ) -> Result<(Answer, Part), SizeFault> {
        self.calls = self.calls.saturating_add(1);
        if self.calls == self.failing {
            return Err(SizeFault::Memory);
        }
        ExactPlanner.first(alloc, case, classes, gap, nodes)
    }

    fn second(
        &mut self,
        alloc: Global,
        case: &Case,
        from: &Assignment,
        chosen: &List<u32>,
        gap: u64,
        nodes: u32,
    ) -> Result<(Answer, Part), SizeFault> {
        self.calls = self.calls.saturating_add(1);
        if self.calls == self.failing {
            return Err(SizeFault::Memory);
        }
        ExactPlanner.second(alloc, case, from, chosen, gap, nodes)
    }
}
