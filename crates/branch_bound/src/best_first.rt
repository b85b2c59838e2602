//! The search: the open leaf of least bound is split until a whole point is near it, or the budget is spent.
ghost use Rattle.std.specs.Prelude.{◌≤◌, IfOk, IfSome};
ghost use Rattle.std.specs.Option.{option_copied};
ghost use Rattle.ip_model.specs.Points.{IsWholePoint};
ghost use Rattle.branch_bound.specs.Finding.{IsFound};

use crate::found::Found;
use crate::state::{Step, start};
use ip_model::Program;
use ras_table::List;
use std::alloc::{AllocError, Global};

/// Searches for a whole point whose value is above the least one by at most the gap, with a tree of at most so many nodes, which bounds
/// the program from below. It starts from the first whole point, where there is one. The only fault is want of memory.
pub fn search(
    alloc: Global,
    program: &Program,
    first: Option<&List<u32>>,
    gap: u64,
    nodes: u32,
) -> Result<Found, AllocError>
    requires some { 1 ≤ nodes }
    requires few { nodes ≤ 20000 }
    requires first { IfSome (option_copied first) (IsWholePoint program.now) }
    ensures { IfOk result (λ found. IsFound program.now (option_copied first.entry) gap nodes found) }
{
    let (origin, mut search) = start(alloc, program, first)?;
    loop {
        match search.step(alloc, program, &origin, gap, nodes)? {
            Step::Grown => {}
            Step::AllRefuted => {
                return Ok(Found::Empty {
                    tree: search.tree.into_tree(),
                });
            }
            Step::Stopped { lower } => return Ok(search.finish(lower, gap)),
        }
    }
}
