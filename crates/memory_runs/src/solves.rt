//! A run of `solve`, and what `check` says of what it prints.
ghost use Rattle.std.specs.Prelude.{◌≡◌, ◌↔◌, ◌&&◌, [], IsTrue};
ghost use Rattle.memory_runs.specs.Files.{are_short, is_line, words_in};
ghost use Rattle.memory_runs.specs.Runs.{ended};
ghost use Rattle.memory_runs.specs.Solves.{SolvesTo};

use crate::fault::RunFault;
use crate::files::Texts;
use crate::runs::{NOTHING, Outcome, ran, told};
use std::alloc::Global;

/// The words of `solve` over the three files, without options.
pub const SOLVE: [&str; 5] = ["ras", "solve", "inventory", "requests", "bindings"];

/// What `solve` prints, and what is told of it.
#[derive(Drop)]
pub struct Solved {
    /// What it prints.
    pub document: String,
    /// Its status and its note, and then what `check` does with the document, with a bar between two.
    pub told: String,
}

// Whether two runs ended in the same way.
fn is_same(first: &Outcome, second: &Outcome) -> bool
    ensures { IsTrue result ↔ (ended first.now ≡ ended second.now) }
{
    first.status == second.status && first.printed == second.printed && first.noted == second.noted
}

/// What a run of `solve` with this line does. A second run does the same, and `check` is run over the same files with
/// what was printed as the plan.
pub fn solve(alloc: Global, line: &[&str], texts: Texts<'_>) -> Result<Solved, RunFault>
    ensures { SolvesTo texts.entry (words_in line.now) (is_line (words_in line.now) && are_short texts.entry []) result }
{
    let first = ran(alloc, line, texts, NOTHING)?;
    let second = ran(alloc, line, texts, NOTHING)?;
    if !is_same(&first, &second) {
        return Err(RunFault::Differ);
    }
    let plan = first.printed.as_str();
    let checked = match told(alloc, Texts { plan, ..texts }) {
        Ok(checked) => checked,
        Err(fault) => return Err(fault),
    };
    let told = format!(in alloc; "{}|{}|{checked}", first.status, first.noted)?;
    Ok(Solved {
        document: first.printed,
        told,
    })
}
