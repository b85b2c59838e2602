//! What a command answers, by the bytes of its files.
#![tactic(auto)]

mod all;
mod answer;
mod check;
mod cores;
mod inputs;
mod laws;
mod moves;
mod rounds;
mod sampling;
mod solving;
mod spares;
mod targets;

pub use all::{CaseFiles, Inputs};
pub use answer::{Answer, Ending};
pub use check::{Judged, check_answer, judge, read_inputs};
pub use cores::core_answer;
pub use inputs::InputFault;
pub use laws::{core_is_checked, solved_is_checked};
pub use moves::move_answer;
pub use rounds::{RoundAnswer, RoundsRun, RoundsStart, start_rounds};
pub use sampling::sample_answer;
pub use solving::{Options, solve_answer};
pub use spares::spare_answer;
