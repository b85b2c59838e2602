//! Runs over four files in memory, told as one text.

pub(crate) use memory_runs::{
    CHECK, Failing, NOTHING, Outcome, Solved, Texts, ran, solve, told, told_by,
};
