//! The top call: from the words of a command line, a shelf and two sinks to a status.
#![tactic(auto)]

mod answers;
mod deliver;
mod files;
mod named;
mod note;
mod output;
mod top;

pub use top::run;
