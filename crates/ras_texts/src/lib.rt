//! The texts that the program prints: verdicts on documents, solved samples, and the notes on files that are not valid.
#![tactic(auto)]

mod names;
mod notes;
mod reasons;
mod samples;
mod sets;
mod verdicts;

pub use names::{board_name, rack_name, reservation_name, server_name};
pub use notes::{
    bindings_note, columns_note, document_note, events_note, failures_note, region_note,
    requests_note, rows_note, script_note,
};
pub use samples::sample_text;
pub use sets::put_line;
pub use verdicts::verdict_text;
