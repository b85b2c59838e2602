use online_mover::EventsWhy;
use thiserror::Error;

/// Why a script is refused.
#[derive(Debug, Drop, Error)]
pub enum ScriptFault {
    /// The first record that is refused, by its number from 1.
    #[error("line {line}: {why}")]
    At { line: u32, why: EventsWhy },
    /// There was too little memory.
    #[error("out of memory")]
    Memory,
}
