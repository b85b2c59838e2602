use std::alloc::AllocError;
use thiserror::Error;

/// Why a run was not told.
#[derive(Debug, Drop, Error)]
pub enum RunFault {
    /// A file has 2^32 bytes or more, or a line as many words.
    #[error("too long")]
    Long,
    /// What was printed or noted is no text.
    #[error("not a text")]
    NoText,
    /// Two runs of one line over the same files ended in different ways.
    #[error("two runs differ")]
    Differ,
    /// There was no memory left.
    #[error("out of memory")]
    Memory,
}

impl From<AllocError> for RunFault {
    ghost use Rattle.std.specs.Prelude.{◌≡◌};
    ghost use Rattle.memory_runs.specs.declared.fault.RunFault.TheVariants.{Memory};

    ghost from_gives = { λ _ fault. fault ≡ Memory };

    fn from(_fault: AllocError) -> RunFault {
        RunFault::Memory
    }
}
