//! What is found on the way to a core.

use plan_document::Document;
use program_rows::SizeFault;
use ras_table::List;
use std::alloc::AllocError;

/// A set that can't be met.
#[derive(Debug, Drop)]
pub(crate) struct Clash {
    pub members: List<u32>,
    /// The document that says so.
    pub refutation: Document,
}

/// What came of a set.
#[derive(Debug, Drop)]
pub(crate) enum Tried {
    /// It can be met.
    Met(Document),
    /// It can't.
    Clashes(Clash),
}

/// What came of taking each member of a set away in turn.
#[derive(Debug, Drop)]
pub(crate) enum Found {
    /// Without any one member the others can be met.
    Plans(List<Document>),
    /// Without one member the others clash still.
    Fewer(Clash),
}

/// Why no more is found.
#[derive(Debug, Drop)]
pub(crate) enum Stop {
    /// A program is too large, or there is no memory.
    Size(SizeFault),
    /// The budget was spent on this set.
    Spent(List<u32>, Document),
}

impl From<AllocError> for Stop {
    ghost use Rattle.std.specs.Prelude.{◌≡◌};
    ghost use Rattle.program_rows.specs.declared.fault.SizeFault.TheVariants.{Memory};
    ghost use Rattle.conflict_core.specs.declared.steps.Stop.TheVariants.{Size};

    ghost from_gives = { λ _ stop. stop ≡ Size Memory };

    fn from(_fault: AllocError) -> Stop {
        Stop::Size(SizeFault::Memory)
    }
}
