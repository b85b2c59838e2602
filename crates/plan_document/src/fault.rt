use std::alloc::AllocError;
use thiserror::Error;

/// Why a document is refused.
#[derive(Clone, Copy, Debug, Error)]
pub enum DocWhy {
    /// The bytes are no JSON text.
    #[error("not json")]
    NotJson,
    /// A member is missing, further or of another kind, or a list has the wrong length or order.
    #[error("shape")]
    Shape,
    /// The format is neither 1 nor 2.
    #[error("format")]
    Format,
    /// A whole number is outside its range, or a text is that of no protection.
    #[error("range")]
    Range,
    /// A server or a reservation is unknown, or a reservation has no protection.
    #[error("name")]
    Name,
}

/// The place of a document's fault.
#[derive(Clone, Copy, Debug, Error)]
pub enum DocPlace {
    /// The top itself.
    #[error("top")]
    Top,
    /// The region part, without its nodes.
    #[error("region")]
    Region,
    /// A node of the region part's tree, from 0.
    #[error("region node {0}")]
    RegionNode(u32),
    /// The rack part, without its nodes.
    #[error("rack")]
    Rack,
    /// A node of the rack part's tree, from 0.
    #[error("rack node {0}")]
    RackNode(u32),
}

/// Why a document was not read.
#[derive(Clone, Copy, Debug, Error)]
pub enum DocFault {
    /// The first fault of the document, and its place.
    #[error("{place}: {why}")]
    At { place: DocPlace, why: DocWhy },
    /// There was no memory left.
    #[error("out of memory")]
    Memory,
}

impl From<AllocError> for DocFault {
    ghost use Rattle.std.specs.Prelude.{◌≡◌};
    ghost use Rattle.plan_document.specs.declared.fault.DocFault.TheVariants.{Memory};

    ghost from_gives = { λ _ fault. fault ≡ Memory };

    fn from(_fault: AllocError) -> DocFault {
        DocFault::Memory
    }
}
