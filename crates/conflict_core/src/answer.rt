//! Whether the reservations of the requests can be met, or which clash.

use plan_document::Document;
use ras_table::List;

/// Whether all reservations can be met, or which clash. A set of reservations is the list of their numbers, which rise.
#[derive(Debug, Drop)]
pub enum CoreAnswer {
    /// The members clash, and no more without any one of them.
    Core {
        /// The reservations that clash.
        members: List<u32>,
        /// The document that says that the members can't be met.
        refutation: Document,
        /// For each member a document with an assignment for the others.
        plans: List<Document>,
    },
    /// All can be met.
    Fits {
        /// The document with an assignment for all reservations.
        plan: Document,
    },
    /// The budget was spent on a set before an assignment for it was found.
    Limit {
        /// The set.
        over: List<u32>,
        /// Its document, which has no assignment.
        document: Document,
    },
}
