//! What a round gives.

use plan_document::Answer;

/// A round that was run.
#[derive(Debug, Drop)]
pub struct Round {
    /// Its text: the line with its number, its document, and the moves where the document has an assignment.
    pub text: Vec<u8>,
    /// The answer of its document.
    pub answer: Answer,
    /// Whether a further round follows: the document has an assignment, and this round is not the last of the script.
    pub goes_on: bool,
}
