use plan_document::Document;
use ras_inventory::{Bindings, Region};
use ras_requests::Requests;

/// What the files of a case say.
#[derive(Drop)]
pub struct CaseFiles {
    pub region: Region,
    pub requests: Requests,
    /// One for each server of the region.
    pub bindings: Bindings,
}

/// What the files of a case and of a plan over it say.
#[derive(Drop)]
pub struct Inputs {
    pub files: CaseFiles,
    pub document: Document,
}
