//! Texts of inventories, requests and documents.

pub(crate) use memory_runs::{FOUR, SIX, THREE, TWO, UNBOUND, document, one_request, requests};
