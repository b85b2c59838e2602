//! The protections of a case, and whether a document states them.
ghost use Rattle.std.specs.Prelude.{◌≡◌, IfOk, length};
ghost use Rattle.plan_checker.specs.Accepted.{case_protections};
ghost use Rattle.plan_checker.specs.Reasons.{protection_reason, same_protection};

use crate::verdict::Reason;
use plan_document::Document;
use plan_model::Case;
use ras_requests::Protection;
use ras_table::List;
use std::alloc::{AllocError, Global};

/// Whether two protections are the same.
fn same_protection(stated: Protection, right: Protection) -> bool
    ensures { result ≡ same_protection stated right }
{
    match stated {
        Protection::Total => matches!(right, Protection::Total),
        Protection::Board => matches!(right, Protection::Board),
        Protection::Center => matches!(right, Protection::Center),
    }
}

/// The first reservation whose stated protection is not that of the case.
pub fn protection_reason(case: &Case, document: &Document) -> Option<Reason>
    requires { length document.now.protection ≡ length case.now.wants }
    ensures { result ≡ protection_reason case.now document.now }
{
    for r in 0..case.wants.len() {
        let stated = document.protection.as_slice()[r as usize];
        let right = case.wants.as_slice()[r as usize].protection;
        if !same_protection(stated, right) {
            return Some(Reason::Protection { r });
        }
    }
    None
}

/// The protection of each reservation of the case.
pub fn case_protections(alloc: Global, case: &Case) -> Result<List<Protection>, AllocError>
    ensures { IfOk result (λ found. found ≡ case_protections case.now) }
{
    let mut found = Vec::new(alloc);
    for want in case.wants.as_slice() {
        found.push(want.protection)?;
    }
    Ok(List::from_vec(found))
}
