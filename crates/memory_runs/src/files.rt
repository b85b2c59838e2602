//! The files of a run.
ghost use Rattle.std.specs.Prelude.{◌≡◌, ◌<◌, ◌^◌, [], ◌∷◌, IfOk, length, true};
ghost use Rattle.ras_table.specs.Names.{is_name};
ghost use Rattle.ras_outside.specs.Memory.{NamesDiffer, files_of};
ghost use Rattle.memory_runs.specs.Files.{are_short, files_in};

use ras_outside::{File, MemoryShelf};
use ras_table::{List, Name, NameFault};
use std::alloc::{AllocError, Global};

/// The texts of the files `inventory`, `requests`, `bindings` and `plan`.
#[derive(Clone, Copy)]
pub struct Texts<'a> {
    /// The servers.
    pub inventory: &'a str,
    /// What is asked for.
    pub requests: &'a str,
    /// Who holds the servers.
    pub bindings: &'a str,
    /// A document.
    pub plan: &'a str,
}

/// Whether each file has fewer than 2^32 bytes.
pub fn are_short(texts: &Texts<'_>, last: &str) -> bool
    ensures { result ≡ are_short texts.now last.now }
{
    let most = 1 << 32;
    texts.inventory.len() < most
        && texts.requests.len() < most
        && texts.bindings.len() < most
        && texts.plan.len() < most
        && last.len() < most
}

// A file of this name that holds this text.
fn file(alloc: Global, name: &str, text: &str) -> Result<File, AllocError>
    requires name { is_name name.now ≡ true }
    requires short { length text.now < 2 ^ 32 }
    ensures name { IfOk result (λ file. file.name ≡ name.now) }
    ensures text { IfOk result (λ file. file.bytes ≡ text.now) }
{
    let name = match Name::read(alloc, name.as_bytes()) {
        Ok(name) => name,
        Err(NameFault::Bad) => unreachable!(),
        Err(NameFault::Memory) => return Err(AllocError),
    };
    let bytes = List::from_vec(Vec::from_slice(alloc, text.as_bytes())?);
    Ok(File { name, bytes })
}

// The files of these texts, and `last`.
fn files(alloc: Global, texts: &Texts<'_>, last: &str) -> Result<List<File>, AllocError>
    requires { are_short texts.now last.now ≡ true }
    ensures files { IfOk result (λ files. files_of files ≡ files_in texts.now last.now) }
    ensures names { IfOk result NamesDiffer }
{
    let inventory = file(alloc, "inventory", texts.inventory)?;
    let requests = file(alloc, "requests", texts.requests)?;
    let bindings = file(alloc, "bindings", texts.bindings)?;
    let plan = file(alloc, "plan", texts.plan)?;
    let last = file(alloc, "last", last)?;
    Ok(List::from_vec(vec![in alloc; inventory, requests, bindings, plan, last]?))
}

/// A shelf of the four files and `last`, of which the read with this number fails: 0 for none.
pub fn shelf(
    alloc: Global,
    texts: &Texts<'_>,
    last: &str,
    failing: u32,
) -> Result<MemoryShelf, AllocError>
    requires { are_short texts.now last.now ≡ true }
    ensures files { IfOk result (λ shelf. shelf.files ≡ files_in texts.now last.now) }
    ensures failing { IfOk result (λ shelf. shelf.failing ≡ failing ∷ []) }
{
    let files = files(alloc, texts, last)?;
    let reads = List::from_vec(vec![in alloc; failing]?);
    MemoryShelf::new(alloc, files, reads)
}
