ghost use Rattle.std.specs.Prelude.{◌≡◌, ◌≤◌, ◌*◌, ◌^◌, [], All, IfErr, IsErrOf, IfOk, IsTrue, length, map};
ghost use Rattle.std.specs.List.{list_all};
ghost use Rattle.ras_outside.specs.Causes.{Rose, RoseBy};
ghost use Rattle.ras_cli.specs.Asked.{BreaksHeld, HasTexts, LongerHeld};
ghost use Rattle.ras_cli.specs.Named.{has_limit, limited};
ghost use Rattle.ras_cli.specs.Reads.{ReadsInOrder};

use ras_outside::{Shelf, ShelfFault};
use std::alloc::Global;

/// A file by its name.
#[derive(Clone, Copy, Debug)]
pub struct Named<'a> {
    /// The name under which it is read.
    pub name: &'a str,
    /// The most bytes that it may have.
    pub most: usize,
}

/// Reads named files in their order, each up to its limit.
pub fn read_files<S: Shelf>(
    alloc: Global,
    named: &[Named<'_>],
    shelf: &mut S,
) -> Result<Vec<Vec<u8>>, ShelfFault>
    requires { IsTrue (list_all has_limit named.now) }
    ensures held { S.held shelf.new ≡ S.held shelf.old }
    ensures order { ReadsInOrder S.reads shelf.old (map limited named.now) result shelf.new }
    ensures each { IfOk result (λ files. length files.items ≡ length named.now) }
    ensures small { IfOk result (λ files. All (λ f. length f.items ≤ 64 * 2 ^ 20) files.items) }
    ensures texts { IfOk result (λ files. HasTexts (S.held shelf.old) (map limited named.now) (map (λ f. f.items) files.items)) }
    ensures failed { IsErrOf result ShelfFault.Failed → Rose (S.faults shelf.old) (S.faults shelf.new) }
    ensures broke { IsErrOf result ShelfFault.Failed → BreaksHeld (S.held shelf.old) (map limited named.now) (S.broke shelf.old) (S.broke shelf.new) }
    ensures long { IsErrOf result ShelfFault.Long → Rose (S.over shelf.old) (S.over shelf.new) }
    ensures taken { IsErrOf result ShelfFault.Long → RoseBy 16777217 (S.taken shelf.old) (S.taken shelf.new) }
    ensures longer { IsErrOf result ShelfFault.Long → LongerHeld (S.held shelf.old) (map limited named.now) }
    ensures unread { named.now ≡ [] → shelf.new ≡ shelf.old }
    ensures whole { named.now ≡ [] → IfErr result (λ fault. fault ≡ ShelfFault.Memory) }
{
    let mut files = Vec::new(alloc);
    for file in named {
        let bytes = match shelf.read(alloc, file.name, file.most) {
            Ok(bytes) => bytes,
            Err(fault) => return Err(fault),
        };
        if files.push(bytes).is_err() {
            return Err(ShelfFault::Memory);
        }
    }
    Ok(files)
}
