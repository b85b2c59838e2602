ghost use Rattle.std.specs.Prelude.{◌≡◌, ◌≤◌, ◌++◌, IfOk, OnOk, codes};
ghost use Rattle.region_gen.specs.Draws.{drawn, drawn_after};
ghost use Rattle.region_gen.specs.Files.{inventory_line, bindings_line, lines_after, inventory_text, bindings_text};

use crate::lines::{bindings_line, inventory_line, next_draw};
use std::alloc::{AllocError, Global};

/// Inventory and bindings as far as they are written, and the last draw.
#[derive(Drop)]
pub(crate) struct Draft {
    pub inventory: Vec<u8>,
    pub bindings: Vec<u8>,
    pub draw: u32,
    ghost small: { draw ≤ 65536 },
}

// The heads of the files, before the first draw.
fn heads(alloc: Global, number: u32) -> Result<Draft, AllocError>
    requires { number ≤ 65536 }
    ensures inventory { IfOk result (λ draft. draft.inventory.items ≡ codes "server,type,rack,switchboard,datacenter\n") }
    ensures bindings { IfOk result (λ draft. draft.bindings.items ≡ codes "server,reservation,busy,up\n") }
    ensures draw { IfOk result (λ draft. draft.draw ≡ number) }
{
    let mut inventory = Vec::new(alloc);
    inventory.extend_from_slice(b"server,type,rack,switchboard,datacenter\n")?;
    let mut bindings = Vec::new(alloc);
    bindings.extend_from_slice(b"server,reservation,busy,up\n")?;
    Ok(Draft {
        inventory,
        bindings,
        draw: number,
    })
}

// One draw, and the lines of its server.
fn put_server(
    alloc: Global,
    draft: &mut Draft,
    switchboard: u32,
    place: u32,
) -> Result<(), AllocError>
    ensures inventory { OnOk result (draft.new.inventory.items ≡ draft.old.inventory.items ++ inventory_line (drawn draft.old.draw) switchboard place) }
    ensures bindings { OnOk result (draft.new.bindings.items ≡ draft.old.bindings.items ++ bindings_line (drawn draft.old.draw) switchboard place) }
    ensures draw { OnOk result (draft.new.draw ≡ drawn draft.old.draw) }
{
    draft.draw = next_draw(draft.draw);
    let server = inventory_line(alloc, draft.draw, switchboard, place)?;
    draft.inventory.extend_from_slice(server.as_bytes())?;
    let held = bindings_line(alloc, draft.draw, switchboard, place)?;
    draft.bindings.extend_from_slice(held.as_bytes())?;
    Ok(())
}

// The draws and lines of a switchboard.
fn put_switchboard(alloc: Global, draft: &mut Draft, switchboard: u32) -> Result<(), AllocError>
    ensures inventory { OnOk result (draft.new.inventory.items ≡ draft.old.inventory.items ++ lines_after inventory_line draft.old.draw switchboard) }
    ensures bindings { OnOk result (draft.new.bindings.items ≡ draft.old.bindings.items ++ lines_after bindings_line draft.old.draw switchboard) }
    ensures draw { OnOk result (draft.new.draw ≡ drawn_after draft.old.draw 4) }
{
    for place in 0..4 {
        put_server(alloc, draft, switchboard, place)?;
    }
    Ok(())
}

/// Inventory and bindings of this many switchboards, from a number.
pub(crate) fn written(alloc: Global, number: u32, size: u32) -> Result<Draft, AllocError>
    requires { number ≤ 65536 }
    ensures inventory { IfOk result (λ draft. draft.inventory.items ≡ inventory_text number size) }
    ensures bindings { IfOk result (λ draft. draft.bindings.items ≡ bindings_text number size) }
{
    let mut draft = heads(alloc, number)?;
    for switchboard in 0..size {
        put_switchboard(alloc, &mut draft, switchboard)?;
    }
    Ok(draft)
}
