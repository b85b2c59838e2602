ghost use Rattle.std.specs.Prelude.{◌≡◌, ◌≤◌, IfOk, string_bytes};
ghost use Rattle.region_gen.specs.Draws.{drawn};
ghost use Rattle.region_gen.specs.Files.{server_name, server_type, server_home, inventory_line, bindings_line, requests_text};

use std::alloc::{AllocError, Global};

/// The draw after this one.
pub(crate) fn next_draw(draw: u32) -> u32
    requires { draw ≤ 65536 }
    ensures next { result ≡ drawn draw }
    ensures small { result ≤ 65536 }
{
    (75 * draw + 74) % 65_537
}

// The type of a server with this draw.
fn server_type(draw: u32) -> &'static str
    ensures { result.now ≡ server_type draw }
{
    if draw % 2 == 0 { "t0" } else { "t1" }
}

// The name of a server.
fn server_name(alloc: Global, switchboard: u32, place: u32) -> Result<String, AllocError>
    ensures { IfOk result (λ text. string_bytes text ≡ server_name switchboard place) }
{
    format!(in alloc; "s{switchboard}x{place}")
}

// The rack, switchboard and datacenter of a server.
fn server_home(alloc: Global, switchboard: u32, place: u32) -> Result<String, AllocError>
    ensures { IfOk result (λ text. string_bytes text ≡ server_home switchboard place) }
{
    let rack = place / 2;
    let datacenter = switchboard % 2;
    format!(in alloc; "k{switchboard}x{rack},m{switchboard},d{datacenter}")
}

/// The line of a server in the inventory.
pub(crate) fn inventory_line(
    alloc: Global,
    draw: u32,
    switchboard: u32,
    place: u32,
) -> Result<String, AllocError>
    ensures { IfOk result (λ line. string_bytes line ≡ inventory_line draw switchboard place) }
{
    let name = server_name(alloc, switchboard, place)?;
    let kind = server_type(draw);
    let home = server_home(alloc, switchboard, place)?;
    format!(in alloc; "{name},{kind},{home}\n")
}

/// The line of a server in the bindings, or no text where nothing holds it.
pub(crate) fn bindings_line(
    alloc: Global,
    draw: u32,
    switchboard: u32,
    place: u32,
) -> Result<String, AllocError>
    ensures { IfOk result (λ line. string_bytes line ≡ bindings_line draw switchboard place) }
{
    if draw % 3 == 0 {
        let name = server_name(alloc, switchboard, place)?;
        format!(in alloc; "{name},web,0,1\n")
    } else {
        Ok(String::new(alloc))
    }
}

/// The requests of a sample with this many switchboards.
pub(crate) fn requests_text(alloc: Global, size: u32) -> Result<String, AllocError>
    requires least { 1 ≤ size }
    requires most { size ≤ 40 }
    ensures { IfOk result (λ text. string_bytes text ≡ requests_text size) }
{
    let need = 10 * (size - 1);
    let rack_weight = if size % 2 == 0 { 1u32 } else { 0u32 };
    format!(in alloc;
        "{{\"format\":1,\"moves\":{{\"busy\":20,\"idle\":3,\"take\":1}},\"reservations\":[{{\"name\":\"web\",\"need\":{need},\"rack_limit\":10,\"rack_weight\":{rack_weight},\"values\":{{\"t0\":10,\"t1\":6}}}},{{\"name\":\"db\",\"need\":8,\"values\":{{\"t1\":8}}}}]}}"
    )
}
