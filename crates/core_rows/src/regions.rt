//! Texts of regions and requests.
ghost use Rattle.std.specs.Prelude.{◌≤◌};

use std::alloc::{AllocError, Global};

/// How many servers there are, of how many types, on how many switchboards.
#[derive(Clone, Copy)]
pub(crate) struct Region {
    pub servers: u32,
    pub kinds: u32,
    pub boards: u32,
    ghost some_kinds: { 1 ≤ kinds },
    ghost some_boards: { 1 ≤ boards },
}

/// What a reservation needs, and the number of the type of which a server gives it 10 units.
#[derive(Clone, Copy)]
pub(crate) struct Asked {
    pub need: u32,
    pub kind: u32,
}

/// The inventory: a rack on each switchboard, and its servers of each type in turn.
pub(crate) fn inventory(alloc: Global, region: Region) -> Result<String, AllocError> {
    let mut text = String::from_str(alloc, "server,type,rack,switchboard,datacenter\n")?;
    for server in 0..region.servers {
        let kind = server % region.kinds;
        let board = server / region.kinds % region.boards;
        let line = format!(in alloc; "s{server},t{kind},k{board},m{board},d\n")?;
        text.push_str(line.as_str())?;
    }
    Ok(text)
}

/// Requests of these reservations.
pub(crate) fn requests(alloc: Global, asked: &[Asked]) -> Result<String, AllocError> {
    let mut text = String::from_str(
        alloc,
        r#"{"format":1,"moves":{"take":1,"idle":5,"busy":50},"reservations":["#,
    )?;
    let mut comma = "";
    let mut r = 0u32;
    for one in asked {
        let (need, kind) = (one.need, one.kind);
        let line = format!(in alloc;
            "{comma}{{\"name\":\"r{r}\",\"need\":{need},\"values\":{{\"t{kind}\":10}}}}"
        )?;
        text.push_str(line.as_str())?;
        comma = ",";
        r = r.saturating_add(1);
    }
    text.push_str("]}")?;
    Ok(text)
}
