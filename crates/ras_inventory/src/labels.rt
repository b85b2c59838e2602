ghost use Rattle.std.specs.Prelude.{◌≡◌, ◌<◌, ◌^◌, IfOk, map, length};
ghost use Rattle.ras_inventory.specs.Lines.{distinct};
ghost use Rattle.ras_inventory.specs.Regions.{AreLabelsOf, place_in, server_of};

use crate::line::Line;
use crate::server::Server;
use ras_table::{List, Name, Names};
use std::alloc::{AllocError, Global};

/// The names of the types, racks, switchboards and datacenters of servers, by number.
#[derive(Drop)]
pub struct Labels {
    pub types: Names,
    pub racks: Names,
    pub boards: Names,
    pub centers: Names,
}

/// The names in these servers.
pub fn labels_of(alloc: Global, lines: &[Line]) -> Result<Labels, AllocError>
    requires { length lines.now < 2 ^ 32 }
    ensures { IfOk result (λ labels. AreLabelsOf lines.now labels) }
{
    let mut labels = Labels {
        types: Names::new(alloc)?,
        racks: Names::new(alloc)?,
        boards: Names::new(alloc)?,
        centers: Names::new(alloc)?,
    };
    for line in lines {
        labels.types.number(&line.kind)?;
        labels.racks.number(&line.rack)?;
        labels.boards.number(&line.board)?;
        labels.centers.number(&line.center)?;
    }
    Ok(labels)
}

// The number of a name.
fn place_in(names: &Names, name: &Name) -> u32
    ensures { result ≡ place_in names.now name.now }
{
    names.find(name.bytes()).unwrap_or(0)
}

/// These servers, with their names numbered.
pub fn servers_of(
    alloc: Global,
    lines: &[Line],
    labels: &Labels,
) -> Result<List<Server>, AllocError>
    requires few { length lines.now < 2 ^ 32 }
    requires labels { AreLabelsOf lines.now labels.now }
    ensures { IfOk result (λ servers. servers ≡ map (server_of lines.now) lines.now) }
{
    let mut servers = List::new(alloc, lines.len() as u32)?;
    for line in lines {
        let server = Server {
            name: line.name.copy(alloc)?,
            kind: place_in(&labels.types, &line.kind),
            rack: place_in(&labels.racks, &line.rack),
            board: place_in(&labels.boards, &line.board),
            center: place_in(&labels.centers, &line.center),
        };
        if servers.push(server).is_err() {
            return Err(AllocError);
        }
    }
    Ok(servers)
}
