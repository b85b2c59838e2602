ghost use Rattle.std.specs.Prelude.{◌≡◌, ◌≤◌, ◌<◌, ◌^◌, true, None, IfOk, map, length, slice_get};
ghost use Rattle.ras_table.specs.Answers.{Gives};
ghost use Rattle.ras_table.specs.Rows.{are_of_kinds};
ghost use Rattle.ras_inventory.specs.RegionRule.{server_names};
ghost use Rattle.ras_inventory.specs.Bounds.{heads, kinds, bound_of, stands_twice, broken_rule, bound_at, bounds_of, told};

use crate::cells::{flag_at, holder_at, name_at};
use crate::fault::{BindingsFault, BindingsWhy};
use crate::region::Region;
use ras_table::{Kind, List, Name, Names, Record, Row, RowFault, Schema, read_head, read_row};
use std::alloc::{AllocError, Global};

/// A line of bindings.
#[derive(Debug, Drop)]
pub struct Bound {
    pub server: Name,
    pub holder: Option<Name>,
    pub busy: bool,
    pub up: bool,
}

// The columns of bindings.
fn bindings_schema() -> Schema<4>
    ensures heads { map (λ h. h.now) result.heads.now ≡ heads }
    ensures kinds { result.kinds ≡ kinds }
{
    Schema {
        heads: &["server", "reservation", "busy", "up"],
        kinds: [Kind::Name, Kind::NameOrNone, Kind::Flag, Kind::Flag],
    }
}

// The line of a row.
fn bound_of(alloc: Global, row: &Row<4>) -> Result<Bound, AllocError>
    requires { are_of_kinds kinds row.now ≡ true }
    ensures { IfOk result (λ bound. bound ≡ bound_of row.now) }
{
    Ok(Bound {
        server: name_at(alloc, row, 0)?,
        holder: holder_at(alloc, row, 1)?,
        busy: flag_at(row, 2),
        up: flag_at(row, 3),
    })
}

fn stands_twice(before: &[Bound], names: &Names, bound: &Bound) -> bool
    requires { names.now ≡ map (λ b. b.server) before.now }
    ensures { result ≡ stands_twice before.now bound.now }
{
    names.find(bound.server.bytes()).is_some()
}

// The first rule that a line breaks, after the lines before it.
fn broken_rule(
    region: &Region,
    before: &[Bound],
    names: &Names,
    bound: &Bound,
) -> Option<BindingsWhy>
    requires { names.now ≡ map (λ b. b.server) before.now }
    ensures { result ≡ broken_rule (server_names region.now.servers) before.now bound.now }
{
    if region.find(bound.server.bytes()).is_none() {
        Some(BindingsWhy::Unknown)
    } else if stands_twice(before, names, bound) {
        Some(BindingsWhy::Twice)
    } else {
        None
    }
}

// The line of a record, or the record's first fault.
fn bound_at(
    alloc: Global,
    number: u32,
    region: &Region,
    before: &[Bound],
    names: &Names,
    fields: &Record,
) -> Result<Bound, BindingsFault>
    requires { names.now ≡ map (λ b. b.server) before.now }
    ensures bound { Gives (λ bound. bound) told result (bound_at (server_names region.now.servers) number before.now fields.now) }
    ensures rules { IfOk result (λ bound. broken_rule (server_names region.now.servers) before.now bound ≡ None) }
{
    let row = match read_row(alloc, &bindings_schema(), fields) {
        Ok(row) => row,
        Err(RowFault::Memory) => return Err(BindingsFault::Memory),
        Err(fault) => {
            return Err(BindingsFault::At {
                line: number,
                why: BindingsWhy::Row(fault),
            });
        }
    };
    let Ok(bound) = bound_of(alloc, &row) else {
        return Err(BindingsFault::Memory);
    };
    match broken_rule(region, before, names, &bound) {
        Some(why) => Err(BindingsFault::At { line: number, why }),
        None => Ok(bound),
    }
}

/// The lines of bindings, and the names of their servers.
#[derive(Drop)]
pub struct Bounds {
    pub list: List<Bound>,
    pub names: Names,
}

/// The lines of bindings of a region, or their first fault.
pub fn read_bounds(
    alloc: Global,
    region: &Region,
    records: &[Record],
) -> Result<Bounds, BindingsFault>
    requires { length records.now < 2 ^ 32 }
    ensures bounds { Gives (λ bounds. bounds.list) told result (bounds_of (server_names region.now.servers) records.now) }
    ensures names { IfOk result (λ bounds. bounds.names ≡ map (λ b. b.server) bounds.list) }
{
    if records.is_empty() || !read_head(&bindings_schema(), &records[0]) {
        return Err(BindingsFault::At {
            line: 1,
            why: BindingsWhy::Head,
        });
    }
    let (Ok(mut list), Ok(mut names)) = (List::new(alloc, 0), Names::new(alloc)) else {
        return Err(BindingsFault::Memory);
    };
    for i in 1..records.len() {
        let line = i as u32 + 1;
        let bound = match bound_at(alloc, line, region, list.as_slice(), &names, &records[i]) {
            Ok(bound) => bound,
            Err(fault) => return Err(fault),
        };
        if names.number(&bound.server).is_err() || list.push(bound).is_err() {
            return Err(BindingsFault::Memory);
        }
    }
    Ok(Bounds { list, names })
}
