ghost use Rattle.std.specs.Prelude.{◌≡◌, ◌≤◌, ◌<◌, ◌^◌, true, None, IfOk, map, length, slice_get};
ghost use Rattle.ras_table.specs.Answers.{Gives};
ghost use Rattle.ras_table.specs.Rows.{are_of_kinds};
ghost use Rattle.ras_inventory.specs.Lines.{heads, kinds, line_of, line_at, lines_of, broken_rule, told};
ghost use Rattle.ras_inventory.specs.Registers.{IsRegisterOf};

use crate::cells::name_at;
use crate::fault::{RegionFault, RegionWhy};
use crate::line::Line;
use crate::register::Register;
use crate::rules::broken_rule;
use ras_table::{Kind, List, Record, Row, RowFault, Schema, read_head, read_row};
use std::alloc::{AllocError, Global};

// The columns of an inventory.
fn inventory_schema() -> Schema<5>
    ensures heads { map (λ h. h.now) result.heads.now ≡ heads }
    ensures kinds { result.kinds ≡ kinds }
{
    Schema {
        heads: &["server", "type", "rack", "switchboard", "datacenter"],
        kinds: [Kind::Name, Kind::Name, Kind::Name, Kind::Name, Kind::Name],
    }
}

// The server of a row.
fn line_of(alloc: Global, row: &Row<5>) -> Result<Line, AllocError>
    requires { are_of_kinds kinds row.now ≡ true }
    ensures { IfOk result (λ line. line ≡ line_of row.now) }
{
    Ok(Line {
        name: name_at(alloc, row, 0)?,
        kind: name_at(alloc, row, 1)?,
        rack: name_at(alloc, row, 2)?,
        board: name_at(alloc, row, 3)?,
        center: name_at(alloc, row, 4)?,
    })
}

// The server of a record, or the record's first fault.
fn line_at(
    alloc: Global,
    number: u32,
    before: &[Line],
    register: &Register,
    fields: &Record,
) -> Result<Line, RegionFault>
    requires { IsRegisterOf before.now register.now }
    ensures line { Gives (λ line. line) told result (line_at number before.now fields.now) }
    ensures rules { IfOk result (λ line. broken_rule before.now line ≡ None) }
{
    let row = match read_row(alloc, &inventory_schema(), fields) {
        Ok(row) => row,
        Err(RowFault::Memory) => return Err(RegionFault::Memory),
        Err(fault) => {
            return Err(RegionFault::At {
                line: number,
                why: RegionWhy::Row(fault),
            });
        }
    };
    let Ok(line) = line_of(alloc, &row) else {
        return Err(RegionFault::Memory);
    };
    match broken_rule(before, register, &line) {
        Some(why) => Err(RegionFault::At { line: number, why }),
        None => Ok(line),
    }
}

/// The servers of an inventory by their names, and what they are looked up by.
#[derive(Drop)]
pub struct Lines {
    pub list: List<Line>,
    pub register: Register,
}

/// The servers of an inventory, or its first fault.
pub fn read_lines(alloc: Global, records: &[Record]) -> Result<Lines, RegionFault>
    requires { length records.now < 2 ^ 32 }
    ensures lines { Gives (λ lines. lines.list) told result (lines_of records.now) }
    ensures register { IfOk result (λ lines. IsRegisterOf lines.list lines.register) }
{
    if records.is_empty() || !read_head(&inventory_schema(), &records[0]) {
        return Err(RegionFault::At {
            line: 1,
            why: RegionWhy::Head,
        });
    }
    let (Ok(mut list), Ok(mut register)) = (List::new(alloc, 0), Register::new(alloc)) else {
        return Err(RegionFault::Memory);
    };
    for i in 1..records.len() {
        let line = match line_at(alloc, i as u32 + 1, list.as_slice(), &register, &records[i]) {
            Ok(line) => line,
            Err(fault) => return Err(fault),
        };
        if register.add(&line).is_err() || list.push(line).is_err() {
            return Err(RegionFault::Memory);
        }
    }
    Ok(Lines { list, register })
}
