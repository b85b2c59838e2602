ghost use Rattle.std.specs.Prelude.{◌≡◌, ◌≤◌, ◌<◌, ◌*◌, ◌^◌, IfOk, map, length, true};
ghost use Rattle.std.specs.List.{list_all};
ghost use Rattle.ras_table.specs.Answers.{Gives};
ghost use Rattle.ras_inventory.specs.RegionRule.{server_names};
ghost use Rattle.spare_pool.specs.Steps.{change_within};
ghost use Rattle.spare_pool.specs.FailureRows.{heads, kinds};
ghost use Rattle.spare_pool.specs.FailureFiles.{failure_at, failures_in, failures_of, told};

use crate::failure::{Failure, failure_of};
use crate::fault::{FailuresFault, FailuresWhy};
use ras_inventory::Region;
use ras_table::{Kind, List, Record, RowFault, Schema, read_head, read_records, read_row};
use std::alloc::Global;

// The columns of a file of failures. A time is at most 2^53.
fn failures_schema() -> Schema<3>
    ensures heads { map (λ h. h.now) result.heads.now ≡ heads }
    ensures kinds { result.kinds ≡ kinds }
{
    Schema {
        heads: &["at", "event", "server"],
        kinds: [Kind::Whole(9_007_199_254_740_992), Kind::Name, Kind::Name],
    }
}

// The failure of a record, or the record's first fault.
fn failure_at(
    alloc: Global,
    region: &Region,
    number: u32,
    before: &[Failure],
    fields: &Record,
) -> Result<Failure, FailuresFault>
    ensures { Gives (λ failure. failure) told result (failure_at (server_names region.now.servers) number before.now fields.now) }
{
    let row = match read_row(alloc, &failures_schema(), fields) {
        Ok(row) => row,
        Err(RowFault::Memory) => return Err(FailuresFault::Memory),
        Err(fault) => {
            return Err(FailuresFault::At {
                line: number,
                why: FailuresWhy::Row(fault),
            });
        }
    };
    match failure_of(region, before, &row) {
        Ok(failure) => Ok(failure),
        Err(why) => Err(FailuresFault::At { line: number, why }),
    }
}

// The failures of records, or their first fault.
fn failures_in(
    alloc: Global,
    region: &Region,
    records: &[Record],
) -> Result<List<Failure>, FailuresFault>
    requires { length records.now < 2 ^ 32 }
    ensures { Gives (λ failures. failures) told result (failures_in (server_names region.now.servers) records.now) }
{
    if records.is_empty() || !read_head(&failures_schema(), &records[0]) {
        return Err(FailuresFault::At {
            line: 1,
            why: FailuresWhy::Head,
        });
    }
    let Ok(mut failures) = List::new(alloc, 0) else {
        return Err(FailuresFault::Memory);
    };
    for i in 1..records.len() {
        let failure = failure_at(
            alloc,
            region,
            i as u32 + 1,
            failures.as_slice(),
            &records[i],
        )?;
        if failures.push(failure).is_err() {
            return Err(FailuresFault::Memory);
        }
    }
    Ok(failures)
}

/// The failures and repairs of a file, or its first fault: the number of its line, from 1, and why it is refused.
pub fn read_failures(
    alloc: Global,
    region: &Region,
    bytes: &[u8],
) -> Result<List<Failure>, FailuresFault>
    requires { length bytes.now ≤ 64 * 2 ^ 20 }
    ensures failures { Gives (λ failures. failures) told result (failures_of (server_names region.now.servers) bytes.now) }
    ensures there { IfOk result (λ failures. list_all (λ failure. change_within (length region.now.servers) failure.change) failures ≡ true) }
{
    let Ok(records) = read_records(alloc, bytes) else {
        return Err(FailuresFault::Memory);
    };
    failures_in(alloc, region, records.as_slice())
}
