ghost use Rattle.std.specs.Prelude.{◌≡◌, ◌<◌, ◌≤◌, ◌*◌, ◌^◌, All, IfOk, length};
ghost use Rattle.csv.specs.Reading.{strip_bom};
ghost use Rattle.csv.specs.Records.{fields_of};
ghost use Rattle.ras_table.specs.Records.{records_of};

use crate::list::List;
use csv::{ByteRecord, ReaderBuilder};
use std::alloc::{AllocError, Global};

/// The fields of one record.
pub type Record = List<List<u8>>;

/// The bytes after a byte order mark at their front.
#[tactic(auto, unfolding(csv::specs::Reading::strip_bom))]
pub fn without_mark(bytes: &[u8]) -> &[u8]
    ensures { result.now ≡ strip_bom bytes.now }
{
    match bytes {
        [0xEF, 0xBB, 0xBF, rest @ ..] => rest,
        _ => bytes,
    }
}

// One field.
fn field_of(alloc: Global, field: &[u8]) -> Result<List<u8>, AllocError>
    requires { length field.now < 2 ^ 32 }
    ensures { IfOk result (λ copy. copy ≡ field.now) }
{
    Ok(List::from_vec(Vec::from_slice(alloc, field)?))
}

// The fields of a record.
fn record_of(alloc: Global, row: &ByteRecord) -> Result<Record, AllocError>
    requires few { length (fields_of row.now) < 2 ^ 32 }
    requires short { All (λ f. length f ≤ 64 * 2 ^ 20) (fields_of row.now) }
    ensures { IfOk result (λ found. found ≡ fields_of row.now) }
{
    let mut fields = Vec::new(alloc);
    for i in 0..row.len() {
        if let Some(field) = row.get(i) {
            fields.push(field_of(alloc, field)?)?;
        }
    }
    Ok(List::from_vec(fields))
}

/// The records of a file.
pub fn read_records(alloc: Global, bytes: &[u8]) -> Result<List<Record>, AllocError>
    requires { length bytes.now ≤ 64 * 2 ^ 20 }
    ensures { IfOk result (λ records. records ≡ records_of bytes.now) }
{
    let text = without_mark(bytes);
    let reader = ReaderBuilder::new()
        .has_headers(false)
        .flexible(true)
        .from_reader(alloc, text);
    let mut records = Vec::new(alloc);
    for row in reader.into_byte_records() {
        let Ok(row) = row else {
            return Err(AllocError);
        };
        records.push(record_of(alloc, &row)?)?;
    }
    Ok(List::from_vec(records))
}
