use crate::{
    Cell, Kind, List, Name, NameFault, Names, RowFault, Schema, Word, read_head, read_records,
    read_row,
};
use std::alloc::{AllocError, Global};
use std::test::Fail;

// The row of one line of a table of a name, a number up to 20 and a flag.
fn row_at(alloc: Global, line: &[u8]) -> Result<Result<List<u64>, RowFault>, AllocError> {
    let schema: Schema<3> = Schema {
        heads: &["name", "number", "flag"],
        kinds: [Kind::NameOrNone, Kind::Whole(20), Kind::Flag],
    };
    let records = read_records(alloc, if line.len() < 1000 { line } else { b"" })?;
    let Some(fields) = records.get(0) else {
        return Err(AllocError);
    };
    if read_head(&schema, fields) {
        return Err(AllocError);
    }
    let mut numbers = List::new(alloc, 2)?;
    match read_row(alloc, &schema, fields) {
        Err(fault) => return Ok(Err(fault)),
        Ok(row) => {
            if let Some(Cell::Whole(n)) = row.cell(1) {
                if numbers.push(*n).is_err() {
                    return Err(AllocError);
                }
            }
        }
    }
    Ok(Ok(numbers))
}

#[test]
fn rows_of_a_table(rt: HostRuntime) -> Result<(), Fail> {
    let good = row_at(rt.alloc(), b"\xEF\xBB\xBFs1,20,1\r\n")
        .ok()
        .ok_or("memory")?;
    let numbers = good.ok().ok_or("a row")?;
    assert_eq!(rt; numbers.len(), 1);
    assert!(rt; matches!(numbers.get(0), Some(20)));
    let short = row_at(rt.alloc(), b"s1,20\n").ok().ok_or("memory")?;
    assert!(rt; matches!(short, Err(RowFault::Columns(2))));
    let large = row_at(rt.alloc(), b",21,1\n").ok().ok_or("memory")?;
    assert!(rt; matches!(large, Err(RowFault::Bad(2))));
    let flag = row_at(rt.alloc(), b",0,yes\n").ok().ok_or("memory")?;
    assert!(rt; matches!(flag, Err(RowFault::Bad(3))));
    Ok(())
}

// The number of a name, among few.
fn number_of(names: &mut Names, name: &Name) -> Result<u32, AllocError> {
    if names.len() > 2 {
        return Err(AllocError);
    }
    names.number(name)
}

#[test]
fn names_by_number(rt: HostRuntime) -> Result<(), Fail> {
    let first = Name::read(rt.alloc(), b"s1").ok().ok_or("a name")?;
    let second = Name::read(rt.alloc(), b"s2").ok().ok_or("a name")?;
    assert!(rt; matches!(Name::read(rt.alloc(), b"a,b"), Err(NameFault::Bad)));
    let mut names = Names::new(rt.alloc()).ok().ok_or("memory")?;
    assert_eq!(rt; number_of(&mut names, &first).ok().ok_or("memory")?, 0);
    assert_eq!(rt; number_of(&mut names, &second).ok().ok_or("memory")?, 1);
    assert_eq!(rt; number_of(&mut names, &first).ok().ok_or("memory")?, 0);
    assert!(rt; names.find(b"s2") == Some(1));
    assert!(rt; names.find(b"s3").is_none());
    let word = Word::new(rt.alloc(), second.text()).ok().ok_or("memory")?;
    assert_eq!(rt; word.text(), "s2");
    Ok(())
}
