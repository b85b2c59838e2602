ghost use Rattle.std.specs.Prelude.{◌≡◌, ◌<◌, ◌∷◌, ◌++◌, [], IfOk, length};

use crate::reading::read_whole;
use crate::{File, FileShelf, MemoryShelf, MemorySink, Shelf, ShelfFault, Sink, Stop, WriteSink};
use ras_table::{List, Name, NameFault};
use std::alloc::{AllocError, Global};
use std::io::{Error, ErrorKind, Read, Write};
use std::test::Fail;
use std::{fs, io};

// Whether a read gave these bytes.
fn gave(answer: &Result<Vec<u8>, ShelfFault>, bytes: &[u8]) -> bool {
    match answer {
        Ok(found) => found.as_slice() == bytes,
        Err(_) => false,
    }
}

// Whether a read answered this fault.
fn failed(answer: &Result<Vec<u8>, ShelfFault>, fault: ShelfFault) -> bool {
    match answer {
        Ok(_) => false,
        Err(found) => *found == fault,
    }
}

#[test]
fn real_file(rt: HostRuntime) -> Result<(), Fail> {
    let name = "/tmp/ras_outside_real_file.txt";
    fs::write(&rt, name, "five.")?;
    let mut shelf = FileShelf::new(&rt);
    let whole = shelf.read(rt.alloc(), name, 5);
    let long = shelf.read(rt.alloc(), name, 4);
    fs::remove_file(&rt, name)?;
    let gone = shelf.read(rt.alloc(), name, 5);
    assert!(rt; gave(&whole, b"five."));
    assert!(rt; failed(&long, ShelfFault::Long));
    assert!(rt; failed(&gone, ShelfFault::Failed));
    Ok(())
}

#[test]
fn real_writer(rt: HostRuntime) -> Result<(), Fail> {
    let name = "/tmp/ras_outside_real_writer.txt";
    let mut sink = WriteSink::new(fs::create(&rt, name)?);
    let one = sink.put(b"one ");
    let two = sink.put(b"two");
    let mut shelf = FileShelf::new(&rt);
    let found = shelf.read(rt.alloc(), name, 100);
    fs::remove_file(&rt, name)?;
    assert!(rt; one.is_ok() && two.is_ok());
    assert!(rt; gave(&found, b"one two"));
    Ok(())
}

// The bytes 0, 1, 2 and so on, again from 0 after 250.
fn counted(alloc: Global, len: u32) -> Result<Vec<u8>, AllocError> {
    let mut bytes = Vec::new(alloc);
    for i in 0..len {
        bytes.push((i % 251) as u8)?;
    }
    Ok(bytes)
}

#[test]
fn long_file(rt: HostRuntime) -> Result<(), Fail> {
    let name = "/tmp/ras_outside_long_file.txt";
    let bytes = counted(rt.alloc(), 10_000)?;
    fs::write(&rt, name, bytes.as_slice())?;
    let mut shelf = FileShelf::new(&rt);
    let whole = shelf.read(rt.alloc(), name, 10_000);
    let long = shelf.read(rt.alloc(), name, 9_999);
    fs::remove_file(&rt, name)?;
    assert!(rt; gave(&whole, bytes.as_slice()));
    assert!(rt; failed(&long, ShelfFault::Long));
    Ok(())
}

#[test]
fn empty_file_and_folder(rt: HostRuntime) -> Result<(), Fail> {
    let name = "/tmp/ras_outside_empty_file.txt";
    fs::write(&rt, name, "")?;
    let mut shelf = FileShelf::new(&rt);
    let empty = shelf.read(rt.alloc(), name, 0);
    fs::remove_file(&rt, name)?;
    let folder = shelf.read(rt.alloc(), "/tmp", 10);
    assert!(rt; gave(&empty, b""));
    assert!(rt; failed(&folder, ShelfFault::Failed));
    Ok(())
}

// A reader that gives one byte a call, so many in all, and then fails.
#[derive(Drop)]
struct Slow {
    left: u32,
}

impl Read for Slow {
    fn read(&mut self, buf: &mut [u8]) -> io::Result<usize> {
        if self.left == 0 {
            return Err(Error::from(ErrorKind::Other));
        }
        if buf.is_empty() {
            return Ok(0);
        }
        self.left -= 1;
        buf[0] = b'x';
        Ok(1)
    }
}

#[test]
fn slow_reader(rt: HostRuntime) {
    let mut taken = 0;
    let broken = read_whole(rt.alloc(), &mut Slow { left: 5_000 }, 5_000, &mut taken);
    assert!(rt; failed(&broken, ShelfFault::Failed));
    assert_eq!(rt; taken, 5_000);
    let long = read_whole(rt.alloc(), &mut Slow { left: 5_000 }, 4_999, &mut taken);
    assert!(rt; failed(&long, ShelfFault::Long));
    assert_eq!(rt; taken, 10_000);
}

#[test]
fn reader_in_memory(rt: HostRuntime) -> Result<(), Fail> {
    let bytes = counted(rt.alloc(), 10_000)?;
    let mut rest = bytes.as_slice();
    let mut taken = 0;
    let whole = read_whole(rt.alloc(), &mut rest, 10_000, &mut taken);
    assert!(rt; gave(&whole, bytes.as_slice()));
    assert_eq!(rt; taken, 10_000);
    Ok(())
}

// A writer that takes three bytes a call, but none in its fourth call, and that fails in its fifth.
#[derive(Drop)]
struct Small {
    got: Vec<u8>,
    calls: u32,
}

impl Write for Small {
    fn write(&mut self, buf: &[u8]) -> io::Result<usize> {
        self.calls = self.calls.saturating_add(1);
        match self.calls {
            4 => Ok(0),
            5 => Err(Error::from(ErrorKind::Other)),
            _ => {
                let count = buf.len().min(3);
                self.got.extend_from_slice(&buf[..count])?;
                Ok(count)
            }
        }
    }

    fn flush(&mut self) -> io::Result<()> {
        Ok(())
    }
}

#[test]
fn small_writer(rt: HostRuntime) {
    let mut small = Small {
        got: Vec::new(rt.alloc()),
        calls: 0,
    };
    let mut sink = WriteSink::new(&mut small);
    assert!(rt; sink.put(b"abcdefg").is_ok());
    assert!(rt; sink.put(b"hi").is_err());
    assert!(rt; sink.put(b"hi").is_err());
    assert!(rt; sink.put(b"jklm").is_ok());
    assert!(rt; small.got.as_slice() == b"abcdefgjklm".as_slice());
}

// A list of one item.
fn one<T: Drop>(alloc: Global, item: T) -> Result<List<T>, AllocError>
    ensures { IfOk result (λ list. list ≡ item ∷ []) }
{
    let mut list = List::new(alloc, 1)?;
    match list.push(item) {
        Ok(()) => Ok(list),
        Err(_) => Err(AllocError),
    }
}

// A shelf of one file, of which the second read fails.
fn shelf_of(alloc: Global, name: &[u8], bytes: &[u8]) -> Result<MemoryShelf, AllocError>
    requires { length bytes.now < 100 }
{
    let name = match Name::read(alloc, name) {
        Ok(name) => name,
        Err(NameFault::Bad | NameFault::Memory) => return Err(AllocError),
    };
    let file = File {
        name,
        bytes: List::from_vec(Vec::from_slice(alloc, bytes)?),
    };
    MemoryShelf::new(alloc, one(alloc, file)?, one(alloc, 2u32)?)
}

#[test]
fn files_in_memory(rt: HostRuntime) -> Result<(), Fail> {
    let mut shelf = shelf_of(rt.alloc(), b"a", b"abc")?;
    assert!(rt; gave(&shelf.read(rt.alloc(), "a", 3), b"abc"));
    assert!(rt; failed(&shelf.read(rt.alloc(), "a", 3), ShelfFault::Failed));
    assert!(rt; failed(&shelf.read(rt.alloc(), "a", 2), ShelfFault::Long));
    assert!(rt; failed(&shelf.read(rt.alloc(), "b", 3), ShelfFault::Failed));
    assert!(rt; gave(&shelf.read(rt.alloc(), "a", 3), b"abc"));
    Ok(())
}

#[test]
fn sink_in_memory(rt: HostRuntime) -> Result<(), Fail> {
    let mut sink = MemorySink::new(rt.alloc(), one(rt.alloc(), Stop { call: 2, taken: 1 })?)?;
    assert!(rt; sink.put(b"ab").is_err());
    sink.room(100)?;
    assert!(rt; sink.put(b"cd").is_err());
    assert!(rt; sink.put(b"ef").is_ok());
    assert!(rt; sink.written() == b"cef".as_slice());
    Ok(())
}
