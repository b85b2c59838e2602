ghost use Rattle.std.specs.Prelude.{◌≡◌, ◌+◌, ◌-◌, ◌≤◌, ◌*◌, ◌^◌, max, ℕ, None, Some, [], IfOk, OnOk, OnErr, length};
ghost use Rattle.std.specs.Prelude.{IsErrOf, IsErr, IsOk, take, ◌<◌, ◌++◌, option_map, true, false, is_ok, if◌then◌else◌};
ghost use Rattle.ras_outside.specs.Causes.{Rose, RisesIfLong, AppendsSome, raised};
ghost use Rattle.ras_outside.specs.Held.{ReadsTold, file_at};
ghost use Rattle.ras_outside.specs.Memory.{NamesDiffer, after_read, files_of, is_planned, new_shelf, stop_of};
ghost use Rattle.ras_outside.specs.Puts.{MemoryPuts};

use crate::shelf::{Shelf, ShelfFault};
use crate::sink::{Sink, SinkFailed};
use ras_table::{List, Name};
use std::alloc::{AllocError, Global};
use std::marker::Model;

/// A file in memory.
#[derive(Debug, Drop)]
pub struct File {
    /// The name under which it is read.
    pub name: Name,
    /// What it holds.
    pub bytes: List<u8>,
}

/// A shelf in memory, of which some reads fail. Contracts see its files and its counts.
#[derive(Debug, Drop)]
pub struct MemoryShelf {
    files: List<File>,
    failing: List<u32>,
    reads: u64,
    failed: u64,
    broke: u64,
    taken: u64,
    over: u64,
}

impl Model for MemoryShelf {
    ghost use Rattle.ras_outside.specs.Memory.{Shelved, files_of};

    ghost Value = { Shelved };

    ghost view = { λ s. record {
      files = files_of s.files;
      failing = s.failing;
      reads = s.reads;
      failed = s.failed;
      broke = s.broke;
      taken = s.taken;
      over = s.over;
    } };
}

impl MemoryShelf {
    /// A shelf of these files, whose names differ. The reads whose numbers, from 1, stand in `failing` fail.
    pub fn new(
        _alloc: Global,
        files: List<File>,
        failing: List<u32>,
    ) -> Result<MemoryShelf, AllocError>
        requires { NamesDiffer files }
        ensures { IfOk result (λ shelf. shelf ≡ new_shelf files failing) }
    {
        Ok(MemoryShelf {
            files,
            failing,
            reads: 0,
            failed: 0,
            broke: 0,
            taken: 0,
            over: 0,
        })
    }
}

// The file of a name.
fn file_of<'a>(files: &'a [File], name: &[u8]) -> Option<&'a File>
    ensures { option_map (λ f. f.now.bytes) result ≡ file_at (files_of files.now) name.now }
{
    for file in files {
        if file.name.bytes() == name {
            return Some(file);
        }
    }
    None
}

// Whether a read is one of those that fail.
fn is_planned(failing: &[u32], read: u64) -> bool
    ensures { result ≡ is_planned failing.now read }
{
    failing.iter().any(|n| *n as u64 == read)
}

impl Shelf for MemoryShelf {
    ghost use Rattle.std.specs.Prelude.{Some};

    ghost held = { λ s. Some s.files };

    ghost faults = { λ s. s.failed };

    ghost broke = { λ s. s.broke };

    ghost taken = { λ s. s.taken };

    ghost over = { λ s. s.over };

    ghost reads = { λ s name most answer t. t ≡ after_read s name most answer };

    fn read(&mut self, alloc: Global, name: &str, most: usize) -> Result<Vec<u8>, ShelfFault>
        requires { most ≤ 64 * 2 ^ 20 }
        ensures after { self.new ≡ after_read self.old name.now most result }
        ensures held { Some self.new.files ≡ Some self.old.files }
        ensures faults_kept { OnOk result (self.new.failed ≡ self.old.failed) }
        ensures broke_kept { OnOk result (self.new.broke ≡ self.old.broke) }
        ensures faults_later { self.old.failed ≤ self.new.failed }
        ensures broke_later { self.old.broke ≤ self.new.broke }
        ensures taken_later { self.old.taken ≤ self.new.taken }
        ensures over { RisesIfLong most self.old.over self.new.over self.old.taken self.new.taken result }
        ensures fits { IfOk result (λ bytes. length bytes.items ≤ most) }
        ensures failed { IsErrOf result ShelfFault.Failed → Rose self.old.failed self.new.failed }
        ensures told { ReadsTold most self.old.broke self.new.broke name.now (Some self.old.files) result }

        // The reads whose numbers stand in `failing` fail, and no other read of a held name does.
        ensures planned { is_planned self.old.failing self.new.reads ≡ true → IsErrOf result ShelfFault.Failed }
        ensures unplanned { is_planned self.old.failing self.new.reads ≡ false → IsErrOf result ShelfFault.Failed → file_at self.old.files name.now ≡ None }
    {
        self.reads = self.reads.saturating_add(1);
        let Some(file) = file_of(self.files.as_slice(), name.as_bytes()) else {
            self.failed = self.failed.saturating_add(1);
            return Err(ShelfFault::Failed);
        };
        if is_planned(self.failing.as_slice(), self.reads) {
            self.failed = self.failed.saturating_add(1);
            self.broke = self.broke.saturating_add(1);
            return Err(ShelfFault::Failed);
        }
        if file.bytes.len() as usize > most {
            self.taken = self.taken.saturating_add(most as u64 + 1);
            self.over = self.over.saturating_add(1);
            return Err(ShelfFault::Long);
        }
        let Ok(bytes) = Vec::from_slice(alloc, file.bytes.as_slice()) else {
            return Err(ShelfFault::Memory);
        };
        self.taken = self.taken.saturating_add(bytes.len() as u64);
        Ok(bytes)
    }
}

/// The put with this number takes so many bytes of its piece, and fails.
#[derive(Clone, Copy, Debug)]
pub struct Stop {
    /// The number of the put, from 1.
    pub call: u32,
    /// The most bytes that it takes.
    pub taken: u32,
}

/// A sink in memory, with as much room as was made, of which some puts fail. Contracts see what was written, its
/// stops, its counts and the room that is left.
#[derive(Debug, Drop)]
pub struct MemorySink {
    bytes: Vec<u8>,
    room: usize,
    stops: List<Stop>,
    puts: u64,
    failed: u64,
}

impl Model for MemorySink {
    ghost use Rattle.std.specs.Prelude.{◌+◌, ◌≤◌, vec_capacity, vec_len};
    ghost use Rattle.ras_outside.specs.Memory.{Sunk};

    ghost Value = { Sunk };

    ghost view = { λ s. record { written = s.bytes.items; stops = s.stops; puts = s.puts; failed = s.failed; room = s.room } };

    // What is written next into the room finds memory.
    ghost invariant = { λ s. vec_len s.bytes + s.room ≤ vec_capacity s.bytes };
}

// Where the put with this number stops, if it does.
fn stop_of(stops: &[Stop], put: u64) -> Option<u32>
    ensures { result ≡ stop_of stops.now put }
{
    for stop in stops {
        if stop.call as u64 == put {
            return Some(stop.taken);
        }
    }
    None
}

impl MemorySink {
    /// A sink with no room. The puts that `failing` names, numbered from 1, stop short; of two stops for one put the
    /// first counts.
    pub fn new(alloc: Global, failing: List<Stop>) -> Result<MemorySink, AllocError>
        ensures empty { IfOk result (λ sink. sink.written ≡ []) }
        ensures stops { IfOk result (λ sink. sink.stops ≡ failing) }
        ensures puts { IfOk result (λ sink. sink.puts ≡ 0) }
        ensures faults { IfOk result (λ sink. sink.failed ≡ 0) }
        ensures room { IfOk result (λ sink. sink.room ≡ 0) }
    {
        Ok(MemorySink {
            bytes: Vec::new(alloc),
            room: 0,
            stops: failing,
            puts: 0,
            failed: 0,
        })
    }

    /// Makes room for at least so many further bytes.
    pub fn room(&mut self, bytes: u32) -> Result<(), AllocError>
        requires { bytes ≤ 64 * 2 ^ 20 }
        ensures room { OnOk result (bytes ≤ self.new.room) }
        ensures made { OnOk result (self.new.room ≡ max self.old.room bytes) }
        ensures before { OnErr result (self.new ≡ self.old) }
        ensures others { self.new ≡ record self.old { room = self.new.room } }
    {
        self.bytes.reserve(bytes as usize)?;
        self.room = self.room.max(bytes as usize);
        Ok(())
    }

    // Takes bytes for which there is room.
    fn append(&mut self, bytes: &[u8])
        requires { length bytes.now ≤ self.old.room }
        ensures { self.new ≡ record self.old { written = self.old.written ++ bytes.now; room = self.old.room - length bytes.now } }
    {
        self.bytes.extend_from_slice(bytes).unwrap();
        self.room -= bytes.len();
    }

    /// What was written.
    pub fn written(&self) -> &[u8]
        ensures { result.now ≡ self.now.written }
    {
        self.bytes.as_slice()
    }
}

impl Sink for MemorySink {
    ghost use Rattle.std.specs.Prelude.{Some};

    ghost written = { λ s. Some s.written };

    ghost faults = { λ s. s.failed };

    ghost puts = { MemoryPuts };

    fn put(&mut self, piece: &[u8]) -> Result<(), SinkFailed>
        ensures after { MemoryPuts self.old piece.now result self.new }
        ensures later { self.old.failed ≤ self.new.failed }
        ensures kept { OnOk result (self.new.failed ≡ self.old.failed) }
        ensures ok { OnOk result (self.new.written ≡ self.old.written ++ piece.now) }
        ensures cause { OnErr result (Rose self.old.failed self.new.failed) }
        ensures some { OnErr result (AppendsSome (Some self.old.written) (Some self.new.written) piece.now) }

        // Each put counts, and each fault.
        ensures puts { self.new.puts ≡ raised 1 self.old.puts }
        ensures faults { self.new.failed ≡ (if is_ok result then self.old.failed else raised 1 self.old.failed) }
        ensures stops { self.new.stops ≡ self.old.stops }

        // A piece longer than the room is a fault that takes nothing. Else the put fails where a stop names it, and only there.
        ensures full { self.old.room < length piece.now → IsErr result × (self.new.written ≡ self.old.written) }
        ensures whole { length piece.now ≤ self.old.room → stop_of self.old.stops self.new.puts ≡ None → IsOk result }
        ensures stopped { length piece.now ≤ self.old.room → (n : ℕ) → stop_of self.old.stops self.new.puts ≡ Some n
            → IsErr result × (self.new.written ≡ self.old.written ++ take n piece.now) }
        ensures room { self.old.room + length self.old.written ≡ self.new.room + length self.new.written }
    {
        self.puts = self.puts.saturating_add(1);
        if piece.len() > self.room {
            self.failed = self.failed.saturating_add(1);
            return Err(SinkFailed);
        }
        let count = match stop_of(self.stops.as_slice(), self.puts) {
            Some(taken) => (taken as usize).min(piece.len()),
            None => {
                self.append(piece);
                return Ok(());
            }
        };
        self.append(&piece[..count]);
        self.failed = self.failed.saturating_add(1);
        Err(SinkFailed)
    }
}
