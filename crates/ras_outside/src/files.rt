ghost use Rattle.std.specs.Prelude.{◌≡◌, ◌≤◌, ◌+◌, ◌*◌, ◌^◌, None, IfOk, OnOk, IsErrOf, length};
ghost use Rattle.std.specs.Io.KnownBytes.{Consumes, IsAtEnd};
ghost use Rattle.ras_outside.specs.Causes.{Rose, RisesIfLong, raised};
ghost use Rattle.ras_outside.specs.Reading.{FileReads, ReadsWhole};

use crate::reading::read_whole;
use crate::shelf::{Shelf, ShelfFault};
use crate::source::Source;
use std::alloc::Global;
use std::fs;
use std::marker::Model;
use std::rt::Files;

/// A shelf of real files, which tells nothing of what it holds. Contracts see its counts alone, which stay at
/// 2^64 - 1 once they are there.
#[derive(Drop)]
pub struct FileShelf<R> {
    runtime: R,
    failed: u64,
    over: u64,
    taken: u64,
}

impl<R> Model for FileShelf<R> {
    ghost use Rattle.ras_outside.specs.Counts.{Filed};

    ghost Value = { Filed };

    ghost view = { λ s. record { failed = s.failed; over = s.over; taken = s.taken } };
}

impl<R: Files> FileShelf<R> {
    /// A shelf of the files that the runtime opens, with all counts at 0.
    pub fn new(runtime: R) -> FileShelf<R>
        ensures { result ≡ record { failed = 0; over = 0; taken = 0 } }
    {
        FileShelf {
            runtime,
            failed: 0,
            over: 0,
            taken: 0,
        }
    }

    // Counts a read that failed.
    fn fail(&mut self) -> ShelfFault
        ensures counted { self.new ≡ record self.old { failed = raised 1 self.old.failed } }
        ensures later { self.old.failed ≤ self.new.failed }
        ensures fault { result ≡ ShelfFault.Failed }
    {
        self.failed = self.failed.saturating_add(1);
        ShelfFault::Failed
    }

    // Counts a read that was too long.
    fn too_long(&mut self) -> ShelfFault
        ensures counted { self.new ≡ record self.old { over = raised 1 self.old.over } }
        ensures fault { result ≡ ShelfFault.Long }
    {
        self.over = self.over.saturating_add(1);
        ShelfFault::Long
    }

    // Reads a file that was opened.
    fn read_file<S: Source>(
        &mut self,
        alloc: Global,
        file: &mut S,
        most: usize,
    ) -> Result<Vec<u8>, ShelfFault>
        requires { most ≤ 64 * 2 ^ 20 }
        ensures counts { FileReads most self.old result self.new }
        ensures faults_later { self.old.failed ≤ self.new.failed }
        ensures taken_later { self.old.taken ≤ self.new.taken }
        ensures taken_most { self.new.taken ≤ self.old.taken + (most + 1) }
        ensures bytes { ReadsWhole most (S.left file.old) (S.left file.new) self.old.taken self.new.taken result }
        ensures fault { IsErrOf result ShelfFault.Failed → (s : S) × S.fails s file.new }
    {
        match read_whole(alloc, file, most, &mut self.taken) {
            Ok(bytes) => Ok(bytes),
            Err(ShelfFault::Memory) => Err(ShelfFault::Memory),
            Err(ShelfFault::Failed) => Err(self.fail()),
            Err(ShelfFault::Long) => Err(self.too_long()),
        }
    }
}

impl<R: Files> Shelf for FileShelf<R> {
    ghost held = { λ _. None };

    ghost faults = { λ s. s.failed };

    ghost broke = { λ s. s.failed };

    ghost taken = { λ s. s.taken };

    ghost over = { λ s. s.over };

    ghost reads = { λ s name most answer t. FileReads most s answer t };

    fn read(&mut self, alloc: Global, name: &str, most: usize) -> Result<Vec<u8>, ShelfFault>
        requires { most ≤ 64 * 2 ^ 20 }
        ensures counts { FileReads most self.old result self.new }
        ensures faults_kept { OnOk result (self.new.failed ≡ self.old.failed) }
        ensures faults_later { self.old.failed ≤ self.new.failed }
        ensures taken_later { self.old.taken ≤ self.new.taken }
        ensures taken_most { self.new.taken ≤ self.old.taken + (most + 1) }
        ensures over { RisesIfLong most self.old.over self.new.over self.old.taken self.new.taken result }
        ensures fits { IfOk result (λ bytes. length bytes.items ≤ most) }
        ensures failed { IsErrOf result ShelfFault.Failed → Rose self.old.failed self.new.failed }

        // Some file of the runtime had just these bytes left, and was read to its end.
        ensures whole { IfOk result (λ bytes. (f : R.File) × (g : R.File) × Consumes (R.File.remaining f) (R.File.remaining g) bytes.items × IsAtEnd (R.File.remaining g)) }
    {
        match fs::open(&self.runtime, name) {
            Ok(mut file) => self.read_file(alloc, &mut file, most),
            Err(_) => Err(self.fail()),
        }
    }
}
