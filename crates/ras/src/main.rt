//! The program `ras`: the top call over real files, standard output and standard error.
#![tactic(auto)]

ghost use Rattle.std.specs.Prelude.{◌≡◌, ◌≢◌, ◌<◌, ◌^◌, IfOk, codes, map, string_bytes, take};
ghost use Rattle.std.specs.Vec.Iter.{into_iter_items};
ghost use Rattle.ras_cli.specs.Runs.{Tells};

use ras_cli::run;
use ras_outside::{FileShelf, Sink, WriteSink};
use ras_table::{List, Word};
use std::env::Args;
use std::io::ErrorKind;
use std::process::ExitCode;
use std::{alloc, env, io};

/// More words than a command line of the system holds.
const MOST_WORDS: usize = 10_000_000;

// The words of a command line, up to so many.
fn words_of(
    memory: alloc::Global,
    args: Args<alloc::Global>,
    most: usize,
) -> Result<List<Word>, alloc::AllocError>
    requires few { most < 2 ^ 32 }
    ensures words { IfOk result (λ words. words ≡ map string_bytes (take most (into_iter_items args))) }
{
    let mut words = Vec::new(memory);
    for text in args.take(most) {
        words.push(Word::new(memory, text.as_str())?)?;
    }
    Ok(List::from_vec(words))
}

// Tells why no words were read, and gives the status.
fn refuse<E: Sink>(kind: ErrorKind, note: &mut E) -> u8
    ensures memory { kind ≡ ErrorKind.OutOfMemory → (result ≡ 9)
        × Tells (E.faults note.old) (E.faults note.new) (E.written note.old) (E.written note.new) (codes "ras: no memory\n") }
    ensures words { kind ≢ ErrorKind.OutOfMemory → (result ≡ 2)
        × Tells (E.faults note.old) (E.faults note.new) (E.written note.old) (E.written note.new) (codes "ras: bad words\n") }
{
    let (status, message) = match kind {
        ErrorKind::OutOfMemory => (9, "ras: no memory\n"),
        _ => (2, "ras: bad words\n"),
    };
    let _ = note.put(message.as_bytes());
    status
}

fn main(rt: HostRuntime) -> ExitCode {
    let mut out = WriteSink::new(io::writer(&rt));
    let mut note = WriteSink::new(rt.stderr());
    let mut shelf = FileShelf::new(&rt);
    let args = match env::args(&rt) {
        Ok(args) => args,
        Err(error) => return ExitCode::from(refuse(error.kind(), &mut note)),
    };
    match words_of(rt.alloc(), args, MOST_WORDS) {
        Ok(words) => ExitCode::from(run(rt.alloc(), &words, &mut shelf, &mut out, &mut note)),
        Err(_) => ExitCode::from(refuse(ErrorKind::OutOfMemory, &mut note)),
    }
}
