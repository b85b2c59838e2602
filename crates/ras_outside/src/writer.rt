ghost use Rattle.std.specs.Prelude.{◌≡◌, ◌≤◌, OnOk, OnErr, None, is_ok, if◌then◌else◌};
ghost use Rattle.std.specs.Io.KnownBytes.{Appends};
ghost use Rattle.ras_outside.specs.Causes.{Rose, AppendsSome, raised};
ghost use Rattle.ras_outside.specs.Puts.{WriterPuts};

use crate::sink::{Sink, SinkFailed};
use std::io::Write;

/// A sink over a writer of std, which tells nothing of what was written. Contracts see the writer, and how many puts
/// failed, a count that stays at 2^64 - 1 once it is there.
#[derive(Drop)]
pub struct WriteSink<W> {
    writer: W,
    faults: u64,
}

impl<W: Write> WriteSink<W> {
    /// A sink over this writer, of which no put failed yet.
    pub fn new(writer: W) -> WriteSink<W>
        ensures { result ≡ record { writer = writer; faults = 0 } }
    {
        WriteSink { writer, faults: 0 }
    }
}

// Writes a piece, part by part. A writer that takes nothing of what is left is at fault.
fn write_whole<W: Write>(writer: &mut W, piece: &[u8]) -> Result<(), SinkFailed>
    ensures whole { OnOk result (Appends (W.contents writer.old) (W.contents writer.new) piece.now) }
    ensures front { OnErr result (AppendsSome (W.contents writer.old) (W.contents writer.new) piece.now) }
{
    let mut rest = piece;
    for _ in 0..piece.len() {
        match writer.write(rest) {
            Ok(n) if n > 0 => rest = &rest[n..],
            _ => return Err(SinkFailed),
        }
        if rest.is_empty() {
            break;
        }
    }
    Ok(())
}

impl<W: Write> Sink for WriteSink<W> {
    ghost written = { λ _. None };

    ghost faults = { λ s. s.faults };

    ghost puts = { λ s piece answer t. WriterPuts (W.contents s.writer) s.faults piece answer (W.contents t.writer) t.faults };

    fn put(&mut self, piece: &[u8]) -> Result<(), SinkFailed>
        ensures later { self.old.faults ≤ self.new.faults }
        ensures kept { OnOk result (self.new.faults ≡ self.old.faults) }
        ensures cause { OnErr result (Rose self.old.faults self.new.faults) }

        // The writer got the piece, and at a fault a front of it.
        ensures whole { OnOk result (Appends (W.contents self.old.writer) (W.contents self.new.writer) piece.now) }
        ensures front { OnErr result (AppendsSome (W.contents self.old.writer) (W.contents self.new.writer) piece.now) }
        ensures count { self.new.faults ≡ (if is_ok result then self.old.faults else raised 1 self.old.faults) }
    {
        match write_whole(&mut self.writer, piece) {
            Ok(()) => Ok(()),
            Err(fault) => {
                self.faults = self.faults.saturating_add(1);
                Err(fault)
            }
        }
    }
}
