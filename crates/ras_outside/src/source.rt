ghost use Rattle.std.specs.Prelude.{ℕ, List, Option, OnErr};
ghost use Rattle.std.specs.Io.{ReadsAtMost};
ghost use Rattle.std.specs.Io.KnownBytes.{Keeps, ReadConsumes};

use std::io::Read;

/// A turn of reading failed.
#[derive(Clone, Copy, Debug)]
pub struct TurnFailed;

/// What bytes are taken from, turn by turn: std's `Read`, with a word for its faults.
pub trait Source {
    // The bytes that are left, where they are known.
    ghost left: { Self → Option (List ℕ) };

    // A turn that fails goes from one state to the other.
    ghost fails: { Self → Self → Type 0 };

    /// One turn of reading, into the start of a buffer. It gives how many bytes were read, and none only at the end.
    fn turn(&mut self, buffer: &mut [u8]) -> Result<usize, TurnFailed>
        ensures bound { ReadsAtMost result buffer.new }
        ensures bytes { ReadConsumes (left self.old) (left self.new) result buffer.new }
        ensures fault { OnErr result (fails self.old self.new) };
}

impl<F: Read> Source for F {
    ghost left = { λ f. F.remaining f };

    ghost fails = { λ f g. Keeps (F.remaining f) (F.remaining g) };

    fn turn(&mut self, buffer: &mut [u8]) -> Result<usize, TurnFailed> {
        match self.read(buffer) {
            Ok(count) => Ok(count),
            Err(_) => Err(TurnFailed),
        }
    }
}
