ghost use Rattle.std.specs.Prelude.{◌≡◌, ◌≤◌, ◌<◌, ◌+◌, ◌*◌, ◌^◌, IfOk, OnErr, IsErrOf, length, take};
ghost use Rattle.std.specs.Io.KnownBytes.{Consumes, IsAtEnd, Keeps};
ghost use Rattle.ras_outside.specs.Reading.{ReadsWhole};

use crate::shelf::ShelfFault;
use crate::source::{Source, TurnFailed};
use std::alloc::Global;

// One turn of reading, of up to so many bytes.
fn turn_of<S: Source>(source: &mut S, buffer: &mut [u8], room: usize) -> Result<usize, TurnFailed>
    requires some { 0 < room }
    requires fits { room ≤ length buffer.old }
    ensures length { length buffer.new ≡ length buffer.old }
    ensures bound { IfOk result (λ n. n ≤ room) }
    ensures within { IfOk result (λ n. n ≤ length buffer.new) }
    ensures bytes { IfOk result (λ n. Consumes (S.left source.old) (S.left source.new) (take n buffer.new)) }
    ensures end { IfOk result (λ n. n ≡ 0 → IsAtEnd (S.left source.new)) }
    ensures kept { OnErr result (Keeps (S.left source.old) (S.left source.new)) }
    ensures fault { OnErr result (S.fails source.old source.new) }
{
    source.turn(&mut buffer[..room])
}

/// Reads to the end, where no more than so many bytes are left, and counts the bytes that were taken.
pub fn read_whole<S: Source>(
    alloc: Global,
    source: &mut S,
    most: usize,
    taken: &mut u64,
) -> Result<Vec<u8>, ShelfFault>
    requires { most ≤ 64 * 2 ^ 20 }
    ensures bytes { ReadsWhole most (S.left source.old) (S.left source.new) taken.old taken.new result }

    ensures later { taken.old ≤ taken.new }
    ensures most { taken.new ≤ taken.old + (most + 1) }

    // Only a turn that fails is answered by Failed, and it is the last turn.
    ensures fault { IsErrOf result ShelfFault.Failed → (s : S) × S.fails s source.new }
{
    let before = *taken;
    let mut bytes = Vec::new(alloc);
    let mut buffer = [0u8; 4096];
    for turn in 0..most + 1 {
        let room = (most + 1 - bytes.len()).min(4096);
        let Ok(count) = turn_of(source, &mut buffer, room) else {
            return Err(ShelfFault::Failed);
        };
        if count == 0 {
            return Ok(bytes);
        }
        *taken = before.saturating_add((bytes.len() + count) as u64);
        if bytes.len() + count > most {
            return Err(ShelfFault::Long);
        }
        if bytes.extend_from_slice(&buffer[..count]).is_err() {
            return Err(ShelfFault::Memory);
        }
    }
    unreachable!()
}
