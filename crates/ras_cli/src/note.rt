ghost use Rattle.std.specs.Prelude.{◌≡◌};
ghost use Rattle.ras_cli.specs.Puts.{PutOnce};
ghost use Rattle.ras_cli.specs.Runs.{Tells, fault_status, fault_text};

use ras_outside::{ShelfFault, Sink};

/// Puts a message in one put. Its fault changes no status.
pub fn tell<E: Sink>(note: &mut E, message: &str)
    ensures told { Tells (E.faults note.old) (E.faults note.new) (E.written note.old) (E.written note.new) message.now }
    ensures once { PutOnce E.puts note.old message.now note.new }
{
    let _ = note.put(message.as_bytes());
}

// The message on a read that gave nothing.
fn fault_text(fault: ShelfFault) -> &'static str
    ensures { result.now ≡ fault_text fault }
{
    match fault {
        ShelfFault::Failed => "ras: read failed\n",
        ShelfFault::Long => "ras: file too long\n",
        ShelfFault::Memory => "ras: no memory\n",
    }
}

/// Tells of a read that gave nothing, and gives its status.
pub fn tell_fault<E: Sink>(note: &mut E, fault: ShelfFault) -> u8
    ensures status { result ≡ fault_status fault }
    ensures told { Tells (E.faults note.old) (E.faults note.new) (E.written note.old) (E.written note.new) (fault_text fault) }
    ensures once { PutOnce E.puts note.old (fault_text fault) note.new }
{
    tell(note, fault_text(fault));
    match fault {
        ShelfFault::Failed => 6,
        ShelfFault::Long => 8,
        ShelfFault::Memory => 9,
    }
}
