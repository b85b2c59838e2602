ghost use Rattle.std.specs.Prelude.{◌≡◌, ◌<◌, ◌≤◌, [], ◌∷◌, ◌++◌, length, slice_get, IfOk};

use crate::stands::Command;
use ras_table::List;
use std::alloc::{AllocError, Global};
use std::marker::Model;

/// The commands of one step, in the order in which they were given. It has room for 64.
#[derive(Debug, Drop)]
pub struct Commands {
    slots: List<Command>,
    count: u32,
}

impl Model for Commands {
    ghost use Rattle.std.specs.Prelude.{◌≡◌, ◌≤◌, List as Items, length, take};
    ghost use Rattle.online_mover.specs.declared.stands.Command.{Command as AnyCommand};

    ghost Value = { Items AnyCommand };

    ghost view = { λ commands. take commands.count commands.slots };

    ghost invariant = { λ commands. (length commands.slots ≡ 64) × (commands.count ≤ 64) };
}

impl Commands {
    /// No command, and room for 64.
    pub fn new(alloc: Global) -> Result<Commands, AllocError>
        ensures { IfOk result (λ commands. commands ≡ []) }
    {
        let mut slots = Vec::with_capacity(alloc, 64)?;
        for _ in 0..64u32 {
            slots.push(Command::Drain { server: 0 })?;
        }
        Ok(Commands {
            slots: List::from_vec(slots),
            count: 0,
        })
    }

    /// How many commands there are, at most 64.
    pub fn len(&self) -> u32
        ensures { result ≡ length self.now }
    {
        self.count
    }

    /// The command at this place, from 0, or None past the last.
    pub fn get(&self, i: u32) -> Option<Command>
        ensures { result ≡ slice_get self.now i }
    {
        if i < self.count {
            self.slots.get(i).copied()
        } else {
            None
        }
    }

    /// Forgets all commands.
    pub(crate) fn clear(&mut self)
        ensures { self.new ≡ [] }
    {
        self.count = 0;
    }

    /// Adds a command.
    pub(crate) fn put(&mut self, command: Command)
        requires { length self.old < 64 }
        ensures { self.new ≡ self.old ++ command ∷ [] }
    {
        self.slots.set(self.count, command);
        self.count += 1;
    }
}
