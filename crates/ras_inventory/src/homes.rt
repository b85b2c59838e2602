ghost use Rattle.std.specs.Prelude.{◌≡◌, [], OnOk};
ghost use Rattle.std.specs.Option.{option_copied};
ghost use Rattle.ras_inventory.specs.HomeWords.{home_of, after_home};

use indexmap::IndexMap;
use ras_table::Name;
use std::alloc::{AllocError, Global};
use std::marker::Model;

/// For each of some names the home that was first given with it, as a rack's switchboard. Contracts see the list of
/// the names with their homes.
#[derive(Drop)]
pub struct Homes {
    of: IndexMap<Vec<u8>, Name>,
}

impl Model for Homes {
    ghost use Rattle.std.specs.Prelude.{List, ℕ};

    ghost Value = { List (List ℕ × List ℕ) };

    ghost use Rattle.ras_inventory.specs.HomeWords.{pairs_of};

    ghost view = { λ a. pairs_of a.of.entries };
}

impl Homes {
    /// No names.
    pub fn new(alloc: Global) -> Homes
        ensures { result ≡ [] }
    {
        Homes {
            of: IndexMap::new(alloc),
        }
    }

    /// The home of a name, or None where none was given.
    pub fn find(&self, name: &[u8]) -> Option<&Name>
        ensures { option_copied result ≡ home_of self.now name.now }
    {
        self.of.get(name)
    }

    /// Gives a name its home, unless it has one.
    pub fn settle(&mut self, name: &Name, home: &Name) -> Result<(), AllocError>
        ensures { OnOk result (self.new ≡ after_home self.old name.now home.now) }
    {
        if self.find(name.bytes()).is_some() {
            return Ok(());
        }
        let alloc = *self.of.allocator();
        let key = Vec::from_slice(alloc, name.bytes())?;
        let copy = home.copy(alloc)?;
        match self.of.insert(key, copy) {
            Ok(_) => Ok(()),
            Err(_) => Err(AllocError),
        }
    }
}
