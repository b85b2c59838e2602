ghost use Rattle.std.specs.Prelude.{◌≡◌, IfOk, IsTrue, OnOk, IsErrOf, ◌↔◌, false, true};
ghost use Rattle.std.specs.List.{list_all};
ghost use Rattle.ras_table.specs.Names.{is_name, is_name_byte};

use crate::list::List;
use std::alloc::{AllocError, Global};
use std::marker::Model;
use thiserror::Error;

/// Why bytes were not read as a name.
#[derive(Debug, Drop, Error)]
pub enum NameFault {
    #[error("not a name")]
    Bad,
    #[error("out of memory")]
    Memory,
}

/// A name: 1 to 64 printable bytes without blank, quote or comma.
#[derive(Debug, Drop)]
pub struct Name {
    bytes: Vec<u8>,
}

impl Model for Name {
    ghost use Rattle.std.specs.Prelude.{List, ℕ, IsTrue};

    ghost Value = { List ℕ };

    ghost use Rattle.ras_table.specs.Names.{is_name};

    ghost view = { λ a. a.bytes.items };

    ghost invariant = { λ a. IsTrue (is_name a.bytes.items) };
}

/// Whether a byte may stand in a name.
fn is_name_byte(b: u8) -> bool
    ensures { result ≡ is_name_byte b }
{
    b >= 0x21 && b <= 0x7E && b != b'"' && b != b','
}

/// Whether each byte may stand in a name.
fn are_name_bytes(bytes: &[u8]) -> bool
    ensures { result ≡ list_all is_name_byte bytes.now }
{
    bytes.iter().all(|b| is_name_byte(*b))
}

/// Whether bytes are a name.
pub fn is_name(bytes: &[u8]) -> bool
    ensures { result ≡ is_name bytes.now }
{
    bytes.len() >= 1 && bytes.len() <= 64 && are_name_bytes(bytes)
}

impl Name {
    /// Reads a name.
    pub fn read(alloc: Global, bytes: &[u8]) -> Result<Name, NameFault>
        ensures name { IfOk result (λ name. name ≡ bytes.now) }
        ensures good { OnOk result (is_name bytes.now ≡ true) }
        ensures bad { IsErrOf result NameFault.Bad ↔ (is_name bytes.now ≡ false) }
    {
        if !is_name(bytes) {
            return Err(NameFault::Bad);
        }
        match Vec::from_slice(alloc, bytes) {
            Ok(bytes) => Ok(Name { bytes }),
            Err(_) => Err(NameFault::Memory),
        }
    }

    /// The bytes of the name.
    pub fn bytes(&self) -> &[u8]
        ensures bytes { result.now ≡ self.now }
        ensures name { is_name self.now ≡ true }
    {
        self.bytes.as_slice()
    }

    /// The text of the name.
    pub fn text(&self) -> &str
        ensures { result.now ≡ self.now }
    {
        match str::from_utf8(self.bytes()) {
            Ok(text) => text,
            // The bytes of a name are printable, so they are a text.
            Err(_) => unreachable!(),
        }
    }

    /// Another copy of the name.
    pub fn copy(&self, alloc: Global) -> Result<Name, AllocError>
        ensures { IfOk result (λ copy. copy ≡ self.now) }
    {
        Ok(Name {
            bytes: Vec::from_slice(alloc, self.bytes.as_slice())?,
        })
    }
}
