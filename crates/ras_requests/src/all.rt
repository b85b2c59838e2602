ghost use Rattle.std.specs.Prelude.{◌≡◌, IsTrue, position};
ghost use Rattle.std.specs.Str.{bytes_eq};
ghost use Rattle.ras_requests.specs.RequestsRule.{requests_rule, reservation_names};

use crate::requests::{Moves, Reservation};
use ras_table::List;

/// The move costs and at most 64 reservations, each within its limits, no two of one name.
#[derive(Debug, Drop)]
pub struct Requests {
    /// What moves cost.
    pub moves: Moves,
    /// The reservations, in the order of the file.
    pub list: List<Reservation>,
    pub ghost kept: { IsTrue (requests_rule moves list) },
}

impl Requests {
    ghost use Rattle.ras_table.specs.Names.{number_of};

    /// The number of the reservation that has these bytes as its name, or None where there is none.
    pub fn find(&self, name: &[u8]) -> Option<u32>
        ensures { result ≡ number_of (reservation_names self.now.list) name.now }
    {
        match place_of(self.list.as_slice(), name) {
            Some(n) => Some(n as u32),
            None => None,
        }
    }
}

// The place of the first reservation of this name.
fn place_of(list: &[Reservation], name: &[u8]) -> Option<usize>
    ensures { result ≡ position (λ r. bytes_eq name.now r.name) list.now }
{
    list.iter().position(|r| name == r.name.bytes())
}
