//! Which of two servers is taken first for a reservation.
ghost use Rattle.std.specs.Prelude.{◌≡◌};
ghost use Rattle.first_plans.specs.Ranks.{is_before as is_before_of, rank_by};

use ras_requests::Protection;

/// What decides between two servers that may be taken for a reservation.
#[derive(Clone, Copy)]
pub(crate) struct Rank {
    /// Its units in the server's datacenter, or 0 where its protection does not look at these.
    in_center: u64,
    /// Its units on the server's switchboard, or 0 where its protection does not look at these.
    on_board: u64,
    /// What the server is worth to it.
    value: u32,
}

impl Rank {
    /// The rank for a reservation of that protection.
    pub(crate) fn by(protection: Protection, in_center: u64, on_board: u64, value: u32) -> Rank
        ensures { result ≡ rank_by protection in_center on_board value }
    {
        match protection {
            Protection::Total => Rank {
                in_center: 0,
                on_board: 0,
                value,
            },
            Protection::Board => Rank {
                in_center: 0,
                on_board,
                value,
            },
            Protection::Center => Rank {
                in_center,
                on_board,
                value,
            },
        }
    }

    /// Whether a server of this rank is taken before one of another: the units in its datacenter are fewer, or as many and
    /// those on its switchboard are fewer, or these are as many too and its value is greater.
    pub(crate) fn is_before(&self, other: &Rank) -> bool
        ensures { result ≡ is_before_of self.now other.now }
    {
        if self.in_center != other.in_center {
            return self.in_center < other.in_center;
        }
        if self.on_board != other.on_board {
            return self.on_board < other.on_board;
        }
        self.value > other.value
    }
}
