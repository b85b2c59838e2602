//! The verdict on a document, and the reasons why one is not accepted.

use bound_certificate::TreeWhy;
use plan_model::Lost;

/// One of the two parts of a document.
#[derive(Clone, Copy, Debug, PartialEq)]
pub enum PhaseName {
    /// The part of the first phase, over the whole region.
    Region,
    /// The part of the second phase, with the rack goals of the chosen reservations.
    Rack,
}

/// Why a document is not accepted.
#[derive(Clone, Copy, Debug, PartialEq)]
pub enum Reason {
    /// The stated protection of a reservation is not that of the case. The first such reservation.
    Protection {
        r: u32,
    },
    /// A server is bound to a reservation that it cannot serve. The first such server.
    Serves {
        phase: PhaseName,
        server: u32,
    },
    /// A reservation does not keep its need. The first such reservation, with `Total` where its total is too small, else
    /// with the first switchboard or datacenter whose loss leaves too little, of those that its protection names.
    Need {
        phase: PhaseName,
        r: u32,
        lost: Lost,
    },
    /// The stated value is not the cost of the stated assignment.
    Value {
        phase: PhaseName,
        stated: u64,
        found: u64,
    },
    /// The program of the part has too many columns or rows.
    Size {
        phase: PhaseName,
    },
    /// A node of the part's tree breaks a rule. The first such node, with the first rule that it breaks.
    Tree {
        phase: PhaseName,
        node: u32,
        why: TreeWhy,
    },
    /// The answer is that there is no plan, and a leaf of the tree is not refuted. The first such leaf.
    Open {
        node: u32,
    },
    /// The stated bound is not the tree's. `found` is None where all leaves are refuted.
    Lower {
        phase: PhaseName,
        stated: u64,
        found: Option<u64>,
    },
    /// The stated gap is not value minus bound, or it does not go with the answer and the wanted gap.
    Gap {
        phase: PhaseName,
        stated: u64,
    },
    /// The stated list of chosen reservations is not the chosen list. The first place where they differ, from 0.
    Chosen {
        place: u32,
    },
    /// A server is moved that the rack phase does not move, or is bound to a reservation that is not chosen.
    Fixed {
        server: u32,
    },
    /// The answer is a spent budget, and the last part's tree does not have the number of nodes of one. That number.
    Budget {
        phase: PhaseName,
        nodes: u32,
    },
    /// The answer is a spent budget, and a split of the last part shows a point that is not as it must be. The first such split.
    Point {
        phase: PhaseName,
        node: u32,
    },
}

/// Whether a document is accepted.
#[derive(Clone, Copy, Debug, PartialEq)]
pub enum Verdict {
    /// It is accepted.
    Yes,
    /// It is not, for this reason, the first that holds.
    No(Reason),
}
