//! Trees of searches of programs made by hand, and trees that say too much or too little.
ghost use Rattle.std.specs.Prelude.{IsTrue, [], ◌∷◌};
ghost use Rattle.ip_model.specs.Rule.{point_rule};

use crate::ending::{End, end_within};
use crate::programs::{Made, program_named};
use crate::reading::{Reading, read, whole_area};
use bound_certificate::{Multipliers, Node, Top, Tree};
use branch_bound::{Found, search};
use ip_model::Point;
use ras_table::List;
use std::alloc::{AllocError, Global};
use std::test::Fail;

/// How the written method ends in the box of a program after at most so many pivots.
fn ended(alloc: Global, which: Made, pivots: u64) -> Result<End, AllocError> {
    let program = program_named(alloc, which)?;
    let area = whole_area(alloc, &program)?;
    end_within(alloc, &program, &area, pivots)
}

#[test]
fn made_by_hand(rt: HostRuntime) -> Result<(), Fail> {
    let cases = [
        (Made::ThreeServers, 1_000, End::Least(3)),
        (Made::OneTooMany, 1_000, End::Empty),
        (Made::ChainOfEight, 1_000, End::Misfit),
        (Made::ChainOfFourteen, 1_000, End::Wide),
        (Made::ChainOfFourteen, 0, End::Spent),
    ];
    for (which, pivots, end) in cases {
        assert_eq!(rt; ended(rt.alloc(), which, pivots)?, end, "{which:?}");
    }
    Ok(())
}

/// The tree of what a search found.
fn tree_of(found: Found) -> Tree {
    match found {
        Found::Plan {
            point: _,
            value: _,
            lower: _,
            tree,
        } => tree,
        Found::Empty { tree } => tree,
        Found::Limit {
            best: _,
            lower: _,
            tree,
        } => tree,
    }
}

/// The reading of the tree of a search, with room for 29 nodes.
fn searched(alloc: Global, which: Made) -> Result<Reading, AllocError> {
    let program = program_named(alloc, which)?;
    let tree = tree_of(search(alloc, &program, None, 0, 29)?);
    read(alloc, &program, &tree)
}

// Whether a tree of the search shows points, and whether it has splits that show none.
#[test]
fn stopped_searches(rt: HostRuntime) -> Result<(), Fail> {
    let cases = [
        (Made::ThreeServers, true, false),
        (Made::ChainOfEight, true, true),
        (Made::ChainOfFourteen, false, true),
    ];
    for (which, shows, stops) in cases {
        let found = searched(rt.alloc(), which)?;
        assert!(rt; found.wrong.is_none(), "{which:?}: {found:?}");
        assert!(rt;
            (found.shown > 0) == shows && (found.licensed > 0) == stops,
            "{which:?}: {found:?}"
        );
    }
    Ok(())
}

/// What a split of the three servers shows.
#[derive(Clone, Copy, Debug)]
enum Shown {
    /// No point.
    Nothing,
    /// Half of each server.
    Halves,
    /// A quarter of each, which is too little.
    Quarters,
    /// Two of them whole, without the first.
    Border,
}

/// A point of the three servers over a denominator of at least 2: of the second and the third alike.
fn point_over(
    alloc: Global,
    den: u64,
    first: u64,
    others: u32,
    parts: u64,
) -> Result<Point, AllocError>
    requires { IsTrue (point_rule den (0 ∷ others ∷ others ∷ []) (first ∷ parts ∷ parts ∷ [])) }
{
    Ok(Point {
        den,
        whole: List::from_vec(vec![in alloc; 0, others, others]?),
        part: List::from_vec(vec![in alloc; first, parts, parts]?),
    })
}

/// The point that is shown, if one is.
fn point_of(alloc: Global, shown: Shown) -> Result<Option<Point>, AllocError> {
    let point = match shown {
        Shown::Nothing => return Ok(None),
        Shown::Halves => point_over(alloc, 2, 1, 0, 1)?,
        Shown::Quarters => point_over(alloc, 4, 1, 0, 1)?,
        Shown::Border => point_over(alloc, 2, 0, 1, 0)?,
    };
    Ok(Some(point))
}

/// Multipliers of the three rows that show 4 where the first server does not serve, and else 3 in every box.
fn low_multipliers(alloc: Global, own: bool) -> Result<Multipliers, AllocError> {
    if own {
        let tops = vec![in alloc; Top { row: 0, num: 2 }, Top { row: 1, num: 2 }]?;
        return Ok(Multipliers {
            den: 1,
            tops: List::from_vec(tops),
        });
    }
    let tops = vec![in alloc;
        Top { row: 0, num: 1 },
        Top { row: 1, num: 1 },
        Top { row: 2, num: 1 },
    ]?;
    Ok(Multipliers {
        den: 1,
        tops: List::from_vec(tops),
    })
}

/// Multipliers that show 4 where the first server serves.
fn high_multipliers(alloc: Global) -> Result<Multipliers, AllocError> {
    let tops = vec![in alloc; Top { row: 2, num: 2 }]?;
    Ok(Multipliers {
        den: 1,
        tops: List::from_vec(tops),
    })
}

/// The first node of the three servers' tree that does not say what it has to, where the split of the first server shows this, and the
/// leaf in which it does not serve has multipliers of its own or those of the split.
fn first_wrong(alloc: Global, shown: Shown, own: bool) -> Result<Option<usize>, AllocError> {
    let split = Node::Split {
        column: 0,
        at: 0,
        low: 1,
        high: 2,
        shown: point_of(alloc, shown)?,
    };
    let low = Node::Bound(low_multipliers(alloc, own)?);
    let high = Node::Bound(high_multipliers(alloc)?);
    let nodes = List::from_vec(vec![in alloc; split, low, high]?);
    let program = program_named(alloc, Made::ThreeServers)?;
    let reading = read(alloc, &program, &Tree { nodes })?;
    Ok(reading.wrong)
}

#[test]
fn points_and_multipliers(rt: HostRuntime) -> Result<(), Fail> {
    let cases = [
        (Shown::Halves, true, None),
        (Shown::Nothing, true, Some(0)),
        (Shown::Border, true, Some(0)),
        (Shown::Quarters, true, Some(0)),
        (Shown::Halves, false, Some(1)),
    ];
    for (shown, own, wrong) in cases {
        assert_eq!(rt;
            first_wrong(rt.alloc(), shown, own)?,
            wrong,
            "{shown:?} {own}"
        );
    }
    Ok(())
}
