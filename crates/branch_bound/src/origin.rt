//! Where the relaxations of a search start.

use exact_simplex::Tableau;
use incumbents::Layout;
use ip_model::Bounds;

/// What all nodes of a search share: the box of the whole program, the last tableau of its relaxation, from which that of each other box
/// starts, and the program laid out for moves that better its whole points. There is no tableau where all counts of the box are fixed.
#[derive(Drop)]
pub struct Origin {
    pub full: Bounds,
    pub at: Option<Tableau>,
    pub layout: Layout,
}
