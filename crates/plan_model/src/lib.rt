//! The case that a plan is made for, an assignment of its servers, and what an assignment gives and costs.
#![tactic(auto)]

mod allowed;
mod cases;
mod copies;
mod costs;
mod joins;
mod laws;
mod levels;
mod losses;
mod plans;
mod sums;
mod tables;

pub use allowed::{first_loss, first_not_served, fits, keeps_need, serves};
pub use cases::{Assignment, Case, Goal, Grouping, Holder, Place, Want};
pub use copies::{copy_assignment, copy_case};
pub use costs::{move_cost, rack_cost, rack_excess, region_cost, terms};
pub use joins::join;
pub use laws::{
    allowed_survives_losses, five_servers, joins_to_one_case, no_servers_no_need, one_swap,
    racks_evened_out, six_servers, taking_away_never_raises,
};
pub use losses::{Lost, is_lost, loss_at, losses_named};
pub use plans::free_plan;
pub use sums::{units, units_in_center, units_on_board, units_on_rack};

#[cfg(test)]
mod tests;
