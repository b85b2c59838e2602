//! Assignments as points of the program of classes, and back.
#![tactic(auto)]

mod counting;
mod expansion;
mod laws;

pub use counting::counts;
pub use expansion::expand;
pub use laws::{
    allowed_is_whole_point, chosen_are_there, program_keeps_limits, rack_lifts, region_lifts,
    whole_point_is_allowed,
};
pub use steady_plans::settle;
