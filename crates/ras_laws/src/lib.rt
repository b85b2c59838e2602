//! Laws that cross crates, and the worked examples, each as the contract of a function with an empty body.
#![tactic(auto)]

mod certificates;

pub use certificates::{
    one_child_breaks_a_rule, one_loss_refutes, six_servers_bound, six_servers_bound_rounds_up,
    three_servers_split,
};
