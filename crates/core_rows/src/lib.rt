//! Worked examples of cores, by the exact planner.
#![tactic(auto)]

#[cfg(test)]
mod counting;
#[cfg(test)]
mod regions;
#[cfg(test)]
mod rows;
#[cfg(test)]
mod told;
