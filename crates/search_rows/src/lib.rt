//! Trees of searches whose relaxations stop, read a second time: each split that shows no point is licensed, each point that is shown lies
//! where it has to, and each leaf that is not refuted is tight.
#![tactic(auto)]

#[cfg(test)]
mod ending;
#[cfg(test)]
mod programs;
#[cfg(test)]
mod reading;
#[cfg(test)]
mod regions;
#[cfg(test)]
mod table;
#[cfg(test)]
mod trees;
