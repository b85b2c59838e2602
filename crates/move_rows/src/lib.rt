//! Worked examples of `ras move` over files in memory, and of the mover, event by event.
#![tactic(auto)]

#[cfg(test)]
mod doubled;
#[cfg(test)]
mod machine;
#[cfg(test)]
mod spares;
#[cfg(test)]
mod steps;
#[cfg(test)]
mod texts;
