//! Examples that are run on a state: what a script cannot show.
#![tactic(auto)]

#[cfg(test)]
mod generic;
#[cfg(test)]
mod memory;
pub mod tagged;
