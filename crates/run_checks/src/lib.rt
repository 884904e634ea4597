//! Examples that are run: messages called both ways, and a queue of place numbers.
#![tactic(auto)]

#[cfg(test)]
mod both;
#[cfg(test)]
mod numbers;
