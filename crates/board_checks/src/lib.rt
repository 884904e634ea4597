//! Examples that are run on boards, verifiers and a resolver: what a script cannot show.
#![tactic(auto)]

#[cfg(test)]
mod boards;
#[cfg(test)]
mod resolvers;
#[cfg(test)]
mod verifiers;
