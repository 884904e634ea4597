//! Examples that are run: the numbers of terms, tables, records at the edge of each test, and replies
//! to lines.
#![tactic(auto)]

#[cfg(test)]
mod numbers;
#[cfg(test)]
mod records;
#[cfg(test)]
mod replies;
#[cfg(test)]
mod tables;
#[cfg(test)]
mod term_numbers;
