//! Tests of what a worker has at its edge: the clock, and the link.
#![tactic(auto)]

#[cfg(test)]
mod links;
#[cfg(test)]
mod stamps;
