//! Tests of the simulated exchanges: sessions with them, in memory and over loopback, and what each fault of a plan
//! does.
#![tactic(auto)]

#[cfg(test)]
mod client;
#[cfg(test)]
mod faults;
#[cfg(test)]
mod loopback;
#[cfg(test)]
mod support;
