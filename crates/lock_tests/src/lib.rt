//! Tests of what threads share: the rings of the venues, the book and the desk behind locks, and the seats.
#![tactic(auto)]

#[cfg(test)]
mod counts;
#[cfg(test)]
mod desk;
#[cfg(test)]
mod full_ring;
#[cfg(test)]
mod one_venue;
#[cfg(test)]
mod orders;
#[cfg(test)]
mod read_back;
#[cfg(test)]
mod reports;
#[cfg(test)]
mod rings;
