//! A leg that is placed at its venue.

use crate::Leg;

/// A released leg. Its ordinal counts the legs released to that venue, from 1.
#[derive(Clone, Debug, PartialEq, Eq, Drop)]
pub struct PlacedLeg {
    pub ordinal: u64,
    pub leg: Leg,
}
