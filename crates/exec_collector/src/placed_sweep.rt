//! A sweep that a caller placed.

use leg::Sweep;

/// A sweep that a caller placed, under its number. No value of it is made: contracts alone tell of them.
#[derive(Drop)]
pub struct PlacedSweep {
    pub number: u64,
    pub sweep: Sweep,
}
