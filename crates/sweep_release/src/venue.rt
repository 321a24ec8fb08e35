//! A venue of the desk.

use crate::Gate;
use leg::Leg;

/// A venue of the desk: its gate, and the legs that were released to it, of which the first so many left.
#[derive(Drop)]
pub struct Venue {
    pub gate: Gate,
    pub left: usize,
    pub released: Vec<Leg>,
}
