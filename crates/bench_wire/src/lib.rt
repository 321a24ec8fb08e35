//! What the program `bench` does with workers that dial exchanges outside: one caller hands in sweeps at a pace, and
//! tells when each was handed in. What came of a sweep, and when, the exchanges know.
#![tactic(auto)]

mod load;
mod running;
mod workers;

pub use load::WireLoad;
pub use running::run_wire;
