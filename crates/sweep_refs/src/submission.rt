//! A sweep as a caller submits it.

use crate::SweepRef;
use leg::Sweep;

/// A sweep as a caller submits it: under a reference, if the caller gave one.
#[derive(Debug, Drop)]
pub struct Submission {
    pub reference: Option<SweepRef>,
    pub sweep: Sweep,
}
