//! Why a run stopped.

use std::{fmt, io};
use thiserror::Error;
use trial::{EndFault, TrialFault};

/// Why a run stopped, where `E` names what the words of the command line were expected to be.
#[derive(Clone, Copy, Debug, PartialEq, Eq, Error)]
#[error_bound(E: fmt::Display)]
pub enum BenchFault<E> {
    #[error("expected {0}")]
    Usage(E),
    #[error("{0}")]
    Trial(TrialFault),
}

impl<E> From<TrialFault> for BenchFault<E> {
    fn from(fault: TrialFault) -> BenchFault<E> {
        BenchFault::Trial(fault)
    }
}

impl<E> From<io::Error> for BenchFault<E> {
    fn from(error: io::Error) -> BenchFault<E> {
        BenchFault::Trial(TrialFault::from(error))
    }
}

impl<E: fmt::Display> EndFault for BenchFault<E> {
    fn status(&self) -> u8 {
        match self {
            BenchFault::Usage(_) => 2,
            BenchFault::Trial(fault) => fault.status(),
        }
    }
}
