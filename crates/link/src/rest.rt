//! How a link waits.

/// How a link waits while nothing is there to do.
#[derive(Clone, Copy, Debug, PartialEq, Eq)]
pub enum Rest {
    /// It sleeps, and takes no processor until it is woken.
    Sleep,
    /// It looks again and again, and so takes a processor for itself. It is woken some microseconds sooner.
    Spin,
}
