//! Why a line gives no event.

/// Why a line gives no event.
#[derive(Clone, Copy, Debug, PartialEq, Eq)]
pub enum LineFault {
    /// It isn't of the form.
    Bad,
    /// It is of the form, and no memory is left.
    OutOfMemory,
}
