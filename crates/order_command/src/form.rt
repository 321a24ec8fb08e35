//! How an order is printed.

/// How an order is printed.
#[derive(Clone, Copy, Debug, PartialEq, Eq)]
pub enum OrderForm {
    /// The frame as it is shown, and the leg that is read back from it, each in a line.
    Shown,
    /// The bytes of the frame alone.
    Raw,
}
