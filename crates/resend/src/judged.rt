//! How the number of a received message stands to the one that is expected.

/// How the number of a received message stands to the one that is expected (FIX 4.4 Volume 2, "Ordered Message
/// Processing").
#[derive(Clone, Copy, Debug, PartialEq, Eq)]
pub enum Judged {
    /// It is the number expected.
    Due,
    /// It is higher: messages before it are missing.
    Ahead,
    /// It is lower, and PossDupFlag (43) says that it was sent before.
    Repeat,
    /// It is lower, and no such mark is there.
    TooLow,
}
