//! How lines are written.

/// How the lines of a day are written.
#[derive(Clone, Copy, Debug, PartialEq, Eq)]
pub enum Form {
    Words,
    /// Each as an object of JSON.
    Json,
}
