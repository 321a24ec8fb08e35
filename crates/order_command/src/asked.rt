//! What the words of `dispatch order` ask for.

use crate::options::Options;
use dialect::AnyDialect;

/// What the words of `dispatch order` ask for.
#[derive(Drop)]
pub enum Asked<'a> {
    /// The order of these options is written.
    Write(Options<'a>),
    /// A frame is read, in this dialect.
    Read(AnyDialect),
}
