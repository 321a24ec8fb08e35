//! How the lines of a log are written.

use fix_tags::CompId;

/// How the lines of a log are written.
#[derive(Debug, Drop)]
pub enum Form {
    /// As this program's logs.
    Own,
    /// As those of QuickFIX's FileLog; the messages are those of a desk of this name, and to it.
    Quickfix { desk: CompId },
}
