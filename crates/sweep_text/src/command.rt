//! What a line asks for.

use sweep_refs::Submission;

/// What a line of standard input asks for.
#[derive(Debug, Drop)]
pub enum Command {
    /// A blank line or a remark.
    Nothing,
    Status,
    Close,
    /// Under a reference, if it has one.
    Sweep(Submission),
}
