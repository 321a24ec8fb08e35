//! What a simulated exchange does with its orders and messages.

/// What a simulated exchange does with its orders and messages, which are counted from 1 over all its connections.
/// Where a number of a message is 0 there is none.
#[derive(Clone, Copy, Debug)]
pub struct Plan {
    /// How many shares of each accepted order are traded, if it has as many; the rest is cancelled.
    pub fill: u64,
    /// The message behind which the connection is cut: it is taken, and nothing that is answered to it is sent.
    pub cut_after: u64,
    /// The message that is lost.
    pub lose: u64,
}
