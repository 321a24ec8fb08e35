//! What became of the withdrawals that the book was asked for.

ghost use Rattle.std.specs.Prelude.{◌≡◌, ◌+◌, min};

/// How many legs the book was asked to withdraw: those that it did, and those that it refused to, each up to the
/// greatest number of its type. It refuses a leg on which a report moved shares, or which it has withdrawn already; so
/// a worker whose session names a leg as withdrawn meets a refusal only where the exchange contradicts itself: it
/// reported on an order, and showed later that it hadn't taken it.
#[derive(Clone, Copy)]
pub(crate) struct WithdrawalCounts {
    pub(crate) done: u64,
    pub(crate) refused: u64,
}

impl WithdrawalCounts {
    /// None was asked for.
    pub(crate) fn none() -> WithdrawalCounts
        ensures { result ≡ record { done = 0; refused = 0 } }
    {
        WithdrawalCounts {
            done: 0,
            refused: 0,
        }
    }

    /// The book withdrew one more.
    pub(crate) fn count_done(&mut self)
        ensures { self.new ≡ record self.old { done = min (self.old.done + 1) 18446744073709551615 } }
    {
        self.done = self.done.saturating_add(1);
    }

    /// The book refused one more.
    pub(crate) fn count_refused(&mut self)
        ensures { self.new ≡ record self.old { refused = min (self.old.refused + 1) 18446744073709551615 } }
    {
        self.refused = self.refused.saturating_add(1);
    }
}
