//! The shares of a book that are open.

ghost use Rattle.std.specs.Prelude.{◌≡◌};
ghost use Rattle.exec_collector.specs.Resolved.{Replays};
ghost use Rattle.session_worker.specs.Audit.{still_open};

use share_ledger::Book;

/// The shares that are open, over all sweeps of a book that its own history leads to.
pub(crate) fn open_shares(book: &Book) -> u64
    requires { Replays book.now }
    ensures { result ≡ still_open book.now }
{
    let mut shares = 0;
    for sweep in 0..book.history().len() {
        match book.totals(sweep as u64 + 1) {
            Some(totals) => shares += totals.still_open,
            None => return shares,
        }
    }
    shares
}
