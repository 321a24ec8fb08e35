//! What a report does to the shares of its order.

ghost use Rattle.std.specs.Prelude.{◌≡◌};
ghost use Rattle.log_legs.specs.Parts.{bust_move, is_dropped, move_by, move_of};

use log_rules::{Checker, Happening, ReportSaid};

/// The most bytes of an ExecID (17) that a desk takes.
const MAX_EXEC: usize = 64;

/// What a report does to the shares of its order.
#[derive(Clone, Copy, Debug, PartialEq, Eq)]
pub enum Move {
    /// No share moves.
    Tells,
    /// So many open shares are traded.
    Trades(u64),
    /// What is open is cancelled.
    Ends,
    /// A trade of so many shares is undone.
    Busts(u64),
}

/// Whether a desk takes no report of this ExecID under this number: it is too long, or came before under another one.
fn is_dropped(checker: &Checker, number: u64, exec: &[u8]) -> bool
    ensures { result ≡ is_dropped checker.now.ledger.reports number exec.now }
{
    exec.len() > MAX_EXEC || checker.comes_again(exec, number)
}

impl Move {
    /// The bust of a trade of so many shares, if its report came.
    fn bust(shares: Option<u64>) -> Move
        ensures { result ≡ bust_move shares }
    {
        match shares {
            Some(shares) => Move::Busts(shares),
            None => Move::Tells,
        }
    }

    /// What a report on the order at this place, under this number, does. One that a desk drops moves no share.
    pub(crate) fn of(checker: &Checker, place: usize, number: u64, said: &ReportSaid<'_>) -> Move
        ensures { result ≡ move_of checker.now.ledger.reports place number said.now }
    {
        if is_dropped(checker, number, said.exec.as_bytes()) {
            return Move::Tells;
        }
        Move::by(checker, place, &said.happened)
    }

    /// What it does by what it says happened. The trade that a bust undoes is the first report of that ExecID, if it is
    /// on the same order.
    fn by(checker: &Checker, place: usize, happened: &Happening<'_>) -> Move
        ensures { result ≡ move_by checker.now.ledger.reports place happened.now }
    {
        match happened {
            Happening::Trade { shares } => Move::Trades(*shares),
            Happening::Ended => Move::Ends,
            Happening::Bust { undone } => {
                Move::bust(checker.shares_of_exec(undone.as_bytes(), Some(place)))
            }
            Happening::New | Happening::Other | Happening::Unknown => Move::Tells,
        }
    }
}
