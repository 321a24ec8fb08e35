//! The rules of orders and of the reports on them.

ghost use Rattle.std.specs.Prelude.{◌≡◌};
ghost use Rattle.log_rules.specs.LedgerRules.{adds_up, bust_adds_up, is_sum, known_order, not_withdrawn, one_use};
ghost use Rattle.log_rules.specs.LedgerRules.{repeats, sent_once, shares_undone, sums_add_up, sums_of, trade_adds_up};

use crate::entry::Entry;
use crate::ledger::Ledger;
use crate::order::Order;
use crate::report_said::{Happening, ReportSaid};
use crate::says::Says;
use crate::standing::Standing;
use crate::verdict::Verdict;
use message_log::Direction;

/// An order's id was never sent before, also where the order says that it may have been.
pub(crate) fn sent_once(ledger: &Ledger, entry: &Entry<'_>) -> Verdict
    ensures { result ≡ sent_once ledger.now entry.now.direction entry.now.says }
{
    match (entry.direction, &entry.says) {
        (Direction::Sent, Says::Order(said)) => {
            Verdict::held_if(ledger.order(said.id.as_bytes()).is_none())
        }
        _ => Verdict::Unasked,
    }
}

/// A report is on an order that was sent.
pub(crate) fn known_order(ledger: &Ledger, entry: &Entry<'_>) -> Verdict
    ensures { result ≡ known_order ledger.now entry.now.direction entry.now.says }
{
    match (entry.direction, &entry.says) {
        (Direction::Received, Says::Report(said)) => {
            Verdict::held_if(ledger.order(said.id.as_bytes()).is_some())
        }
        _ => Verdict::Unasked,
    }
}

/// A report is on no order that was withdrawn.
pub(crate) fn not_withdrawn(ledger: &Ledger, entry: &Entry<'_>) -> Verdict
    ensures { result ≡ not_withdrawn ledger.now entry.now.direction entry.now.says }
{
    match (entry.direction, &entry.says) {
        (Direction::Received, Says::Report(said)) => match ledger.order(said.id.as_bytes()) {
            Some(order) => Verdict::held_if(!order.is_withdrawn()),
            None => Verdict::Unasked,
        },
        _ => Verdict::Unasked,
    }
}

/// A report under a number that came before is the one that came under it. None may have come if the number isn't
/// counted yet.
fn repeats(standing: &Standing, ledger: &Ledger, number: u64, said: &ReportSaid<'_>) -> Verdict
    ensures { result ≡ repeats standing.now.counted ledger.now.reports number said.now }
{
    match ledger.report_under(number) {
        Some(kept) => Verdict::held_if(kept.is_again(said)),
        None if standing.was_counted(number) => Verdict::Broken,
        None => Verdict::Unasked,
    }
}

/// A number that came before carries the same report again, or none as it did; and a gap fill passes over no report.
pub(crate) fn one_use(standing: &Standing, ledger: &Ledger, entry: &Entry<'_>) -> Verdict
    ensures { result ≡ one_use standing.now ledger.now entry.now }
{
    if entry.direction == Direction::Sent || standing.seen < entry.number {
        return Verdict::Unasked;
    }
    match &entry.says {
        Says::Logon { reset, .. } if *reset && entry.number == 1 => Verdict::Unasked,
        Says::Reset { .. } => Verdict::Unasked,
        Says::Report(said) => repeats(standing, ledger, entry.number, said),
        Says::GapFill { new_number } => {
            Verdict::held_if(!ledger.has_report_in(entry.number, *new_number))
        }
        _ => Verdict::held_if(ledger.report_under(entry.number).is_none()),
    }
}

/// Whether a sum is that of two numbers.
fn is_sum(sum: u64, a: u64, b: u64) -> bool
    ensures { result ≡ is_sum sum a b }
{
    a <= sum && sum - a == b
}

/// Whether the sums of a trade of one share or more add up: its shares were open, and are filled.
fn trade_adds_up(order: &Order, shares: u64, cum: u64, leaves: u64) -> bool
    ensures { result ≡ trade_adds_up order.now shares cum leaves }
{
    shares > 0 && is_sum(cum, order.cum(), shares) && is_sum(order.leaves(), leaves, shares)
}

/// Whether the sums of a bust add up: the shares of its trade are filled no more.
fn bust_adds_up(order: &Order, shares: Option<u64>, cum: u64, leaves: u64) -> bool
    ensures { result ≡ bust_adds_up order.now shares cum leaves }
{
    match shares {
        Some(shares) => {
            shares > 0 && is_sum(order.cum(), cum, shares) && leaves == order.leaves()
        }
        None => false,
    }
}

/// How many shares of this order the trade of an ExecID has.
fn shares_undone(ledger: &Ledger, order: &Order, undone: &[u8]) -> Option<u64>
    ensures { result ≡ shares_undone ledger.now order.now undone.now }
{
    ledger.shares_of_exec(undone, ledger.place_of(order.id()))
}

/// Whether these sums are what is made of an order's by what happened.
fn adds_up(ledger: &Ledger, order: &Order, happened: &Happening<'_>, cum: u64, leaves: u64) -> bool
    ensures { result ≡ adds_up ledger.now order.now happened.now cum leaves }
{
    match happened {
        Happening::New => cum == order.cum() && leaves == order.leaves(),
        Happening::Trade { shares } => trade_adds_up(order, *shares, cum, leaves),
        Happening::Ended => cum == order.cum() && leaves == 0,
        Happening::Bust { undone } => {
            bust_adds_up(
                order,
                shares_undone(ledger, order, undone.as_bytes()),
                cum,
                leaves,
            )
        }
        Happening::Other | Happening::Unknown => true,
    }
}

/// Whether the sums of a report on an order add up.
fn sums_of(ledger: &Ledger, order: &Order, said: &ReportSaid<'_>) -> bool
    ensures { result ≡ sums_of ledger.now order.now said.now }
{
    match (said.cum, said.leaves) {
        (Some(cum), Some(leaves)) => adds_up(ledger, order, &said.happened, cum, leaves),
        _ => false,
    }
}

/// The sums of a report are what those before it and what it says happened make: of each report that is counted, so
/// that one that comes again isn't taken twice.
pub(crate) fn sums_add_up(standing: &Standing, ledger: &Ledger, entry: &Entry<'_>) -> Verdict
    ensures { result ≡ sums_add_up standing.now ledger.now entry.now }
{
    match (entry.direction, &entry.says) {
        (Direction::Received, Says::Report(said)) if standing.is_due(entry.number) => {
            match ledger.order(said.id.as_bytes()) {
                Some(order) => Verdict::held_if(sums_of(ledger, order, said)),
                None => Verdict::Unasked,
            }
        }
        _ => Verdict::Unasked,
    }
}
