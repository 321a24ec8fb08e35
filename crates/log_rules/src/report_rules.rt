//! The rules of what a report says.

ghost use Rattle.std.specs.Prelude.{◌≡◌};
ghost use Rattle.std.specs.Option.{option_map};
ghost use Rattle.log_rules.specs.ReportRules.{counted_on, exec_once, exec_used, is_first, is_of_open, is_within};
ghost use Rattle.log_rules.specs.ReportRules.{known_kind, limit_kept, open_order, same_terms, sides_agree, status_fits};
ghost use Rattle.log_rules.specs.ReportRules.{status_of, status_says, status_with, texts_agree, trade_within};
ghost use Rattle.log_rules.specs.ReportRules.{within_limit};

use crate::entry::Entry;
use crate::kept_report::KeptReport;
use crate::ledger::Ledger;
use crate::order::Order;
use crate::report_said::{Happening, ReportSaid};
use crate::says::Says;
use crate::standing::Standing;
use crate::verdict::Verdict;
use fix_tags::TextRef;
use leg::Side;
use message_log::Direction;

/// Whether a report of this number comes for the first time.
fn is_first(standing: &Standing, ledger: &Ledger, number: u64) -> bool
    ensures { result ≡ is_first standing.now ledger.now number }
{
    !(number <= standing.seen && ledger.report_under(number).is_some())
}

/// What is said of the ExecID of a report that comes for the first time, of which another may be the first.
fn exec_used(poss_resend: bool, first: Option<&KeptReport>, said: &ReportSaid<'_>) -> Verdict
    ensures { result ≡ exec_used poss_resend (option_map (λ report. report.now) first.entry) said.now }
{
    match (poss_resend, first) {
        (true, None) => Verdict::Unasked,
        (true, Some(first)) => Verdict::held_if(first.has_shares_of(said)),
        (false, None) => Verdict::Held,
        (false, Some(_)) => Verdict::Broken,
    }
}

/// A report that comes for the first time has an ExecID of its own. One that says that it may have come under another
/// number has as many shares as the first of its ExecID.
pub(crate) fn exec_once(standing: &Standing, ledger: &Ledger, entry: &Entry<'_>) -> Verdict
    ensures { result ≡ exec_once standing.now ledger.now entry.now }
{
    match (entry.direction, &entry.says) {
        (Direction::Received, Says::Report(said)) if is_first(standing, ledger, entry.number) => {
            let first = ledger.report_of_exec(said.exec.as_bytes());
            exec_used(entry.poss_resend, first, said)
        }
        _ => Verdict::Unasked,
    }
}

/// What a report says happened is one of the standard's kinds.
pub(crate) fn known_kind(entry: &Entry<'_>) -> Verdict
    ensures { result ≡ known_kind entry.now.direction entry.now.says }
{
    match (entry.direction, &entry.says) {
        (Direction::Received, Says::Report(said)) => {
            Verdict::held_if(!matches!(&said.happened, Happening::Unknown))
        }
        _ => Verdict::Unasked,
    }
}

/// The order that a report is on which is counted.
fn counted_on<'a>(standing: &Standing, ledger: &'a Ledger, entry: &Entry<'_>) -> Option<&'a Order>
    ensures { option_map (λ order. order.now) result
        ≡ counted_on standing.now ledger.now entry.now.direction entry.now.says entry.now.number }
{
    match (entry.direction, &entry.says) {
        (Direction::Received, Says::Report(said)) if standing.is_due(entry.number) => {
            ledger.order(said.id.as_bytes())
        }
        _ => None,
    }
}

/// New, a trade and an end are of an order that has open shares.
fn is_of_open(order: &Order, happened: &Happening<'_>) -> Verdict
    ensures { result ≡ is_of_open order.now happened.now }
{
    match happened {
        Happening::New | Happening::Trade { .. } | Happening::Ended => {
            Verdict::held_if(order.leaves() > 0)
        }
        Happening::Bust { .. } | Happening::Other | Happening::Unknown => Verdict::Unasked,
    }
}

/// Behind the end of an order nothing happens to it but busts.
pub(crate) fn open_order(standing: &Standing, ledger: &Ledger, entry: &Entry<'_>) -> Verdict
    ensures { result ≡ open_order standing.now ledger.now entry.now }
{
    match (counted_on(standing, ledger, entry), &entry.says) {
        (Some(order), Says::Report(said)) => is_of_open(order, &said.happened),
        _ => Verdict::Unasked,
    }
}

/// Whether a price is no worse than a limit.
fn is_within(side: Side, limit: u64, price: u64) -> bool
    ensures { result ≡ is_within side limit price }
{
    match side {
        Side::Buy => price <= limit,
        Side::Sell => limit <= price,
    }
}

fn within_limit(side: Option<Side>, limit: Option<u64>, price: Option<u64>) -> Verdict
    ensures { result ≡ within_limit side limit price }
{
    match (side, limit, price) {
        (Some(side), Some(limit), Some(price)) => Verdict::held_if(is_within(side, limit, price)),
        _ => Verdict::Unasked,
    }
}

fn trade_within(order: &Order, said: &ReportSaid<'_>) -> Verdict
    ensures { result ≡ trade_within order.now said.now said.now.happened }
{
    match &said.happened {
        Happening::Trade { .. } => within_limit(order.side(), order.price(), said.price),
        _ => Verdict::Unasked,
    }
}

/// A trade's price is no worse than the order's, where both can be read.
pub(crate) fn limit_kept(standing: &Standing, ledger: &Ledger, entry: &Entry<'_>) -> Verdict
    ensures { result ≡ limit_kept standing.now ledger.now entry.now }
{
    match (counted_on(standing, ledger, entry), &entry.says) {
        (Some(order), Says::Report(said)) => trade_within(order, said),
        _ => Verdict::Unasked,
    }
}

/// Whether two texts are one, where both are there.
fn texts_agree(text: Option<&[u8]>, other: &Option<TextRef<'_>>) -> bool
    ensures { result ≡ texts_agree (option_map (λ t. t.now) text.entry) other.now }
{
    match (text, other) {
        (Some(text), Some(other)) => text == other.as_bytes(),
        _ => true,
    }
}

/// Whether two sides are one, where both are there.
fn sides_agree(side: Option<Side>, other: Option<Side>) -> bool
    ensures { result ≡ sides_agree side other }
{
    match (side, other) {
        (Some(Side::Buy), Some(Side::Sell)) | (Some(Side::Sell), Some(Side::Buy)) => false,
        _ => true,
    }
}

/// A report has the symbol and the side of its order, where both have them.
pub(crate) fn same_terms(standing: &Standing, ledger: &Ledger, entry: &Entry<'_>) -> Verdict
    ensures { result ≡ same_terms standing.now ledger.now entry.now }
{
    match (counted_on(standing, ledger, entry), &entry.says) {
        (Some(order), Says::Report(said)) => Verdict::held_if(
            texts_agree(order.symbol(), &said.symbol) && sides_agree(order.side(), said.side),
        ),
        _ => Verdict::Unasked,
    }
}

/// Whether the sums are what the byte of a status says of them.
fn status_says(status: u8, cum: u64, leaves: u64) -> bool
    ensures { result ≡ status_says status cum leaves }
{
    match status {
        b'0' => cum == 0,
        b'1' => 0 < cum && 0 < leaves,
        b'2' => 0 < cum && leaves == 0,
        b'3' | b'4' | b'8' | b'C' => leaves == 0,
        _ => true,
    }
}

fn status_with(status: &Option<TextRef<'_>>, cum: Option<u64>, leaves: Option<u64>) -> Verdict
    ensures { result ≡ status_with status.now cum leaves }
{
    let (Some(status), Some(cum), Some(leaves)) = (status, cum, leaves) else {
        return Verdict::Unasked;
    };
    match status.as_bytes() {
        [status] => Verdict::held_if(status_says(*status, cum, leaves)),
        _ => Verdict::Unasked,
    }
}

fn status_of(said: &ReportSaid<'_>) -> Verdict
    ensures { result ≡ status_of said.now said.now.happened }
{
    match &said.happened {
        Happening::New | Happening::Trade { .. } | Happening::Ended => {
            status_with(&said.status, said.cum, said.leaves)
        }
        Happening::Bust { .. } | Happening::Other | Happening::Unknown => Verdict::Unasked,
    }
}

/// In a report of New, a trade or an end the status is what both sums say.
pub(crate) fn status_fits(entry: &Entry<'_>) -> Verdict
    ensures { result ≡ status_fits entry.now.direction entry.now.says }
{
    match (entry.direction, &entry.says) {
        (Direction::Received, Says::Report(said)) => status_of(said),
        _ => Verdict::Unasked,
    }
}
