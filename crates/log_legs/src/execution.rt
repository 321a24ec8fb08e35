//! What an exchange says of an order, as a desk is told.

ghost use Rattle.std.specs.Prelude.{◌≡◌, Some};
ghost use Rattle.log_legs.specs.Execution.{body_told, bust_untaken, execution_of, is_gone_at, kind_untaken, leg_at};
ghost use Rattle.log_legs.specs.Execution.{moving_untaken, refused_under, report_in, report_told, report_untaken};
ghost use Rattle.log_legs.specs.Execution.{session_told, untaken_at};
ghost use Rattle.log_rules.specs.Ledger.{newest_order};

use crate::report_note::{FieldWords, ReportNote, read_report};
use crate::share_parts::ShareParts;
use crate::watch::Watch;
use desk_executions::Untaken;
use dialect::{DialectFault, REPORT_KIND, ReportKind};
use fix_tags::{AppFields, Body, BodyRef, EnvelopeRef, SessionBody, TextRef};

/// What an exchange says of an order.
#[derive(Debug, Drop)]
pub enum Said<'a> {
    Report(ReportNote<'a>),
    /// A Reject or a BusinessReject of the order of this ClOrdID (11).
    Refused(TextRef<'a>),
    /// A report that a desk can't read, and why.
    Unread(DialectFault, FieldWords),
}

/// What an exchange says of an order, and why the desk's book doesn't take it; none where it does.
#[derive(Debug, Drop)]
pub struct Execution<'a> {
    pub said: Said<'a>,
    pub untaken: Option<Untaken>,
}

/// Why the book doesn't take a bust of the trade of so many shares, if its report came on the order.
fn bust_untaken(shares: Option<u64>, parts: &ShareParts) -> Option<Untaken>
    ensures { result ≡ bust_untaken shares parts.now }
{
    match shares {
        Some(shares) if shares > 0 && parts.can_bust(shares) => None,
        _ => Some(Untaken::Stray),
    }
}

/// Why the book doesn't take a report on the order at this place, of these shares.
fn kind_untaken(
    watch: &Watch,
    place: usize,
    kind: &ReportKind,
    parts: &ShareParts,
) -> Option<Untaken>
    ensures { result ≡ kind_untaken watch.now.checker.ledger.reports place kind.now parts.now }
{
    match kind {
        ReportKind::Trade(fill) if parts.can_trade(fill.shares()) => None,
        ReportKind::Trade(_) => Some(Untaken::Overfill),
        ReportKind::Bust { cancelled_id } => bust_untaken(
            watch
                .checker()
                .shares_of_exec(cancelled_id.as_bytes(), Some(place)),
            parts,
        ),
        ReportKind::New | ReportKind::Canceled | ReportKind::Rejected | ReportKind::Expired => None,
    }
}

fn moving_untaken(watch: &Watch, place: usize, kind: &ReportKind) -> Option<Untaken>
    ensures { result ≡ moving_untaken watch.now.checker.ledger.reports place kind.now (leg_at watch.now.legs place) }
{
    let leg = watch.kept_leg(place)?;
    kind_untaken(watch, place, kind, leg.parts())
}

/// Why the book doesn't take a report under this number, on the order at this place.
fn untaken_at(watch: &Watch, number: u64, note: &ReportNote<'_>, place: usize) -> Option<Untaken>
    ensures { result ≡ untaken_at watch.now number note.now place }
{
    if watch.checker().comes_again(note.exec.as_bytes(), number) {
        return Some(Untaken::Duplicate);
    }
    if watch.is_gone_at(place) {
        return Some(Untaken::Stray);
    }
    moving_untaken(watch, place, &note.kind)
}

/// Why the book doesn't take a report under this number. One on an order that wasn't sent is a stray.
fn report_untaken(watch: &Watch, number: u64, note: &ReportNote<'_>) -> Option<Untaken>
    ensures { result ≡ report_untaken watch.now number note.now
        (newest_order watch.now.checker.ledger.orders note.now.id) }
{
    match watch.place_of(note.id.as_bytes()) {
        Some(place) => untaken_at(watch, number, note, place),
        None => Some(Untaken::Stray),
    }
}

/// What is told of a report of these fields under this number.
fn report_told<'a>(watch: &Watch, number: u64, fields: &AppFields<'a>) -> Execution<'a>
    ensures { result ≡ report_told watch.now number fields.now
        (report_in watch.now.checker.ledger.orders fields.now) }
{
    match read_report(watch.checker(), fields) {
        Ok(note) => {
            let untaken = report_untaken(watch, number, &note);
            Execution {
                said: Said::Report(note),
                untaken,
            }
        }
        Err(fault) => Execution {
            said: Said::Unread(fault, FieldWords::new(fields)),
            untaken: Some(Untaken::Unread),
        },
    }
}

/// What is told of the refusal of the order that was sent under this number.
fn refused_under<'a>(watch: &'a Watch, number: u64) -> Option<Execution<'a>>
    ensures { result ≡ refused_under watch.entry.now number }
{
    let place = watch.checker().place_under(number)?;
    let order = watch.checker().orders().get(place)?;
    let untaken = if watch.is_gone_at(place) {
        Some(Untaken::Stray)
    } else {
        None
    };
    Some(Execution {
        said: Said::Refused(TextRef::new(order.id())),
        untaken,
    })
}

fn session_told<'a>(watch: &'a Watch, says: &SessionBody<'_>) -> Option<Execution<'a>>
    ensures { result ≡ session_told watch.entry.now says.now }
{
    match says {
        SessionBody::Reject { number } => refused_under(watch, *number),
        SessionBody::BusinessReject {
            number: Some(number),
        } => refused_under(watch, *number),
        _ => None,
    }
}

fn body_told<'a>(watch: &'a Watch, number: u64, body: &BodyRef<'a>) -> Option<Execution<'a>>
    ensures { result ≡ body_told watch.entry.now number body.now }
{
    match body {
        Body::Session(says) => session_told(watch, says),
        Body::App { kind, fields } if kind.as_bytes() == REPORT_KIND => {
            Some(report_told(watch, number, fields))
        }
        Body::App { .. } => None,
    }
}

/// What a message of the exchange says of an order, and what the desk's book makes of it, by the messages before it:
/// none where it isn't the next one that counts, or is no report and no refusal of an order. Orders have to be kept.
pub fn execution_of<'a>(watch: &'a Watch, message: &EnvelopeRef<'a>) -> Option<Execution<'a>>
    ensures { result ≡ execution_of watch.entry.now message.now }
{
    if watch.checker().standing().is_due(message.number()) {
        body_told(watch, message.number(), message.body())
    } else {
        None
    }
}
