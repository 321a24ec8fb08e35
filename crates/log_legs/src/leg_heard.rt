//! What a message does to the orders of a log.

ghost use Rattle.std.specs.Prelude.{◌≡◌, IfOk};
ghost use Rattle.log_rules.specs.Ledger.{newest_order, newest_under};
ghost use Rattle.log_legs.specs.Legs.{is_withdrawn_at, leg_heard, order_heard, refusal_heard, report_heard};

use crate::kept_leg::KeptLeg;
use crate::share_move::Move;
use log_rules::{Checker, Entry, OrderSaid, ReportSaid, Says};
use message_log::Direction;
use std::alloc::{AllocError, Global};

/// What a message does to the orders of a log. An order is named by its place among those that were sent.
#[derive(Debug, Drop)]
pub(crate) enum LegHeard {
    Nothing,
    /// A Logon resets the numbers.
    Reset,
    /// An order is sent for the first time.
    First(KeptLeg),
    /// The order at this place is sent once more.
    Again(usize),
    /// A report on the order at this place is counted, or its refusal; and whether it was asked for again in doubt.
    Moves(usize, bool, Move),
}

fn order_heard(
    alloc: Global,
    place: Option<usize>,
    said: &OrderSaid<'_>,
) -> Result<LegHeard, AllocError>
    ensures { IfOk result (λ heard. heard ≡ order_heard place said.now) }
{
    match place {
        Some(place) => Ok(LegHeard::Again(place)),
        None => Ok(LegHeard::First(KeptLeg::new(alloc, said)?)),
    }
}

/// Whether the order at a place was asked for again in doubt.
pub(crate) fn is_withdrawn_at(checker: &Checker, place: usize) -> bool
    ensures { result ≡ is_withdrawn_at checker.now.ledger.orders place }
{
    match checker.orders().get(place) {
        Some(order) => order.is_withdrawn(),
        None => false,
    }
}

fn report_heard(checker: &Checker, number: u64, said: &ReportSaid<'_>) -> LegHeard
    ensures { result ≡ report_heard checker.now.ledger (newest_order checker.now.ledger.orders said.now.id)
        number said.now }
{
    match checker.place_of(said.id.as_bytes()) {
        Some(place) => LegHeard::Moves(
            place,
            is_withdrawn_at(checker, place),
            Move::of(checker, place, number, said),
        ),
        None => LegHeard::Nothing,
    }
}

/// The order that was sent under this number is refused.
fn refusal_heard(checker: &Checker, number: u64) -> LegHeard
    ensures { result ≡ refusal_heard checker.now.ledger (newest_under checker.now.ledger.orders number) }
{
    match checker.place_under(number) {
        Some(place) => LegHeard::Moves(place, is_withdrawn_at(checker, place), Move::Ends),
        None => LegHeard::Nothing,
    }
}

impl LegHeard {
    /// What a message does, where this is known before it.
    pub(crate) fn new(
        alloc: Global,
        checker: &Checker,
        entry: &Entry<'_>,
    ) -> Result<LegHeard, AllocError>
        ensures { IfOk result (λ heard. heard ≡ leg_heard checker.now entry.now) }
    {
        match (entry.direction, &entry.says) {
            (Direction::Sent, Says::Logon { reset, .. }) if *reset => Ok(LegHeard::Reset),
            (Direction::Sent, Says::Order(said)) => {
                order_heard(alloc, checker.place_of(said.id.as_bytes()), said)
            }
            (Direction::Received, Says::Report(said)) if checker.standing().is_due(entry.number) =>
                { Ok(report_heard(checker, entry.number, said)) }
            (Direction::Received, Says::Refused { number })
                if checker.standing().is_due(entry.number) => Ok(refusal_heard(checker, *number)),
            _ => Ok(LegHeard::Nothing),
        }
    }
}
