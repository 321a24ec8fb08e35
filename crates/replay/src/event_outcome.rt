//! What an event tells, besides the world after it.

ghost use Rattle.std.specs.Prelude.{◌≡◌};
ghost use Rattle.replay.specs.Telling.{by_release, by_gate, by_session, by_exchange, by_silence};

use crate::refusal::Refusal;
use exchange_core::ExchangeFault;
use session_core::{Ended, SessionFault};
use share_ledger::Applied;
use sweep_release::{GateFault, Receipt, ReleaseFault};

/// What an event tells, besides the world after it.
#[derive(Clone, Copy, Debug)]
pub struct EventOutcome {
    /// The number of the sweep, if the event placed one.
    pub placed: Option<u64>,
    /// Why a call was refused, if one was.
    pub refused: Option<Refusal>,
    /// What the book did with the note, if the event gave it one.
    pub answer: Option<Applied>,
    /// Why the session ended its connection, if it did.
    pub ended: Option<Ended>,
}

impl EventOutcome {
    /// Nothing was told.
    pub(crate) const NOTHING: EventOutcome = EventOutcome {
        placed: None,
        refused: None,
        answer: None,
        ended: None,
    };

    /// A sweep was placed, or refused.
    pub(crate) fn by_release(placed: Result<Receipt, ReleaseFault>) -> EventOutcome
        ensures { result ≡ by_release placed }
    {
        match placed {
            Ok(receipt) => EventOutcome {
                placed: Some(receipt.number),
                ..EventOutcome::NOTHING
            },
            Err(fault) => EventOutcome {
                refused: Some(Refusal::Release(fault)),
                ..EventOutcome::NOTHING
            },
        }
    }

    /// A gate was put up, or its call refused.
    pub(crate) fn by_gate(put: Result<(), GateFault>) -> EventOutcome
        ensures { result ≡ by_gate put }
    {
        match put {
            Ok(()) => EventOutcome::NOTHING,
            Err(fault) => EventOutcome {
                refused: Some(Refusal::Gate(fault)),
                ..EventOutcome::NOTHING
            },
        }
    }

    /// A call of a session was refused, or not.
    pub(crate) fn by_session(refused: Option<SessionFault>) -> EventOutcome
        ensures { result ≡ by_session refused }
    {
        match refused {
            Some(fault) => EventOutcome {
                refused: Some(Refusal::Session(fault)),
                ..EventOutcome::NOTHING
            },
            None => EventOutcome::NOTHING,
        }
    }

    /// An act of an exchange was refused, or not.
    pub(crate) fn by_exchange(refused: Option<ExchangeFault>) -> EventOutcome
        ensures { result ≡ by_exchange refused }
    {
        match refused {
            Some(fault) => EventOutcome {
                refused: Some(Refusal::Exchange(fault)),
                ..EventOutcome::NOTHING
            },
            None => EventOutcome::NOTHING,
        }
    }

    /// A session that heard nothing ended its connection or didn't, or its call was refused.
    pub(crate) fn by_silence(ended: Result<Option<Ended>, SessionFault>) -> EventOutcome
        ensures { result ≡ by_silence ended }
    {
        match ended {
            Ok(ended) => EventOutcome {
                ended,
                ..EventOutcome::NOTHING
            },
            Err(fault) => EventOutcome::by_session(Some(fault)),
        }
    }
}
