//! Why a call was refused, with its code, and why a session ended its connection.

ghost use Rattle.std.specs.Prelude.{◌≡◌, Some};
ghost use Rattle.event_text.specs.Refused.{ended_text, exchange_text, gate_text, session_text};

use exchange_core::ExchangeFault;
use replay::Refusal;
use session_core::{Ended, SessionFault};
use std::fmt;
use sweep_release::{GateFault, ReleaseFault};

/// Why a release was refused, in words.
#[derive(Clone, Copy)]
struct ReleaseText<'a>(&'a ReleaseFault);

impl<'a> fmt::Display for ReleaseText<'a> {
    ghost use Rattle.event_text.specs.Refused.{release_text};

    ghost output = { λ fault. Some (release_text fault.0.now) };

    fn fmt<W: fmt::Write>(&self, f: &mut fmt::Formatter<W>) -> fmt::Result {
        match self.0 {
            ReleaseFault::Empty => write!(f, "R01 empty"),
            ReleaseFault::TooManyLegs => write!(f, "R02 too many legs"),
            ReleaseFault::UnknownVenue(venue) => write!(f, "R03 unknown venue {venue}"),
            ReleaseFault::GateShut(venue) => write!(f, "R04 gate shut {venue}"),
            ReleaseFault::BacklogFull(venue) => write!(f, "R05 backlog full {venue}"),
            ReleaseFault::SweepsSpent => write!(f, "R06 sweeps spent"),
            ReleaseFault::OutOfMemory => write!(f, "R07 out of memory"),
            ReleaseFault::WrongBook => write!(f, "R08 wrong book"),
        }
    }
}

fn gate_text(fault: GateFault) -> &'static str
    ensures { result.now ≡ gate_text fault }
{
    match fault {
        GateFault::NotDrained => "G01 not drained",
        GateFault::Closed => "G02 closed",
        GateFault::OutOfMemory => "G03 out of memory",
    }
}

fn session_text(fault: SessionFault) -> &'static str
    ensures { result.now ≡ session_text fault }
{
    match fault {
        SessionFault::NotDown => "S01 not down",
        SessionFault::Closed => "S02 closed",
        SessionFault::NumbersSpent => "S03 numbers spent",
        SessionFault::OutOfMemory => "S04 out of memory",
        SessionFault::NotUp => "S05 not up",
        SessionFault::OrdinalNotGreater => "S06 ordinal not greater",
        SessionFault::NotConnected => "S07 not connected",
    }
}

fn exchange_text(fault: ExchangeFault) -> &'static str
    ensures { result.now ≡ exchange_text fault }
{
    match fault {
        ExchangeFault::NoSuchOrder => "X01 no such order",
        ExchangeFault::TooManyShares => "X02 too many shares",
        ExchangeFault::Done => "X03 done",
        ExchangeFault::OutOfMemory => "X04 out of memory",
        ExchangeFault::NumbersSpent => "X05 numbers spent",
        ExchangeFault::NoSuchTrade => "X06 no such trade",
        ExchangeFault::NotCancelled => "X07 not cancelled",
    }
}

/// Why a call was refused, as `refused: R04 gate shut 0`.
#[derive(Clone, Copy)]
pub(crate) struct RefusalText<'a>(pub(crate) &'a Refusal);

impl<'a> fmt::Display for RefusalText<'a> {
    ghost use Rattle.event_text.specs.Refused.{refusal_text};

    ghost output = { λ refusal. Some (refusal_text refusal.0.now) };

    fn fmt<W: fmt::Write>(&self, f: &mut fmt::Formatter<W>) -> fmt::Result {
        match self.0 {
            Refusal::Release(fault) => {
                let fault = ReleaseText(fault);
                write!(f, "refused: {fault}")
            }
            Refusal::Gate(fault) => {
                let fault = gate_text(*fault);
                write!(f, "refused: {fault}")
            }
            Refusal::Session(fault) => {
                let fault = session_text(*fault);
                write!(f, "refused: {fault}")
            }
            Refusal::Exchange(fault) => {
                let fault = exchange_text(*fault);
                write!(f, "refused: {fault}")
            }
        }
    }
}

/// Why a session ended its connection.
pub(crate) fn ended_text(ended: Ended) -> &'static str
    ensures { result.now ≡ ended_text ended }
{
    match ended {
        Ended::FirstNotLogon => "E01 first message is no logon",
        Ended::TooLow => "E02 number too low",
        Ended::WrongComp => "E03 wrong comp id",
        Ended::ResetRefused => "E04 reset refused",
        Ended::ResendInDoubt => "E05 resend in doubt",
        Ended::BadResend => "E06 bad resend request",
        Ended::PeerLogout => "E07 peer logged out",
        Ended::LogonAgain => "E08 logon again",
        Ended::BadGapFill => "E09 bad gap fill",
        Ended::Silent => "E10 silent",
        Ended::Malformed => "E11 malformed",
        Ended::LogoutDone => "E12 logout done",
        Ended::BadNextExpected => "E13 bad next expected number",
        Ended::PeerForgot => "E14 peer forgot what it took",
    }
}
