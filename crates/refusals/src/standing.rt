//! How the two ends, the desk and the book stand.

use leg::Totals;
use session_core::Phase;
use std::fmt;
use sweep_release::Gate;
use trial::{Parts, gate_name};

/// How the two ends, the desk and the book stand, as far as their questions tell.
#[derive(Clone, Copy, Debug, PartialEq, Eq)]
pub struct Standing {
    pub phase: Phase,
    pub connection: u64,
    pub next_out: u64,
    pub next_in: u64,
    pub in_doubt: bool,
    /// The number that the exchange expects.
    pub expected: u64,
    pub accepted: usize,
    pub reports: usize,
    pub closed_at: Option<usize>,
    pub gate: Gate,
    /// Legs that are placed, neither taken nor dropped.
    pub placed: usize,
    pub placed_shares: u64,
    /// Shares that aren't open any more.
    pub resolved: u64,
    pub desk_entries: usize,
    pub book_entries: usize,
    /// The shares of the first three sweeps.
    pub sweeps: [Option<Totals>; 3],
}

/// The name of a phase.
fn phase_name(phase: Phase) -> &'static str {
    match phase {
        Phase::Down => "down",
        Phase::LoggingOn => "logon",
        Phase::Settling => "settling",
        Phase::Up => "up",
        Phase::Closing => "closing",
        Phase::LoggedOut => "logout",
        Phase::Closed => "closed",
    }
}

impl fmt::Display for Standing {
    fn fmt<W: fmt::Write>(&self, f: &mut fmt::Formatter<W>) -> fmt::Result {
        let phase = phase_name(self.phase);
        let doubt = if self.in_doubt { " in doubt" } else { "" };
        let closed = if self.closed_at.is_some() {
            " closed"
        } else {
            ""
        };
        let gate = gate_name(self.gate);
        let connection = self.connection;
        let next_out = self.next_out;
        let next_in = self.next_in;
        let expected = self.expected;
        let accepted = self.accepted;
        let reports = self.reports;
        let placed = self.placed;
        let placed_shares = self.placed_shares;
        let resolved = self.resolved;
        let desk_entries = self.desk_entries;
        let book_entries = self.book_entries;
        write!(
            f,
            "session {phase} {connection} out {next_out} in {next_in}{doubt}; "
        )?;
        write!(
            f,
            "exchange {expected} accepted {accepted} reports {reports}{closed}; "
        )?;
        write!(
            f,
            "desk {gate} placed {placed} shares {placed_shares} entries {desk_entries}; "
        )?;
        write!(f, "book resolved {resolved} entries {book_entries}")?;
        for totals in self.sweeps.iter().flatten() {
            let parts = Parts(*totals);
            write!(f, ";{parts}")?;
        }
        Ok(())
    }
}
