//! What became of a day.

use leg::Totals;
use session_worker::{DayReport, EndReason};
use std::alloc::AllocError;
use std::fmt;
use std::fmt::Write;
use sweep_release::Receipt;
use trial::{Parts, TrialFault};

/// A sweep, and what became of its shares.
#[derive(Clone, Copy, Debug, PartialEq, Eq)]
pub struct SweepEnd {
    pub receipt: Receipt,
    pub totals: Totals,
}

/// What a worker did, and what its session and its exchange say at the end.
#[derive(Clone, Copy, Debug, PartialEq, Eq)]
pub struct VenueEnd {
    pub reason: EndReason,
    /// How many legs it took from the ring, and how many the exchange accepted, if that can be looked at.
    pub taken: usize,
    pub accepted: Option<usize>,
    /// The shares of all trades that the exchange reported, if it took the session's Logout.
    pub traded: Option<u64>,
    /// How many legs are in doubt.
    pub in_doubt: usize,
    /// How many connections its session had, and the number of the next message.
    pub connections: u64,
    pub next_out: u64,
    /// How many calls of the link failed.
    pub faults: u64,
}

/// What became of a day.
#[derive(Debug, Drop)]
pub struct Outcome {
    pub sweeps: Vec<SweepEnd>,
    pub venues: Vec<VenueEnd>,
    pub report: DayReport,
    /// What went over the links, as far as they keep it.
    pub text: String,
}

impl Outcome {
    /// What became of the only venue.
    pub fn only(&self) -> Result<VenueEnd, TrialFault> {
        match self.venues.as_slice() {
            [end] => Ok(*end),
            _ => Err(TrialFault::Missing),
        }
    }

    /// Writes what no fault may change: how many shares each sweep adds up to, how many legs the workers took, and why
    /// they ended.
    pub fn write_kept(&self, text: &mut String) -> Result<(), AllocError> {
        for SweepEnd { receipt, .. } in &self.sweeps {
            let number = receipt.number;
            let shares = receipt.shares;
            writeln!(text, "sweep {number}: its parts add up to {shares} shares")?;
        }
        for VenueEnd { reason, taken, .. } in &self.venues {
            writeln!(text, "a worker took {taken} legs: {reason:?}")?;
        }
        text.push_str("audit ok\n")
    }

    /// Writes all of it but the numbers of the messages.
    pub fn write_ends(&self, text: &mut String) -> Result<(), AllocError> {
        text.push_str(self.text.as_str())?;
        for sweep in &self.sweeps {
            writeln!(text, "{sweep}")?;
        }
        for venue in &self.venues {
            writeln!(text, "{venue}")?;
        }
        let DayReport {
            placed,
            resolved,
            still_open,
        } = self.report;
        writeln!(
            text,
            "audit: placed {placed} resolved {resolved} open {still_open}"
        )
    }

    /// Writes all of it.
    pub fn write_all(&self, text: &mut String) -> Result<(), AllocError> {
        self.write_ends(text)?;
        for VenueEnd { next_out, .. } in &self.venues {
            writeln!(text, "next number {next_out}")?;
        }
        Ok(())
    }
}

impl fmt::Display for SweepEnd {
    fn fmt<W: fmt::Write>(&self, f: &mut fmt::Formatter<W>) -> fmt::Result {
        let number = self.receipt.number;
        let shares = self.receipt.shares;
        let parts = Parts(self.totals);
        write!(f, "sweep {number} of {shares} shares:{parts}")
    }
}

impl fmt::Display for VenueEnd {
    fn fmt<W: fmt::Write>(&self, f: &mut fmt::Formatter<W>) -> fmt::Result {
        let reason = self.reason;
        let taken = self.taken;
        write!(f, "worker {reason:?}: {taken} legs taken")?;
        if let Some(accepted) = self.accepted {
            write!(f, ", {accepted} accepted")?;
        }
        let in_doubt = self.in_doubt;
        let connections = self.connections;
        let faults = self.faults;
        write!(
            f,
            ", {in_doubt} in doubt; connections {connections}, faults {faults}"
        )
    }
}
