//! A report that came.

ghost use Rattle.std.specs.Prelude.{◌≡◌, IfOk};
ghost use Rattle.log_rules.specs.KeptReport.{has_shares_of, is_again, is_on, kept_report, traded_by};

use crate::report_said::{Happening, ReportSaid};
use std::alloc::{AllocError, Global};
use std::marker::Model;

/// A report that came: its number, the place of the order that it is on, its ExecID (17), and how many shares it says
/// were traded.
#[derive(Debug, Drop)]
pub(crate) struct KeptReport {
    number: u64,
    order: Option<usize>,
    exec: Vec<u8>,
    shares: u64,
}

impl Model for KeptReport {
    ghost use Rattle.log_rules.specs.KeptReport.{ReportParts};

    ghost Value = { ReportParts };

    ghost view = { λ r. record { number = r.number; order = r.order; exec = r.exec.items; shares = r.shares } };
}

/// How many shares were traded.
fn traded_by(happened: &Happening<'_>) -> u64
    ensures { result ≡ traded_by happened.now }
{
    match happened {
        Happening::Trade { shares } => *shares,
        _ => 0,
    }
}

impl KeptReport {
    pub(crate) fn new(
        alloc: Global,
        number: u64,
        order: Option<usize>,
        said: &ReportSaid<'_>,
    ) -> Result<KeptReport, AllocError>
        ensures { IfOk result (λ report. report ≡ kept_report number order said.now) }
    {
        Ok(KeptReport {
            number,
            order,
            exec: Vec::from_slice(alloc, said.exec.as_bytes())?,
            shares: traded_by(&said.happened),
        })
    }

    pub(crate) fn number(&self) -> u64
        ensures { result ≡ self.now.number }
    {
        self.number
    }

    /// Whether it is on the order at this place.
    pub(crate) fn is_on(&self, order: Option<usize>) -> bool
        ensures { result ≡ is_on order self.now.order }
    {
        match (order, self.order) {
            (Some(order), Some(own)) => order == own,
            _ => false,
        }
    }

    /// Whether a report says as many shares.
    pub(crate) fn has_shares_of(&self, said: &ReportSaid<'_>) -> bool
        ensures { result ≡ has_shares_of self.now said.now }
    {
        self.shares == traded_by(&said.happened)
    }

    /// Whether a report is this one again: it has its ExecID and as many shares.
    pub(crate) fn is_again(&self, said: &ReportSaid<'_>) -> bool
        ensures { result ≡ is_again self.now said.now }
    {
        self.exec.as_slice() == said.exec.as_bytes() && self.has_shares_of(said)
    }

    pub(crate) fn shares(&self) -> u64
        ensures { result ≡ self.now.shares }
    {
        self.shares
    }
}
