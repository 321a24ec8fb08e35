//! The reports that came.

ghost use Rattle.std.specs.Prelude.{◌≡◌, ◌++◌, ◌∷◌, [], option_and_then, slice_get, OnOk, OnErr};
ghost use Rattle.std.specs.Option.{option_map};
ghost use Rattle.log_rules.specs.KeptReport.{kept_report};
ghost use Rattle.log_rules.specs.Ledger.{comes_again, has_report_in, report_of_exec, report_under, shares_of_exec};
ghost use Rattle.log_rules.specs.Ledger.{uncounted_of};

use crate::kept_report::KeptReport;
use crate::number_places::NumberPlaces;
use crate::report_said::ReportSaid;
use crate::standing::Standing;
use crate::text_places::TextPlaces;
use std::alloc::{AllocError, Global};
use std::marker::Model;

/// The reports that came, in their order. Under each number, and under each ExecID (17), the place of its first report
/// is kept.
#[derive(Debug, Drop)]
pub(crate) struct Reports {
    alloc: Global,
    items: Vec<KeptReport>,
    by_number: NumberPlaces,
    by_exec: TextPlaces,
}

impl Model for Reports {
    ghost use Rattle.std.specs.Prelude.{List};
    ghost use Rattle.log_rules.specs.KeptReport.{ReportParts};

    ghost Value = { List ReportParts };

    ghost view = { λ r. r.items.items };

    ghost use Rattle.log_rules.specs.Kept.{KeepsExecs, KeepsNumbers};

    ghost invariant = { λ r. KeepsNumbers r.by_number r.items.items × KeepsExecs r.by_exec r.items.items };
}

impl Reports {
    pub(crate) fn new(alloc: Global) -> Reports
        ensures { result ≡ [] }
    {
        Reports {
            alloc,
            items: Vec::new(alloc),
            by_number: NumberPlaces::new(alloc),
            by_exec: TextPlaces::new(alloc),
        }
    }

    /// The report at a place.
    fn at(&self, place: Option<usize>) -> Option<&KeptReport>
        ensures { option_map (λ report. report.now) result ≡ option_and_then (slice_get self.now) place }
    {
        self.items.get(place?)
    }

    /// The first report that came under this number.
    pub(crate) fn under(&self, number: u64) -> Option<&KeptReport>
        ensures { option_map (λ report. report.now) result ≡ report_under number self.now }
    {
        self.at(self.by_number.get(number))
    }

    /// The first report of this ExecID (17).
    pub(crate) fn of_exec(&self, exec: &[u8]) -> Option<&KeptReport>
        ensures { option_map (λ report. report.now) result ≡ report_of_exec exec.now self.now }
    {
        self.at(self.by_exec.get(exec))
    }

    /// Whether this ExecID (17) was first that of a report under another number.
    pub(crate) fn comes_again(&self, exec: &[u8], number: u64) -> bool
        ensures { result ≡ comes_again exec.now number self.now }
    {
        match self.of_exec(exec) {
            Some(report) => report.number() != number,
            None => false,
        }
    }

    /// How many shares the first report of this ExecID (17) says were traded, if it is on the order at this place.
    pub(crate) fn shares_of(&self, exec: &[u8], order: Option<usize>) -> Option<u64>
        ensures { result ≡ shares_of_exec exec.now order self.now }
    {
        match self.of_exec(exec) {
            Some(report) if report.is_on(order) => Some(report.shares()),
            _ => None,
        }
    }

    /// How many of them came under a number that isn't counted.
    pub(crate) fn uncounted(&self, standing: &Standing) -> usize
        ensures { result ≡ uncounted_of standing.now.counted self.now }
    {
        self.items
            .iter()
            .filter(|report| !standing.was_counted(report.number()))
            .count()
    }

    /// Whether a report came under a number of a range.
    pub(crate) fn has_in(&self, from: u64, to: u64) -> bool
        ensures { result ≡ has_report_in from to self.now }
    {
        self.by_number.has_in(from, to)
    }

    /// A report is behind the others. A refused growth changes nothing.
    pub(crate) fn push(
        &mut self,
        number: u64,
        order: Option<usize>,
        said: &ReportSaid<'_>,
    ) -> Result<(), AllocError>
        ensures ok { OnOk result (self.new ≡ self.old ++ kept_report number order said.now ∷ []) }
        ensures err { OnErr result (self.new ≡ self.old) }
    {
        let report = KeptReport::new(self.alloc, number, order, said)?;
        let exec = Vec::from_slice(self.alloc, said.exec.as_bytes())?;
        self.items.reserve(1)?;
        self.by_exec.reserve()?;
        self.by_number.keep(number, self.items.len())?;
        self.by_exec.keep(exec, self.items.len());
        self.items.push_reserved(report);
        Ok(())
    }
}
