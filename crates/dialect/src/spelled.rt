//! Any spelling is a dialect: what dialects share is written here once.

use crate::dialect::Dialect;
use crate::fault::{DialectFault, SpellFault};
use crate::order::{push_order, read_order, write_order};
use crate::order_view::OrderView;
use crate::report::Report;
use crate::report_read::read_report;
use crate::report_write::{push_report, write_report};
use crate::spelling::Spelling;
use fix_tags::{AppFields, Stamp};
use fix_text::{Field, FieldSink};
use leg::Leg;
use std::alloc::{AllocError, Global};

impl<S: Spelling> Dialect for S {
    ghost use Rattle.std.specs.Prelude.{◌≡◌, ◌+◌, ◌<◌, IfOk, OnOk, OnErr, vec_len, vec_capacity};
    ghost use Rattle.leg.specs.Leg.{IsLeg};
    ghost use Rattle.dialect.specs.Dialect.{Appends};
    ghost use Rattle.dialect.specs.Lemmas.SpelledLaws.{is_spelled};
    ghost use Rattle.dialect.specs.Order.{IsOrderOf, IsReadingOf, most_order_fields, order_read_of};
    ghost use Rattle.dialect.specs.Report.{IsReport as IsInRange};
    ghost use Rattle.dialect.specs.ReportFields.{HasShortIds, IsReportOf};
    ghost use Rattle.dialect.specs.ReportRead.{report_read_of};
    ghost use Rattle.dialect.specs.ReportReading.{IsReportReadingOf};
    ghost use Rattle.dialect.specs.Spelled.{spelled};

    ghost wording = { λ d. spelled (S.spelling d) };

    fn write_order(
        &self,
        alloc: Global,
        leg: &Leg,
        stamp: &Stamp,
        fields: &mut Vec<Field>,
    ) -> Result<(), SpellFault>
        ensures ok { OnOk result
            (Appends (IsOrderOf (S.spelling self.now) leg.now stamp.now) fields.old.items fields.new.items) }
        ensures err { OnErr result (fields.new.items ≡ fields.old.items) }
        ensures full { OnErr result
            (vec_capacity fields.old < vec_len fields.old + most_order_fields (S.spelling self.now)) }
    {
        write_order(self, alloc, leg, stamp, fields)
    }

    fn push_order<F: FieldSink>(
        &self,
        alloc: Global,
        leg: &Leg,
        stamp: &Stamp,
        time: &[u8],
        fields: &mut F,
    ) -> Result<(), AllocError> {
        // That the leg and the stamp are in range is known once they were read.
        leg.in_range();
        let _year = stamp.year();
        push_order(self, alloc, leg, stamp, time, fields)
    }

    fn read_order(&self, fields: &AppFields<'_>) -> Result<Leg, DialectFault>
        ensures value { result ≡ order_read_of (S.spelling self.now) fields.now }
        ensures in_range { IfOk result IsLeg }
        ensures says { IfOk result (λ leg. IsReadingOf (S.spelling self.now) leg fields.now) }
    {
        read_order(self, fields)
    }

    fn write_report(
        &self,
        alloc: Global,
        report: &Report,
        view: &OrderView,
        fields: &mut Vec<Field>,
    ) -> Result<(), SpellFault>
        requires { view.now.leg.id ≡ report.now.id }
        ensures ok { OnOk result
            (Appends (IsReportOf (S.spelling self.now) report.now view.now) fields.old.items fields.new.items) }
        ensures err { OnErr result (fields.new.items ≡ fields.old.items) }
        ensures full { HasShortIds 24 report.now view.now
            → OnErr result (vec_capacity fields.old < vec_len fields.old + 14) }
    {
        write_report(self, alloc, report, view, fields)
    }

    fn push_report<F: FieldSink>(
        &self,
        alloc: Global,
        report: &Report,
        view: &OrderView,
        fields: &mut F,
    ) -> Result<(), AllocError> {
        // That the report and the view are in range is known once they were read.
        report.in_range();
        let _leaves = view.leaves();
        push_report(self, alloc, report, view, fields)
    }

    fn read_report(&self, fields: &AppFields<'_>) -> Result<Report, DialectFault>
        ensures value { result ≡ report_read_of (S.spelling self.now) fields.now }
        ensures in_range { IfOk result IsInRange }
        ensures says { IfOk result (λ report. IsReportReadingOf (S.spelling self.now) report fields.now) }
    {
        read_report(self, fields)
    }

    ghost is_wording = { λ d. is_spelled (S.spelling d) (S.is_spelling d) };
}
