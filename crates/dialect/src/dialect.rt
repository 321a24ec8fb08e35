//! A dialect: how a venue spells an order and a report on it.

use crate::fault::{DialectFault, SpellFault};
use crate::order_view::OrderView;
use crate::report::Report;
use fix_tags::{AppFields, Stamp};
use fix_text::{Field, FieldSink};
use leg::Leg;
use std::alloc::{AllocError, Global};

/// How a venue spells an order (FIX 4.4 Volume 4, NewOrderSingle) in the fields of a message of kind `D`, and a report
/// on it (ExecutionReport) in those of kind `8`, without those of the header. What is written for a leg or a report is
/// a relation, what is read from fields a function, and the laws join the two: `Wording` has them all.
pub trait Dialect {
    ghost use Rattle.std.specs.Prelude.{◌≡◌, ◌+◌, ◌<◌, IfOk, OnOk, OnErr, vec_len, vec_capacity};
    ghost use Rattle.fix_tags.specs.Stamp.{stamp_text};
    ghost use Rattle.leg.specs.Leg.{IsLeg};
    ghost use Rattle.dialect.specs.Dialect.{Appends, PushesSuch};
    ghost use Rattle.dialect.specs.Report.{IsReport};
    ghost use Rattle.dialect.specs.ReportFields.{HasShortIds};
    ghost use Rattle.dialect.specs.Wording.{Wording, IsWording};

    // What may be written for an order and a report, what fields are read as, and the mark of a leg of a sweep.
    ghost wording: { Self → Wording };

    /// Appends the fields of an order for the leg, with the stamp as TransactTime (60). V05, which comes only where the
    /// list has no room for as many fields as an order has at most, leaves it as it was.
    fn write_order(
        &self,
        alloc: Global,
        leg: &Leg,
        stamp: &Stamp,
        fields: &mut Vec<Field>,
    ) -> Result<(), SpellFault>
        ensures ok { OnOk result
            (Appends ((wording self.now).encoding.IsOrder leg.now stamp.now) fields.old.items fields.new.items) }
        ensures err { OnErr result (fields.new.items ≡ fields.old.items) }
        ensures full { OnErr result
            (vec_capacity fields.old < vec_len fields.old + (wording self.now).encoding.most_fields) };

    /// Pushes the fields of an order for the leg, with the stamp as TransactTime (60), to a list or to the body of a
    /// frame. `time` is the stamp's text. A growth is refused only where there is no room for as many fields as
    /// an order has at most, and leaves some of them behind.
    fn push_order<F: FieldSink>(
        &self,
        alloc: Global,
        leg: &Leg,
        stamp: &Stamp,
        time: &[u8],
        fields: &mut F,
    ) -> Result<(), AllocError>
        requires { time.now ≡ stamp_text stamp.now }
        ensures pushed { PushesSuch F.Takes ((wording self.now).encoding.IsOrder leg.now stamp.now)
            fields.old fields.new result }
        ensures full { OnErr result (F.room fields.old < (wording self.now).encoding.most_fields) };

    /// Reads an order. Faults are tried in the written order of the fields, and the first one is answered. Of a tag
    /// that stands several times the first counts, and tags that an order doesn't have are passed over.
    fn read_order(&self, fields: &AppFields<'_>) -> Result<Leg, DialectFault>
        ensures value { result ≡ (wording self.now).decoding.order fields.now }
        ensures in_range { IfOk result IsLeg };

    /// Appends the fields of a report, beside what its exchange knows of the order. V05 leaves the list as it was.
    /// Where no id of the exchange's is longer than 24 bytes it comes only where the list has no room for sixteen more
    /// fields.
    fn write_report(
        &self,
        alloc: Global,
        report: &Report,
        view: &OrderView,
        fields: &mut Vec<Field>,
    ) -> Result<(), SpellFault>
        requires { view.now.leg.id ≡ report.now.id }
        ensures ok { OnOk result
            (Appends ((wording self.now).encoding.IsReport report.now view.now) fields.old.items fields.new.items) }
        ensures err { OnErr result (fields.new.items ≡ fields.old.items) }
        ensures full { HasShortIds 24 report.now view.now
            → OnErr result (vec_capacity fields.old < vec_len fields.old + 16) };

    /// Pushes the fields of a report, beside what its exchange knows of the order, to a list or to the body of a frame.
    /// A growth is refused only where an id of the exchange's isn't short, or there is no room for sixteen more fields,
    /// and leaves some of them behind.
    fn push_report<F: FieldSink>(
        &self,
        alloc: Global,
        report: &Report,
        view: &OrderView,
        fields: &mut F,
    ) -> Result<(), AllocError>
        requires { view.now.leg.id ≡ report.now.id }
        ensures pushed { PushesSuch F.Takes ((wording self.now).encoding.IsReport report.now view.now)
            fields.old fields.new result }
        ensures full { HasShortIds F.short report.now view.now → OnErr result (F.room fields.old < 16) }
        ensures known { HasShortIds 64 report.now view.now };

    /// Reads a report. It takes no memory. Faults are tried in the order 11, 17, 150, and then 32 and 31 of a trade or
    /// 19 of a bust, and the first one is answered. Of a tag that stands several times the first counts, and the other
    /// tags are passed over.
    fn read_report(&self, fields: &AppFields<'_>) -> Result<Report, DialectFault>
        ensures value { result ≡ (wording self.now).decoding.report fields.now }
        ensures in_range { IfOk result IsReport };

    // What is written is read back, says what it has to, and fits a message.
    ghost is_wording: { (d : Self) → IsWording (wording d) };
}
