//! What an exchange does by itself.

ghost use Rattle.std.specs.Prelude.{◌≡◌, Err, [], ◌∷◌, false, IfOk, OnErr, OnOk, All, option_to_list};
ghost use Rattle.dialect.specs.Framed.{AreFramed};
ghost use Rattle.dialect.specs.Writable.{IsWritable};
ghost use Rattle.exchange_core.specs.declared.sent_record.SentRecord.TheVariants.{Reported};
ghost use Rattle.exchange_core.specs.SentRecord.{next_own_number, execution_report};
ghost use Rattle.exchange_core.specs.Acts.{while_live, answered, trade, cancel_rest, reject, bust, test};
ghost use Rattle.exchange_core.specs.Frames.{ActGives, UsesNumber, bytes_of, no_dialect};
ghost use Rattle.exchange_core.specs.Keeping.{IsAct};
ghost use Rattle.exchange_core.specs.OrderDecision.{order_answer, IsFor, IsFit, after_step};
ghost use Rattle.exchange_core.specs.Sound.{IsSound};

use super::Exchange;
use crate::ExchangeFault;
use crate::ending::Ending;
use crate::numbered_id::{id_of_order, id_of_report, id_of_test};
use crate::order_decision::{OrderDecision, OrderStep};
use crate::sent_record::SentRecord;
use crate::to_peer::{report_to_peer, to_peer};
use dialect::{Content, Dialect, LastPx, OrderView, Plain, Report, ReportKind, write_message};
use fix_tags::{SessionBody, Stamp, TextRef};
use leg::Split;
use std::alloc::{AllocError, Global};

impl Exchange {
    /// Trades so many open shares of the order at a place, counted from 1, at a price, and gives the frame of the
    /// report, if a connection is live. X01, X03, X02, X05, X04.
    #[tactic(auto, using(crate::proofs::Reporting::trade_allowed))]
    pub fn trade<D: Dialect>(
        &mut self,
        alloc: Global,
        dialect: &D,
        place: usize,
        shares: u64,
        px: LastPx,
        stamp: &Stamp,
    ) -> Result<Option<Vec<u8>>, ExchangeFault>
        ensures gives { ActGives (D.wording dialect.now).encoding stamp.now
            self.old (trade self.old place shares px) result self.new }
        ensures memory { result ≡ Err ExchangeFault.OutOfMemory → UsesNumber self.old (trade self.old place shares px) }
        ensures allowed { IsAct self.old (trade self.old place shares px) }
    {
        let decision = self.decide_trade(place, shares, px)?;
        self.report(alloc, dialect, place, decision, stamp)
    }

    /// Cancels what is open of the order at a place, counted from 1. X01, X03, X05, X04.
    #[tactic(auto, using(crate::proofs::Reporting::cancel_allowed))]
    pub fn cancel_rest<D: Dialect>(
        &mut self,
        alloc: Global,
        dialect: &D,
        place: usize,
        stamp: &Stamp,
    ) -> Result<Option<Vec<u8>>, ExchangeFault>
        ensures gives { ActGives (D.wording dialect.now).encoding stamp.now
            self.old (cancel_rest self.old place) result self.new }
        ensures memory { result ≡ Err ExchangeFault.OutOfMemory → UsesNumber self.old (cancel_rest self.old place) }
        ensures allowed { IsAct self.old (cancel_rest self.old place) }
    {
        let decision = self.decide_end(place, Ending::ByCancel, ReportKind::Canceled)?;
        self.report(alloc, dialect, place, decision, stamp)
    }

    /// Rejects the order at a place, counted from 1: nothing of it is open any more. X01, X03, X05, X04.
    #[tactic(auto, using(crate::proofs::Reporting::reject_allowed))]
    pub fn reject<D: Dialect>(
        &mut self,
        alloc: Global,
        dialect: &D,
        place: usize,
        stamp: &Stamp,
    ) -> Result<Option<Vec<u8>>, ExchangeFault>
        ensures gives { ActGives (D.wording dialect.now).encoding stamp.now
            self.old (reject self.old place) result self.new }
        ensures memory { result ≡ Err ExchangeFault.OutOfMemory → UsesNumber self.old (reject self.old place) }
        ensures allowed { IsAct self.old (reject self.old place) }
    {
        let decision = self.decide_end(place, Ending::ByReject, ReportKind::Rejected)?;
        self.report(alloc, dialect, place, decision, stamp)
    }

    /// Undoes a trade of the order at a place, after the rest of the order was cancelled. Both places are counted from
    /// 1, busted trades included. X01, X07, X06, X05, X04.
    #[tactic(auto, using(crate::proofs::Reporting::bust_allowed))]
    pub fn bust<D: Dialect>(
        &mut self,
        alloc: Global,
        dialect: &D,
        place: usize,
        which: usize,
        stamp: &Stamp,
    ) -> Result<Option<Vec<u8>>, ExchangeFault>
        ensures gives { ActGives (D.wording dialect.now).encoding stamp.now
            self.old (bust self.old place which) result self.new }
        ensures memory { result ≡ Err ExchangeFault.OutOfMemory → UsesNumber self.old (bust self.old place which) }
        ensures allowed { IsAct self.old (bust self.old place which) }
    {
        let decision = self.decide_bust(place, which)?;
        self.report(alloc, dialect, place, decision, stamp)
    }

    /// Asks the peer for a sign of life, while a connection is live, and gives the frame of the TestRequest. X05, X04.
    #[tactic(auto, using(crate::proofs::Testing::test_allowed))]
    pub fn test(&mut self, alloc: Global, stamp: &Stamp) -> Result<Option<Vec<u8>>, ExchangeFault>
        ensures gives { ActGives no_dialect stamp.now self.old (test self.old) result self.new }
        ensures memory { result ≡ Err ExchangeFault.OutOfMemory → UsesNumber self.old (test self.old) }
        ensures allowed { IsAct self.old (test self.old) }
    {
        match self.live {
            None => return Ok(None),
            Some(_) => {}
        }
        if !self.has_numbers(1) {
            return Err(ExchangeFault::NumbersSpent);
        }
        let number = self.own.len() as u64 + 1;
        let id = id_of_test(number);
        let content = Content::Session(SessionBody::TestRequest {
            id: TextRef::new(id.as_bytes()),
        });
        // Every dialect spells it the same.
        let outgoing = to_peer(&self.config, number, false, content);
        let frame = write_message(alloc, &Plain, stamp, &outgoing)?;
        self.own.push(SentRecord::Admin)?;
        Ok(Some(frame))
    }

    /// Reports what a decision says of the order at a place, and takes its step. The report is kept whether or not it
    /// is written.
    fn report<D: Dialect>(
        &mut self,
        alloc: Global,
        dialect: &D,
        place: usize,
        decision: OrderDecision,
        stamp: &Stamp,
    ) -> Result<Option<Vec<u8>>, ExchangeFault>
        requires there { IsFor self.old place decision.step }
        requires fit { IfOk (order_answer self.old place decision) IsFit }
        ensures gives { ActGives (D.wording dialect.now).encoding stamp.now
            self.old (answered self.old (order_answer self.old place decision)) result self.new }
        ensures memory { result ≡ Err ExchangeFault.OutOfMemory
            → UsesNumber self.old (answered self.old (order_answer self.old place decision)) }
    {
        let OrderDecision { split, step, kind } = decision;
        let leg = self.orders[place - 1].leg();
        let report = Report {
            id: leg.id,
            exec: id_of_report(self.next_count()),
            kind,
        };
        let order_id = id_of_order(place as u64);
        let view = OrderView::new(leg, order_id, split.filled(), split.still_open()).unwrap();
        let frame = self.frame_of_report(alloc, dialect, &report, &view, stamp)?;
        self.keep_report(place, split, step, report, view)?;
        Ok(frame)
    }

    /// The frame of the next report, while a connection is live.
    fn frame_of_report<D: Dialect>(
        &self,
        alloc: Global,
        dialect: &D,
        report: &Report,
        view: &OrderView,
        stamp: &Stamp,
    ) -> Result<Option<Vec<u8>>, AllocError>
        requires { All IsWritable (while_live self.now.live
            (execution_report self.now.config (next_own_number self.now.own) false report.now view.now ∷ [])) }
        ensures { IfOk result (λ frame. AreFramed
            (D.wording dialect.now).encoding stamp.now
            (while_live self.now.live
            (execution_report self.now.config (next_own_number self.now.own) false report.now view.now ∷ []))
            (bytes_of (option_to_list frame))) }
    {
        if self.live.is_none() {
            return Ok(None);
        }
        let number = self.own.len() as u64 + 1;
        let outgoing = report_to_peer(&self.config, number, false, report, view);
        let frame = write_message(alloc, dialect, stamp, &outgoing)?;
        Ok(Some(frame))
    }

    /// Takes the step of the order at a place, with these shares afterwards, and keeps the report on it under the next
    /// own number. Out of memory leaves the exchange as it was.
    fn keep_report(
        &mut self,
        place: usize,
        split: Split,
        step: OrderStep,
        report: Report,
        view: OrderView,
    ) -> Result<(), AllocError>
        requires there { IsFor self.old place step }
        requires sound { IsSound (after_step self.old place split step (Reported report view)) }
        ensures ok { OnOk result (self.new ≡ after_step self.old place split step (Reported report view)) }
        ensures err { OnErr result (self.new ≡ self.old) }
    {
        self.own.reserve(1)?;
        self.reports.reserve(1)?;
        self.orders[place - 1].step(split, step)?;
        self.reports.push_reserved(report.clone().unwrap());
        self.own
            .push_reserved(SentRecord::Reported { report, view });
        Ok(())
    }
}
