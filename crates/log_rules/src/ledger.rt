//! The orders that were sent, and the reports that came.

ghost use Rattle.std.specs.Prelude.{◌≡◌, [], OnOk, OnErr};
ghost use Rattle.std.specs.Option.{option_map};
ghost use Rattle.log_rules.specs.Ledger.{changed_by, comes_again, has_report_in, newest_order, newest_under, order_of};
ghost use Rattle.log_rules.specs.Ledger.{report_of_exec, report_under, shares_of_exec, uncounted_of, with_order};
ghost use Rattle.log_rules.specs.Ledger.{with_refusal_heard, with_report, with_report_heard};

use crate::entry::Entry;
use crate::kept_report::KeptReport;
use crate::order::Order;
use crate::order_said::OrderSaid;
use crate::orders::Orders;
use crate::report_said::ReportSaid;
use crate::reports::Reports;
use crate::says::Says;
use crate::standing::Standing;
use message_log::Direction;
use std::alloc::{AllocError, Global};
use std::marker::Model;

/// The orders that were sent, and the reports that came, in their order.
#[derive(Debug, Drop)]
pub(crate) struct Ledger {
    orders: Orders,
    reports: Reports,
}

impl Model for Ledger {
    ghost use Rattle.log_rules.specs.Ledger.{LedgerParts};

    ghost Value = { LedgerParts };

    ghost view = { λ l. record { orders = l.orders; reports = l.reports } };
}

impl Ledger {
    pub(crate) fn new(alloc: Global) -> Ledger
        ensures { result ≡ record { orders = []; reports = [] } }
    {
        Ledger {
            orders: Orders::new(alloc),
            reports: Reports::new(alloc),
        }
    }

    /// The orders, in their order.
    pub(crate) fn orders(&self) -> &[Order]
        ensures { result.now ≡ self.now.orders }
    {
        self.orders.as_slice()
    }

    /// The place of the newest order of this id.
    pub(crate) fn place_of(&self, id: &[u8]) -> Option<usize>
        ensures { result ≡ newest_order self.now.orders id.now }
    {
        self.orders.place_of(id)
    }

    /// The place of the newest order that was sent under this number.
    pub(crate) fn place_under(&self, number: u64) -> Option<usize>
        ensures { result ≡ newest_under self.now.orders number }
    {
        self.orders.place_under(number)
    }

    /// The order of this id.
    pub(crate) fn order(&self, id: &[u8]) -> Option<&Order>
        ensures { option_map (λ order. order.now) result ≡ order_of self.now.orders id.now }
    {
        self.orders.get(id)
    }

    /// The report that came under this number.
    pub(crate) fn report_under(&self, number: u64) -> Option<&KeptReport>
        ensures { option_map (λ report. report.now) result ≡ report_under number self.now.reports }
    {
        self.reports.under(number)
    }

    /// The first report of this ExecID (17).
    pub(crate) fn report_of_exec(&self, exec: &[u8]) -> Option<&KeptReport>
        ensures { option_map (λ report. report.now) result ≡ report_of_exec exec.now self.now.reports }
    {
        self.reports.of_exec(exec)
    }

    /// Whether this ExecID (17) was first that of a report under another number.
    pub(crate) fn comes_again(&self, exec: &[u8], number: u64) -> bool
        ensures { result ≡ comes_again exec.now number self.now.reports }
    {
        self.reports.comes_again(exec, number)
    }

    /// How many reports came under a number that isn't counted.
    pub(crate) fn uncounted(&self, standing: &Standing) -> usize
        ensures { result ≡ uncounted_of standing.now.counted self.now.reports }
    {
        self.reports.uncounted(standing)
    }

    /// How many shares the first report of this ExecID (17) says were traded, if it is on the order at this place.
    pub(crate) fn shares_of_exec(&self, exec: &[u8], order: Option<usize>) -> Option<u64>
        ensures { result ≡ shares_of_exec exec.now order self.now.reports }
    {
        self.reports.shares_of(exec, order)
    }

    /// Whether a report came under a number of a range.
    pub(crate) fn has_report_in(&self, from: u64, to: u64) -> bool
        ensures { result ≡ has_report_in from to self.now.reports }
    {
        self.reports.has_in(from, to)
    }

    fn push_order(&mut self, number: u64, said: &OrderSaid<'_>) -> Result<(), AllocError>
        ensures ok { OnOk result (self.new ≡ with_order number said.now self.old) }
        ensures err { OnErr result (self.new ≡ self.old) }
    {
        if self.order(said.id.as_bytes()).is_some() {
            return Ok(());
        }
        self.orders.push(number, said)
    }

    fn push_report(
        &mut self,
        seen: u64,
        number: u64,
        said: &ReportSaid<'_>,
    ) -> Result<(), AllocError>
        ensures ok { OnOk result (self.new ≡ with_report seen number said.now self.old) }
        ensures err { OnErr result (self.new ≡ self.old) }
    {
        if number <= seen && self.report_under(number).is_some() {
            return Ok(());
        }
        let order = self.place_of(said.id.as_bytes());
        self.reports.push(number, order, said)
    }

    /// A report came: its sums count once.
    fn hear_report(
        &mut self,
        standing: &Standing,
        number: u64,
        said: &ReportSaid<'_>,
    ) -> Result<(), AllocError>
        ensures ok { OnOk result (self.new ≡ with_report_heard standing.now number said.now self.old) }
        ensures err { OnErr result (self.new ≡ self.old) }
    {
        self.push_report(standing.seen, number, said)?;
        if standing.is_due(number) {
            self.orders.sum_up(said);
        }
        Ok(())
    }

    /// A refusal came, of the order that was sent under this number: it counts once.
    fn hear_refusal(&mut self, standing: &Standing, number: u64, order: u64)
        ensures { self.new ≡ with_refusal_heard standing.now number order self.old }
    {
        if standing.is_due(number) {
            self.orders.refuse(order);
        }
    }

    /// Goes on behind a message. A refused growth changes nothing.
    pub(crate) fn hear(&mut self, standing: &Standing, entry: &Entry<'_>) -> Result<(), AllocError>
        ensures ok { OnOk result (self.new ≡ changed_by standing.now entry.now self.old) }
        ensures err { OnErr result (self.new ≡ self.old) }
    {
        match (entry.direction, &entry.says) {
            (Direction::Sent, Says::Order(said)) => self.push_order(entry.number, said),
            (Direction::Received, Says::Report(said)) => {
                self.hear_report(standing, entry.number, said)
            }
            (Direction::Received, Says::Refused { number }) => {
                self.hear_refusal(standing, entry.number, *number);
                Ok(())
            }
            (Direction::Received, Says::ResendRequest { begin, .. }) if !standing.is_up => {
                self.orders.withdraw_from(standing.settled, *begin);
                Ok(())
            }
            (
                Direction::Received,
                Says::Logon {
                    next: Some(next),
                    ..
                },
            ) if standing.says_next => {
                self.orders.withdraw_from(standing.settled, *next);
                Ok(())
            }
            _ => Ok(()),
        }
    }
}
