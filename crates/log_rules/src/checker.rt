//! A log is gone through, message by message.

ghost use Rattle.std.specs.Prelude.{◌≡◌, ◌∷◌, [], IfOk, OnOk, OnErr};
ghost use Rattle.log_rules.specs.Ledger.{comes_again, newest_order, newest_under, shares_of_exec, uncounted_of};
ghost use Rattle.log_rules.specs.Checker.{heard, heard_unread, new_checker, number_of_report, unread_verdicts};
ghost use Rattle.log_rules.specs.Checker.{verdicts};

use crate::chains::{Chains, order_named};
use crate::entry::Entry;
use crate::exchange_rules::{
    fence_answered, logon_answered, logout_last, numbers_rise, resend_answered, resend_asked,
};
use crate::ledger::Ledger;
use crate::ledger_rules::{known_order, not_withdrawn, one_use, sent_once, sums_add_up};
use crate::order::Order;
use crate::report_rules::{exec_once, known_kind, limit_kept, open_order, same_terms, status_fits};
use crate::says::Says;
use crate::session_rules::{gap_fills, heartbeats, logon_first, sent_numbers};
use crate::standing::Standing;
use crate::verdict::Verdict;
use message_log::Direction;
use std::alloc::{AllocError, Global};
use std::marker::Model;

/// What is known of a log behind the messages that were heard. It keeps each order with its sums, and of each report
/// its number, its ExecID (17) and the shares that it traded.
#[derive(Debug, Drop)]
pub struct Checker {
    alloc: Global,
    standing: Standing,
    ledger: Ledger,
    chains: Chains,
}

impl Model for Checker {
    ghost use Rattle.log_rules.specs.Checker.{CheckerParts};

    ghost Value = { CheckerParts };

    ghost view = { λ c. record { standing = c.standing; ledger = c.ledger; chains = c.chains } };
}

impl Checker {
    /// Before any message.
    pub fn new(alloc: Global) -> Checker
        ensures { result ≡ new_checker }
    {
        Checker {
            alloc,
            standing: Standing::new(),
            ledger: Ledger::new(alloc),
            chains: Chains::new(alloc),
        }
    }

    /// What a message says of each rule, in the order of `RULES`.
    fn verdicts(&self, entry: &Entry<'_>) -> [Verdict; 22]
        ensures { result ≡ verdicts self.now entry.now }
    {
        let standing = &self.standing;
        let ledger = &self.ledger;
        let chains = &self.chains;
        [
            Verdict::Held,
            chains.of_sent(standing, entry, sent_numbers(standing, entry)),
            sent_once(ledger, entry),
            gap_fills(standing, entry),
            chains.of_first(logon_first(standing, entry)),
            heartbeats(standing, entry),
            chains.of_answered(entry, logon_answered(standing, entry)),
            logout_last(standing, entry),
            resend_asked(standing, entry),
            fence_answered(standing, entry),
            one_use(standing, ledger, entry),
            chains.of_known(entry, known_order(ledger, entry)),
            chains.of_withdrawn(entry, not_withdrawn(ledger, entry)),
            sums_add_up(standing, ledger, entry),
            chains.of_numbers(numbers_rise(standing, entry)),
            resend_answered(standing, entry),
            exec_once(standing, ledger, entry),
            known_kind(entry),
            open_order(standing, ledger, entry),
            limit_kept(standing, ledger, entry),
            same_terms(standing, ledger, entry),
            status_fits(entry),
        ]
    }

    /// The number under which the order was sent that a report is on.
    fn number_of_report(&self, entry: &Entry<'_>) -> Option<u64>
        ensures { result ≡ number_of_report self.now.ledger entry.now.says }
    {
        match &entry.says {
            Says::Report(said) => Some(self.ledger.order(said.id.as_bytes())?.number()),
            _ => None,
        }
    }

    /// What a message that can't be read says of each rule: nothing, but that it can't be read.
    pub fn unread() -> [Verdict; 22]
        ensures { result ≡ unread_verdicts }
    {
        let mut verdicts = [Verdict::Unasked; 22];
        verdicts[0] = Verdict::Broken;
        verdicts
    }

    /// What a message that can't be read says of each rule, which went this way and has these bytes. Where memory is
    /// refused, nothing changes.
    pub fn hear_unread(
        &mut self,
        direction: Direction,
        bytes: &[u8],
    ) -> Result<[Verdict; 22], AllocError>
        ensures verdicts { IfOk result (λ said. said ≡ unread_verdicts) }
        ensures ok { OnOk result (self.new ≡ heard_unread direction bytes.now self.old) }
        ensures err { OnErr result (self.new ≡ self.old) }
    {
        self.chains.go_on_unread(self.alloc, direction, bytes)?;
        Ok(Checker::unread())
    }

    /// How the two ends stand.
    pub fn standing(&self) -> &Standing
        ensures { result.now ≡ self.now.standing }
    {
        &self.standing
    }

    /// The orders that were sent, in their order.
    pub fn orders(&self) -> &[Order]
        ensures { result.now ≡ self.now.ledger.orders }
    {
        self.ledger.orders()
    }

    /// The place of the newest order of this ClOrdID (11).
    pub fn place_of(&self, id: &[u8]) -> Option<usize>
        ensures { result ≡ newest_order self.now.ledger.orders id.now }
    {
        self.ledger.place_of(id)
    }

    /// The place of the newest order that was sent under this number.
    pub fn place_under(&self, number: u64) -> Option<usize>
        ensures { result ≡ newest_under self.now.ledger.orders number }
    {
        self.ledger.place_under(number)
    }

    /// Whether this ExecID (17) was first that of a report under another number than this one.
    pub fn comes_again(&self, exec: &[u8], number: u64) -> bool
        ensures { result ≡ comes_again exec.now number self.now.ledger.reports }
    {
        self.ledger.comes_again(exec, number)
    }

    /// How many reports came under a number that isn't counted, as those behind one that is missing.
    pub fn uncounted(&self) -> usize
        ensures { result ≡ uncounted_of self.now.standing.counted self.now.ledger.reports }
    {
        self.ledger.uncounted(&self.standing)
    }

    /// How many shares the first report of this ExecID (17) says were traded, if it is on the order at this place.
    pub fn shares_of_exec(&self, exec: &[u8], order: Option<usize>) -> Option<u64>
        ensures { result ≡ shares_of_exec exec.now order self.now.ledger.reports }
    {
        self.ledger.shares_of_exec(exec, order)
    }

    /// What the next message says of each rule, in the order of `RULES`. Where memory is refused, nothing changes.
    pub fn hear(&mut self, entry: &Entry<'_>) -> Result<[Verdict; 22], AllocError>
        ensures verdicts { IfOk result (λ said. said ≡ verdicts self.old entry.now) }
        ensures ok { OnOk result (self.new ≡ heard self.old entry.now) }
        ensures err { OnErr result (self.new ≡ self.old) }
    {
        let verdicts = self.verdicts(entry);
        let number = self.number_of_report(entry);
        let order = order_named(self.alloc, &verdicts, entry)?;
        self.ledger.hear(&self.standing, entry)?;
        self.standing = self.standing.after(number, entry);
        self.chains.go_on(entry, &verdicts, order);
        Ok(verdicts)
    }
}
