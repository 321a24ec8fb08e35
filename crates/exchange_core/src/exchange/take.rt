//! What an exchange does with the messages it gets.

ghost use Rattle.std.specs.Prelude.{◌≡◌, ◌<◌, List, OnOk, OnErr, All, length};
ghost use Rattle.fix_tags.specs.Range.{range_end, is_range};
ghost use Rattle.dialect.specs.Message.{decoded};
ghost use Rattle.dialect.specs.Writable.{IsWritable};
ghost use Rattle.exchange_core.specs.Exchange.{order_taken, take};
ghost use Rattle.exchange_core.specs.Frames.{TakeGives, Writes};
ghost use Rattle.exchange_core.specs.Keeping.{IsAnswer};
ghost use Rattle.exchange_core.specs.Sound.{IsSound};
ghost use Rattle.exchange_core.specs.Turn.{turn_answer, turn_written, turn_own, used_own, used_for, asked_answer, action_answer};
ghost use Rattle.exchange_core.specs.declared.sent_record.SentRecord.{SentRecord as OwnUse};

use super::Exchange;
use crate::ExchangeFault;
use crate::numbered_id::id_of_report;
use crate::order::Order;
use crate::resend::resend;
use crate::sent_record::SentRecord;
use crate::to_peer::{report_to_peer, to_peer};
use crate::turn::{Action, Asked, Says, Turn, Used};
use crate::write::write;
use dialect::{Content, Dialect, Report, ReportKind, decode};
use fix_tags::{EnvelopeRef, SessionBody, Stamp};
use leg::Leg;
use std::alloc::{AllocError, Global};

impl Exchange {
    /// A message comes in a connection. It gives the frames of what is written, in order. The only refusal is out of
    /// memory, X04, and only where something is written: the message is then to be handed in again.
    #[tactic(auto, using(crate::proofs::Taking::take_allowed))]
    pub fn take<D: Dialect>(
        &mut self,
        alloc: Global,
        dialect: &D,
        connection: u64,
        envelope: &EnvelopeRef<'_>,
        stamp: &Stamp,
    ) -> Result<Vec<Vec<u8>>, ExchangeFault>
        ensures gives { TakeGives (D.wording dialect.now).encoding stamp.now self.old
            (take self.old connection (decoded (D.wording dialect.now).decoding envelope.now)) result self.new }
        ensures memory { OnErr result
            (0 < length (take self.old connection (decoded (D.wording dialect.now).decoding envelope.now)).0) }
        ensures allowed { IsAnswer self.old connection (decoded (D.wording dialect.now).decoding envelope.now)
            (take self.old connection (decoded (D.wording dialect.now).decoding envelope.now)) }
    {
        let message = decode(dialect, envelope);
        let decision = self.decide(connection, message);
        let mut frames = Vec::new(alloc);
        self.send_again(alloc, dialect, decision.asked, stamp, &mut frames)?;
        self.carry_out(alloc, dialect, decision.action, stamp, &mut frames)?;
        Ok(frames)
    }

    /// Sends again what was asked for.
    #[tactic(auto, using(crate::proofs::Writing::writes_none))]
    fn send_again<D: Dialect>(
        &self,
        alloc: Global,
        dialect: &D,
        asked: Option<Asked>,
        stamp: &Stamp,
        frames: &mut Vec<Vec<u8>>,
    ) -> Result<(), AllocError>
        requires { All IsWritable (asked_answer self.now asked) }
        ensures written { OnOk result (Writes (D.wording dialect.now).encoding stamp.now (asked_answer self.now asked)
            frames.old.items frames.new.items) }
        ensures some { OnErr result (0 < length (asked_answer self.now asked)) }
    {
        let Some(asked) = asked else {
            return Ok(());
        };
        let count = self.own.len() as u64;
        if !asks_for_some(count, asked) {
            return Ok(());
        }
        let end = last_asked(count, asked.last);
        let own = &self.own.as_slice()[..end as usize];
        let own = &own[asked.begin as usize - 1..];
        resend(
            alloc,
            dialect,
            &self.config,
            asked.begin,
            own,
            stamp,
            frames,
        )
    }

    /// Carries out what was decided.
    #[tactic(auto, using(crate::proofs::Writing::writes_none))]
    fn carry_out<D: Dialect>(
        &mut self,
        alloc: Global,
        dialect: &D,
        action: Action<'_>,
        stamp: &Stamp,
        frames: &mut Vec<Vec<u8>>,
    ) -> Result<(), AllocError>
        requires writable { All IsWritable (action_answer self.old action).0 }
        requires sound { IsSound (action_answer self.old action).1 }
        ensures written { OnOk result (Writes (D.wording dialect.now).encoding stamp.now
            (action_answer self.old action.entry).0 frames.old.items frames.new.items) }
        ensures ok { OnOk result (self.new ≡ (action_answer self.old action.entry).1) }
        ensures err { OnErr result (self.new ≡ self.old) }
        ensures some { OnErr result (0 < length (action_answer self.old action.entry).0) }
    {
        match action {
            Action::Nothing => Ok(()),
            Action::Accept(leg) => self.accept(alloc, dialect, leg, stamp, frames),
            Action::Turn(turn) => self.turn(alloc, dialect, turn, stamp, frames),
        }
    }

    /// Accepts the order of a leg, and reports it as new.
    fn accept<D: Dialect>(
        &mut self,
        alloc: Global,
        dialect: &D,
        leg: Leg,
        stamp: &Stamp,
        frames: &mut Vec<Vec<u8>>,
    ) -> Result<(), AllocError>
        requires writable { All IsWritable (order_taken self.old leg).0 }
        requires sound { IsSound (order_taken self.old leg).1 }
        ensures written { OnOk result (Writes (D.wording dialect.now).encoding stamp.now
            (order_taken self.old leg).0 frames.old.items frames.new.items) }
        ensures ok { OnOk result (self.new ≡ (order_taken self.old leg).1) }
        ensures err { OnErr result (self.new ≡ self.old) }
    {
        let report = Report {
            id: leg.id,
            exec: id_of_report(self.next_count()),
            kind: ReportKind::New,
        };
        let order = Order::new(alloc, leg);
        let view = order.view(self.orders.len() as u64 + 1);
        let number = self.own.len() as u64 + 1;
        let outgoing = report_to_peer(&self.config, number, false, &report, &view);
        write(alloc, dialect, stamp, &outgoing, frames)?;
        self.orders.reserve(1)?;
        self.accepted.reserve(1)?;
        self.own.reserve(1)?;
        self.reports.reserve(1)?;
        self.expected += 1;
        self.accepted.push_reserved(order.leg());
        self.orders.push_reserved(order);
        self.reports.push_reserved(report.clone().unwrap());
        self.own
            .push_reserved(SentRecord::Reported { report, view });
        Ok(())
    }

    /// Writes what a turn says, and stands as it says.
    fn turn<D: Dialect>(
        &mut self,
        alloc: Global,
        dialect: &D,
        turn: Turn<'_>,
        stamp: &Stamp,
        frames: &mut Vec<Vec<u8>>,
    ) -> Result<(), AllocError>
        requires writable { All IsWritable (turn_answer self.old turn).0 }
        requires sound { IsSound (turn_answer self.old turn).1 }
        ensures written { OnOk result (Writes (D.wording dialect.now).encoding stamp.now
            (turn_answer self.old turn.entry).0 frames.old.items frames.new.items) }
        ensures ok { OnOk result (self.new ≡ (turn_answer self.old turn.entry).1) }
        ensures err { OnErr result (self.new ≡ self.old) }
        ensures some { OnErr result (0 < length (turn_answer self.old turn.entry).0) }
    {
        let Turn {
            expected,
            live,
            last,
            closed_at,
            says,
        } = turn;
        let used = used_by(&says);
        self.say(alloc, dialect, expected, says, stamp, frames)?;
        use_numbers(&mut self.own, used)?;
        self.expected = expected;
        self.live = live;
        self.last = last;
        self.closed_at = closed_at;
        Ok(())
    }

    /// Writes what is said, where this number is expected afterwards.
    #[tactic(auto, using(crate::proofs::Writing::writes_none, crate::proofs::Writing::writes_both, crate::proofs::Writing::writable_first, crate::proofs::Writing::writable_second))]
    fn say<'a, D: Dialect>(
        &'a self,
        alloc: Global,
        dialect: &D,
        expected: u64,
        says: Says<'a>,
        stamp: &Stamp,
        frames: &mut Vec<Vec<u8>>,
    ) -> Result<(), AllocError>
        requires { All IsWritable (turn_written self.now expected says) }
        ensures written { OnOk result (Writes (D.wording dialect.now).encoding stamp.now
            (turn_written self.now expected says.entry) frames.old.items frames.new.items) }
        ensures some { OnErr result (0 < length (turn_written self.now expected says.entry)) }
    {
        let number = self.own.len() as u64 + 1;
        match says {
            Says::Nothing => Ok(()),
            Says::One(content) => {
                let outgoing = to_peer(&self.config, number, false, content);
                write(alloc, dialect, stamp, &outgoing, frames)
            }
            Says::OneAndRequest(content) => {
                let outgoing = to_peer(&self.config, number, false, content);
                write(alloc, dialect, stamp, &outgoing, frames)?;
                let request = Content::Session(SessionBody::ResendRequest {
                    begin: expected,
                    last: 0,
                });
                let outgoing = to_peer(&self.config, number + 1, false, request);
                write(alloc, dialect, stamp, &outgoing, frames)
            }
        }
    }
}

/// What the own numbers of what is said are used for.
fn used_by(says: &Says<'_>) -> Used
    ensures { (own : List OwnUse) → used_own own result ≡ turn_own own says.now }
{
    match says {
        Says::Nothing => Used::Nothing,
        Says::One(content) => Used::One(use_of(content)),
        Says::OneAndRequest(_) => Used::Two,
    }
}

/// What an own number is used for, by what is said under it.
#[tactic(auto, using(crate::proofs::Deciding::used_admin))]
fn use_of(content: &Content<'_>) -> SentRecord
    ensures { result ≡ used_for content.now }
{
    match content {
        Content::Session(SessionBody::Reject { number }) => SentRecord::Refused { number: *number },
        _ => SentRecord::Admin,
    }
}

/// Uses the next own numbers. Out of memory, which is answered only where there are some, leaves them as they were.
fn use_numbers(own: &mut Vec<SentRecord>, used: Used) -> Result<(), AllocError>
    ensures ok { OnOk result (own.new.items ≡ used_own own.old.items used) }
    ensures err { OnErr result (own.new.items ≡ own.old.items) }
    ensures some { OnErr result (length own.old.items < length (used_own own.old.items used)) }
{
    match used {
        Used::Nothing => {}
        Used::One(entry) => own.push(entry)?,
        Used::Two => {
            own.reserve(2)?;
            own.push_reserved(SentRecord::Admin);
            own.push_reserved(SentRecord::Admin);
        }
    }
    Ok(())
}

/// Whether these are numbers of so many that were used.
fn asks_for_some(count: u64, asked: Asked) -> bool
    ensures { result ≡ is_range count asked.begin asked.last }
{
    (asked.begin >= 1 && asked.begin <= count) && (asked.last == 0 || asked.begin <= asked.last)
}

/// The last of so many numbers that is asked for: 0 stands for all of them.
fn last_asked(count: u64, last: u64) -> u64
    ensures { result ≡ range_end count last }
{
    if last == 0 { count } else { count.min(last) }
}
