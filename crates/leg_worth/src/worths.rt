//! What was paid in each leg of a book.

ghost use Rattle.std.specs.Prelude.{◌≡◌, ℕ, List, OnOk, IfOk};
ghost use Rattle.leg.specs.LegId.{LegIdParts};
ghost use Rattle.share_ledger.specs.Book.{leg_in, new_book};
ghost use Rattle.leg_worth.specs.Worth.{capped, worth_below};
ghost use Rattle.leg_worth.specs.Kept.{AreWorths, HasRoom, worth_at, fill_at, worth_after, fill_after, if_of_venue, trade_change, bust_change, note_change, report_change};

use crate::change::{LegTrade, WorthChange};
use crate::worth::Worth;
use dialect::{ExecId, Fill, Note, Report, ReportKind};
use leg::{LegId, MAX_PLACE, VenueId};
use share_ledger::Book;
use std::alloc::{AllocError, Global};
use std::collections::HashMap;

/// A leg: the number of its sweep, and its place there.
pub(crate) type LegKey = (u64, u8);

/// What was paid in each leg of a book, kept beside it, so that nothing walks its history.
#[derive(Drop)]
pub struct Worths {
    pub(crate) legs: HashMap<LegKey, Worth>,
    pub(crate) trades: HashMap<(LegKey, ExecId), Fill>,
}

fn key_of(id: LegId) -> LegKey
    ensures { result ≡ (id.sweep, id.place) }
{
    (id.sweep(), id.place())
}

impl Worths {
    /// Of a book in which nothing is written.
    pub fn new(alloc: Global) -> Worths
        ensures { (venues : ℕ) → AreWorths (new_book venues) result }
    {
        Worths {
            legs: HashMap::new(alloc),
            trades: HashMap::new(alloc),
        }
    }

    /// What was paid in a leg.
    pub fn leg(&self, id: LegId) -> Worth
        ensures { result ≡ worth_at self.now id }
    {
        self.at(key_of(id))
    }

    /// What was paid in the legs of a sweep, up to the greatest numbers of the types.
    pub fn sweep(&self, number: u64) -> Worth
        ensures { result ≡ capped (worth_below (worth_at self.now) number 32) }
    {
        let mut sum = Worth {
            value: 0,
            unpriced: 0,
        };
        for before in 0..MAX_PLACE {
            sum = sum.and(self.at((number, before + 1)));
        }
        sum
    }

    /// What was paid in the leg of this key.
    fn at(&self, key: LegKey) -> Worth
        ensures { result ≡ worth_at self.now (record { sweep = key.0; place = key.1 }) }
    {
        match self.legs.get(&key) {
            Some(worth) => *worth,
            None => Worth {
                value: 0,
                unpriced: 0,
            },
        }
    }

    /// The trade that is kept of a leg under this id.
    fn trade(&self, id: LegId, exec: &ExecId) -> Option<Fill>
        ensures { result ≡ fill_at self.now id exec.now }
    {
        let key = (key_of(id), exec.clone().unwrap());
        match self.trades.get(&key) {
            Some(fill) => Some(fill.clone().unwrap()),
            None => None,
        }
    }

    /// What a note of a venue changes, if it changes anything, should the book take it. It makes room for that. The
    /// only refusal is out of memory, and nothing is changed.
    pub fn change_by(
        &mut self,
        book: &Book,
        venue: VenueId,
        note: &Note,
    ) -> Result<Option<WorthChange>, AllocError>
        requires { AreWorths book.now self.old }
        ensures legs { (id : LegIdParts) → worth_at self.new id ≡ worth_at self.old id }
        ensures trades { (id : LegIdParts) (exec : List ℕ) → fill_at self.new id exec ≡ fill_at self.old id exec }
        ensures room { OnOk result (HasRoom self.new) }
        ensures change { IfOk result (λ change.
            change ≡ note_change book.now (worth_at self.new) (fill_at self.new) venue note.now) }
    {
        self.make_room()?;
        match note {
            Note::Report(report) => Ok(self.change_of(book, venue, report)),
            Note::Refused(_) => Ok(None),
            Note::Unread(_) => Ok(None),
        }
    }

    /// Makes room for a leg and a trade more.
    fn make_room(&mut self) -> Result<(), AllocError>
        ensures legs { (id : LegIdParts) → worth_at self.new id ≡ worth_at self.old id }
        ensures trades { (id : LegIdParts) (exec : List ℕ) → fill_at self.new id exec ≡ fill_at self.old id exec }
        ensures room { OnOk result (HasRoom self.new) }
    {
        self.legs.reserve(1)?;
        self.trades.reserve(1)
    }

    /// What a report changes.
    fn change_of(&self, book: &Book, venue: VenueId, report: &Report) -> Option<WorthChange>
        requires { AreWorths book.now self.now }
        ensures { result ≡ report_change book.now (worth_at self.now) (fill_at self.now) venue report.now.id
            report.now.exec report.now.kind }
    {
        match &report.kind {
            ReportKind::Trade(fill) => self.trade_change(book, venue, report, fill),
            ReportKind::Bust { cancelled_id } => self.bust_change(report.id, cancelled_id),
            ReportKind::New => None,
            ReportKind::Canceled => None,
            ReportKind::Rejected => None,
            ReportKind::Expired => None,
        }
    }

    /// What a trade changes, if its leg is in the book, and of the venue.
    fn trade_change(
        &self,
        book: &Book,
        venue: VenueId,
        report: &Report,
        fill: &Fill,
    ) -> Option<WorthChange>
        requires { AreWorths book.now self.now }
        ensures { result ≡ if_of_venue venue (trade_change report.now.id report.now.exec fill.now
            (worth_at self.now report.now.id)) (leg_in book.now report.now.id) }
    {
        let leg = book.leg(report.id)?;
        if leg.venue != venue {
            return None;
        }
        Some(WorthChange {
            leg: report.id,
            now: self.leg(report.id).with(fill),
            trade: Some(LegTrade {
                exec: report.exec.clone().unwrap(),
                fill: fill.clone().unwrap(),
            }),
        })
    }

    /// What the bust of a trade changes, if the trade is kept.
    fn bust_change(&self, id: LegId, exec: &ExecId) -> Option<WorthChange>
        ensures { result ≡ bust_change id (worth_at self.now id) (fill_at self.now id exec.now) }
    {
        let fill = self.trade(id, exec)?;
        Some(WorthChange {
            leg: id,
            now: self.leg(id).without(&fill),
            trade: None,
        })
    }

    /// Makes a change, for which there is room.
    pub fn settle(&mut self, change: Option<WorthChange>)
        requires { HasRoom self.old }
        ensures legs { (id : LegIdParts) → worth_at self.new id ≡ worth_after change (worth_at self.old) id }
        ensures trades { (id : LegIdParts) (exec : List ℕ)
            → fill_at self.new id exec ≡ fill_after change (fill_at self.old) id exec }
    {
        let Some(change) = change else {
            return;
        };
        let WorthChange { leg, now, trade } = change;
        let _ = self.legs.insert(key_of(leg), now);
        if let Some(trade) = trade {
            let LegTrade { exec, fill } = trade;
            let _ = self.trades.insert((key_of(leg), exec), fill);
        }
    }
}
