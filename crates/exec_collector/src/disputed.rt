//! The shares of trades that the book didn't take.

ghost use Rattle.std.specs.Prelude.{◌≡◌, ◌<◌, [], OnOk, if◌then◌else◌};
ghost use Rattle.std.specs.HashMap as table;
ghost use Rattle.leg.specs.LegId.{LegIdParts};
ghost use Rattle.share_ledger.specs.Entries.{is_same_leg};
ghost use Rattle.exec_collector.specs.Day.{AreDisputed, added, disputed_at, disputed_below, disputed_by, is_disputed, shares_of_kind};

use dialect::{Note, ReportKind};
use leg::{LegId, MAX_PLACE};
use share_ledger::Applied;
use std::alloc::{AllocError, Global};
use std::collections::HashMap;

/// The shares of the trades that the book didn't take, of each leg that has some.
#[derive(Drop)]
pub(crate) struct Disputed {
    pub(crate) legs: HashMap<(u64, u8), u64>,
}

/// Whether a trade that was answered so is disputed.
fn is_disputed(answer: Applied) -> bool
    ensures { result ≡ is_disputed answer }
{
    match answer {
        Applied::Moved => false,
        Applied::Duplicate => false,
        Applied::Overfill => true,
        Applied::Stray => true,
    }
}

/// The shares of a trade.
fn shares_of_kind(kind: &ReportKind) -> u64
    ensures { result ≡ shares_of_kind kind.now }
{
    match kind {
        ReportKind::New => 0,
        ReportKind::Trade(fill) => fill.shares(),
        ReportKind::Canceled => 0,
        ReportKind::Rejected => 0,
        ReportKind::Expired => 0,
        ReportKind::Bust { cancelled_id: _ } => 0,
    }
}

impl Disputed {
    /// None are.
    pub(crate) fn new(alloc: Global) -> Disputed
        ensures { AreDisputed [] result }
    {
        Disputed {
            legs: HashMap::new(alloc),
        }
    }

    /// Those of a leg, up to the greatest number of the type.
    pub(crate) fn shares(&self, id: LegId) -> u64
        ensures { result ≡ disputed_at self.now id }
    {
        self.at((id.sweep(), id.place()))
    }

    /// Those of the legs of a sweep, up to the greatest number of the type.
    pub(crate) fn sweep(&self, number: u64) -> u64
        ensures { result ≡ disputed_below (disputed_at self.now) number 32 }
    {
        let mut sum: u64 = 0;
        for before in 0..MAX_PLACE {
            sum = sum.saturating_add(self.at((number, before + 1)));
        }
        sum
    }

    /// Those of the leg of this key.
    fn at(&self, key: (u64, u8)) -> u64
        ensures { result ≡ disputed_at self.now (record { sweep = key.0; place = key.1 }) }
    {
        match self.legs.get(&key) {
            Some(shares) => *shares,
            None => 0,
        }
    }

    /// Makes room for one leg more.
    pub(crate) fn reserve(&mut self) -> Result<(), AllocError>
        ensures same { (id : LegIdParts) → disputed_at self.new id ≡ disputed_at self.old id }
        ensures room { OnOk result (0 < table.spare self.new.legs) }
    {
        self.legs.reserve(1)
    }

    /// A note was answered so: if it is a trade that the book didn't take, its leg has its shares more. There is room.
    pub(crate) fn hear(&mut self, note: &Note, answer: Applied)
        requires { 0 < table.spare self.old.legs }
        ensures { (id : LegIdParts)
            → disputed_at self.new id ≡ added (disputed_at self.old id) (disputed_by id note.now answer) }
    {
        if !is_disputed(answer) {
            return;
        }
        match note {
            Note::Report(report) => self.add(report.id, shares_of_kind(&report.kind)),
            Note::Refused(_) => {}
            Note::Unread(_) => {}
        }
    }

    /// A leg has so many shares more. There is room.
    fn add(&mut self, leg: LegId, more: u64)
        requires { 0 < table.spare self.old.legs }
        ensures { (id : LegIdParts) → disputed_at self.new id
            ≡ added (disputed_at self.old id) (if is_same_leg leg id then more else 0) }
    {
        if more == 0 {
            return;
        }
        let shares = self.shares(leg).saturating_add(more);
        let _ = self.legs.insert((leg.sweep(), leg.place()), shares);
    }
}
