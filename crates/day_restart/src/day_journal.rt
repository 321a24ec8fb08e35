//! The journal of a day.

ghost use Rattle.std.specs.Prelude.{◌≡◌, [], length, MatchResult, Some};
ghost use Rattle.journal_tape.specs.Told.{all_kept, no_lines};

use crate::earlier::Earlier;
use fix_tags::Stamp;
use fix_text::Frame;
use journal_folder::{FolderJournal, Found};
use journal_tape::JournalFault;
use journal_words::{Act, DeskDeed, LegAct};
use kept_link::{Teller, Telling};
use leg::PlacedLeg;
use std::alloc::Global;
use std::fs::{self, File, Files};
use std::marker::Model;
use std::sync::Arc;
use std::sync::atomic::{AtomicBool, Ordering};
use std::thread;
use std::time::{Clock, Duration};

/// How many milliseconds pass behind a line that couldn't be kept.
const REST_MILLIS: u64 = 100;

/// The journal of a desk or of a venue's worker, in files, and whether its last line couldn't be kept, as others see
/// it. Contracts see its lines: those of the lives before are kept too.
#[derive(Drop)]
pub struct DayJournal<'a, R: Files<File = File> + Clock> {
    rt: &'a R,
    /// The file whose lock is held. Where it isn't there any more the folder is gone, and its files are nowhere.
    lock: String,
    earlier: Earlier,
    teller: Teller<FolderJournal<'a, R>>,
    is_failing: Arc<AtomicBool, Global>,
}

impl<'a, R: Files<File = File> + Clock> Model for DayJournal<'a, R> {
    ghost use Rattle.journal_tape.specs.Told.{LinesTold};
    ghost use Rattle.day_restart.specs.DayJournal.{told_after};

    ghost Value = { LinesTold };

    ghost view = { λ j. told_after j.earlier.lines j.teller.journal.told.lines };
}

impl<'a, R: Files<File = File> + Clock> DayJournal<'a, R> {
    /// A journal in files, in the folder of this lock, which goes on behind the lines that were found.
    pub fn new(
        rt: &'a R,
        alloc: Global,
        lock: String,
        found: &Found,
        journal: FolderJournal<'a, R>,
        is_failing: Arc<AtomicBool, Global>,
    ) -> DayJournal<'a, R>
        requires told { journal.told.lines ≡ no_lines }
        requires behind { journal.before ≡ length found.now.lines }
        ensures { result ≡ record { kept = found.now.lines; unkept = [] } }
    {
        DayJournal {
            rt,
            lock,
            earlier: Earlier::of(found),
            teller: Teller::new(alloc, journal),
            is_failing,
        }
    }

    /// Keeps the lines, where the folder is still there.
    fn keep_there(&mut self) -> Result<(), JournalFault>
        ensures { MatchResult result (λ _. self.new ≡ all_kept self.old) (λ _. self.new ≡ self.old) }
    {
        match fs::exists(self.rt, self.lock.as_str()) {
            Ok(true) => self.teller.keep(),
            _ => Err(JournalFault::NotWritten),
        }
    }

    /// Notes whether the lines were kept. Where they weren't, it rests.
    fn note(&self, is_kept: bool) {
        if self.is_failing.load(Ordering::SeqCst) == is_kept {
            self.is_failing.store(!is_kept, Ordering::SeqCst);
        }
        if !is_kept {
            thread::sleep(self.rt, Duration::from_millis(REST_MILLIS));
        }
    }
}

impl<'a, R: Files<File = File> + Clock> Telling for DayJournal<'a, R> {
    ghost told = { λ journal. Some journal };

    fn tell_act(&mut self, stamp: &Stamp, act: Act) -> Result<(), JournalFault> {
        self.teller.tell_act(stamp, act)
    }

    fn tell_leg(
        &mut self,
        stamp: &Stamp,
        act: LegAct,
        placed: &PlacedLeg,
    ) -> Result<(), JournalFault> {
        self.teller.tell_leg(stamp, act, placed)
    }

    fn tell_heard(&mut self, stamp: &Stamp, frame: &Frame<'_>) -> Result<(), JournalFault> {
        self.teller.tell_heard(stamp, frame)
    }

    fn tell_desk(&mut self, stamp: &Stamp, deed: &DeskDeed<'_>) -> Result<(), JournalFault> {
        self.teller.tell_desk(stamp, deed)
    }

    fn keep(&mut self) -> Result<(), JournalFault> {
        let done = self.keep_there();
        self.note(done.is_ok());
        done
    }
}
