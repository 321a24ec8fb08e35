//! A journal on a tape.

ghost use Rattle.std.specs.Prelude.{◌≡◌, ◌≤◌, ◌<◌, ◌+◌, ◌-◌, ◌++◌, true, false, length, List, ℕ, Err, vec_len, vec_capacity, OnErr, OnOk};
ghost use Rattle.journal_record.specs.Record.{is_line, lines_sum, lines_text};
ghost use Rattle.journal_record.specs.declared.record.RecordFault.TheVariants.{NotALine, OutOfMemory};
ghost use Rattle.journal_tape.specs.Tape.{IsBetween, LeavesOnly, Only, text, zeros};
ghost use Rattle.journal_tape.specs.Told.{all_kept, are_lines, beside_line, no_lines, unkept_text, with_line};

use crate::commit::commit;
use crate::keeper::{Journal, JournalFault};
use crate::tape::{Tape, TapeFault};
use crate::told::Told;
use journal_record::{RecordFault, append_record};
use std::alloc::Global;

/// The lines of a journal on a tape, which no other hand writes. Whatever a crash leaves of the tape has the lines that
/// are kept, and behind them a beginning of the records of those that were told. Once a write or a sync has failed,
/// nothing more is written to it.
#[derive(Drop)]
pub struct JournalWriter<T: Tape> {
    alloc: Global,
    tape: T,
    end: usize,
    room: usize,
    sum: u32,
    batch: Vec<u8>,
    is_sound: bool,
    pub told: Told,
    pub ghost clean_kept: { are_lines told.lines.kept ≡ true },
    pub ghost clean_unkept: { are_lines told.lines.unkept ≡ true },
    pub ghost batch_is: { batch.items ≡ unkept_text told.lines },
    pub ghost sum_is: { sum ≡ lines_sum (lines_sum 0 told.lines.kept) told.lines.unkept },
    pub ghost ends: { end ≡ length (lines_text 0 told.lines.kept) },
    pub ghost within: { end ≤ room },
    pub ghost file: { is_sound ≡ true → T.seen tape ≡ lines_text 0 told.lines.kept ++ zeros (room - end) },
    pub ghost durable: { is_sound ≡ true → Only (T.seen tape) (T.may_leave tape) },
    pub ghost leaves: { (c : List ℕ) → T.may_leave tape c
        → IsBetween (lines_text 0 told.lines.kept) (unkept_text told.lines) (text c) },
}

impl<T: Tape> JournalWriter<T> {
    /// A journal of no lines, on a tape of zeros of this length, all of them on the disk.
    pub fn new(alloc: Global, tape: T, room: usize) -> JournalWriter<T>
        requires zeros { T.seen tape ≡ zeros room }
        requires durable { Only (T.seen tape) (T.may_leave tape) }
        ensures { result.told.lines ≡ no_lines }
    {
        JournalWriter {
            alloc,
            tape,
            end: 0,
            room,
            sum: 0,
            batch: Vec::new(alloc),
            is_sound: true,
            told: Told::new(),
        }
    }

    /// Tells a line, which waits to be kept. It fails only where the text is no line, or there is no room for it.
    pub fn tell_line(&mut self, line: &[u8]) -> Result<(), RecordFault>
        ensures told { OnOk result (self.new.told.lines ≡ with_line line.now self.old.told.lines) }
        ensures same { OnErr result (self.new.told.lines ≡ self.old.told.lines) }
        ensures unfit { result ≡ Err NotALine → is_line line.now ≡ false }
        ensures full { result ≡ Err OutOfMemory
            → vec_capacity self.old.batch < vec_len self.old.batch + (length line.now + beside_line) }
    {
        self.sum = append_record(&mut self.batch, self.sum, line)?;
        self.told = self.told.with(line);
        Ok(())
    }

    /// Keeps all lines that were told, by one write and one sync. At `Err` they are told still, and none can be kept on
    /// this tape.
    pub fn keep_lines(&mut self) -> Result<(), TapeFault>
        ensures kept { OnOk result (self.new.told.lines ≡ all_kept self.old.told.lines) }
        ensures same { OnErr result (self.new.told.lines ≡ self.old.told.lines) }

        // a crash at any moment of the call leaves the lines kept before, and a beginning of the others' records
        ensures any_moment { LeavesOnly T.moment T.left_since self.old.tape self.new.tape
            (λ c. IsBetween (lines_text 0 self.old.told.lines.kept) (unkept_text self.old.told.lines) (text c)) }
    {
        if !self.is_sound {
            return Err(TapeFault::Failed);
        }
        match commit(&mut self.tape, self.end, self.room, self.batch.as_slice()) {
            Ok(()) => {
                self.end += self.batch.len();
                self.batch.clear();
                self.told = self.told.all_kept();
                Ok(())
            }
            Err(fault) => {
                self.is_sound = false;
                Err(fault)
            }
        }
    }

    /// Whether a write or a sync has failed.
    pub fn is_sound(&self) -> bool
        ensures { result ≡ self.now.is_sound }
    {
        self.is_sound
    }

    /// How many bytes of the tape the lines take that are kept.
    pub fn end(&self) -> usize
        ensures { result ≡ self.now.end }
    {
        self.end
    }

    /// The tape.
    pub fn tape(&self) -> &T
        ensures { result.now ≡ self.now.tape }
    {
        &self.tape
    }
}

impl<T: Tape> Journal for JournalWriter<T> {
    ghost kept = { λ j. j.told.lines.kept };

    ghost unkept = { λ j. j.told.lines.unkept };

    fn tell(&mut self, line: &[u8]) -> Result<(), JournalFault> {
        match self.tell_line(line) {
            Ok(()) => Ok(()),
            Err(RecordFault::NotALine) => Err(JournalFault::NotALine),
            Err(RecordFault::OutOfMemory) => Err(JournalFault::OutOfMemory),
        }
    }

    fn keep(&mut self) -> Result<(), JournalFault> {
        match self.keep_lines() {
            Ok(()) => Ok(()),
            Err(_) => Err(JournalFault::NotWritten),
        }
    }

    fn is_kept(&self) -> bool {
        self.batch.as_slice().is_empty()
    }
}
