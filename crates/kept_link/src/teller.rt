//! What is told goes to a journal.

ghost use Rattle.std.specs.Prelude.{◌≡◌, ◌++◌, IfOk, OnOk, Some};
ghost use Rattle.fix_text.specs.FrameFields.{fields_in};
ghost use Rattle.fix_text.specs.Text.{field_text, fields_text};

use crate::telling::Telling;
use fix_tags::{Stamp, write_number};
use fix_text::{FieldRef, Frame};
use journal_tape::{Journal, JournalFault};
use journal_words::{Act, DeskDeed, LegAct, act_line, desk_line, heard_line, leg_line};
use leg::PlacedLeg;
use std::alloc::{AllocError, Global};

/// Each deed is told to a journal, as its line.
#[derive(Drop)]
pub struct Teller<J: Journal> {
    alloc: Global,
    journal: J,
}

/// Appends `tag=value` and SOH.
fn append_field(text: &mut Vec<u8>, field: &FieldRef<'_>) -> Result<(), AllocError>
    ensures { OnOk result (text.new.items ≡ text.old.items ++ field_text field.now) }
{
    if write_number(u64::from(field.tag()), text).is_err() {
        return Err(AllocError);
    }
    text.push(b'=')?;
    text.extend_from_slice(field.value())?;
    text.push(1)?;
    Ok(())
}

/// The fields of a frame, in bytes.
pub fn fields_text(alloc: Global, frame: &Frame<'_>) -> Result<Vec<u8>, AllocError>
    ensures { IfOk result (λ text. text.items ≡ fields_text (fields_in frame.now)) }
{
    let mut text = Vec::new(alloc);
    for index in 0..frame.len() {
        append_field(&mut text, &frame.field(index))?;
    }
    Ok(text)
}

impl<J: Journal> Teller<J> {
    /// Whatever is told goes to this journal.
    pub fn new(alloc: Global, journal: J) -> Teller<J>
        ensures { result.journal ≡ journal }
    {
        Teller { alloc, journal }
    }

    /// The journal.
    pub fn into_journal(self) -> J
        ensures { result ≡ self.journal }
    {
        let Teller { alloc: _, journal } = self;
        journal
    }
}

impl<J: Journal> Telling for Teller<J> {
    ghost told = { λ t. Some (record { kept = J.kept t.journal; unkept = J.unkept t.journal }) };

    fn tell_act(&mut self, stamp: &Stamp, act: Act) -> Result<(), JournalFault> {
        let Ok(line) = act_line(self.alloc, stamp, act) else {
            return Err(JournalFault::OutOfMemory);
        };
        self.journal.tell(line.as_slice())
    }

    fn tell_leg(
        &mut self,
        stamp: &Stamp,
        act: LegAct,
        placed: &PlacedLeg,
    ) -> Result<(), JournalFault> {
        let Ok(line) = leg_line(self.alloc, stamp, act, placed) else {
            return Err(JournalFault::OutOfMemory);
        };
        self.journal.tell(line.as_slice())
    }

    fn tell_heard(&mut self, stamp: &Stamp, frame: &Frame<'_>) -> Result<(), JournalFault> {
        let Ok(text) = fields_text(self.alloc, frame) else {
            return Err(JournalFault::OutOfMemory);
        };
        let Ok(line) = heard_line(self.alloc, stamp, text.as_slice()) else {
            return Err(JournalFault::OutOfMemory);
        };
        self.journal.tell(line.as_slice())
    }

    fn tell_desk(&mut self, stamp: &Stamp, deed: &DeskDeed<'_>) -> Result<(), JournalFault> {
        let Ok(line) = desk_line(self.alloc, stamp, deed) else {
            return Err(JournalFault::OutOfMemory);
        };
        self.journal.tell(line.as_slice())
    }

    fn keep(&mut self) -> Result<(), JournalFault> {
        if self.journal.is_kept() {
            return Ok(());
        }
        self.journal.keep()
    }
}
