//! A day without a journal.

ghost use Rattle.std.specs.Prelude.{None};

use crate::telling::Telling;
use fix_tags::Stamp;
use fix_text::Frame;
use journal_tape::JournalFault;
use journal_words::{Act, DeskDeed, LegAct};
use leg::PlacedLeg;

/// Nobody is told, and nothing is kept: a day without a journal.
#[derive(Clone, Copy, Debug, Drop)]
pub struct Untold;

impl Telling for Untold {
    ghost told = { λ _. None };

    fn tell_act(&mut self, _stamp: &Stamp, _act: Act) -> Result<(), JournalFault> {
        Ok(())
    }

    fn tell_leg(
        &mut self,
        _stamp: &Stamp,
        _act: LegAct,
        _placed: &PlacedLeg,
    ) -> Result<(), JournalFault> {
        Ok(())
    }

    fn tell_heard(&mut self, _stamp: &Stamp, _frame: &Frame<'_>) -> Result<(), JournalFault> {
        Ok(())
    }

    fn tell_desk(&mut self, _stamp: &Stamp, _deed: &DeskDeed<'_>) -> Result<(), JournalFault> {
        Ok(())
    }

    fn keep(&mut self) -> Result<(), JournalFault> {
        Ok(())
    }
}
