//! What a worker and the desk tell of their deeds.

ghost use Rattle.std.specs.Prelude.{◌≡◌, MatchResult};
ghost use Rattle.fix_text.specs.FrameFields.{fields_in};
ghost use Rattle.fix_text.specs.Text.{fields_text};
ghost use Rattle.journal_words.specs.Deed.{timed};
ghost use Rattle.journal_words.specs.Deed.DeedSaid.{Acts, Hears, OfLeg};
ghost use Rattle.journal_words.specs.Desk.{desk_deed_in, desk_text};
ghost use Rattle.journal_words.specs.Words.{deed_line};
ghost use Rattle.kept_link.specs.Telling.{IsAllKept, KeepsAll, TellsLine};

use fix_tags::Stamp;
use fix_text::Frame;
use journal_tape::JournalFault;
use journal_words::{Act, DeskDeed, LegAct};
use leg::PlacedLeg;

/// Who is told the deeds of a worker or of the desk, each as its line, and keeps them for a later life. For contracts
/// it may say which lines it was told, and which of them are kept; one that doesn't claims nothing.
pub trait Telling: Drop {
    ghost use Rattle.std.specs.Prelude.{Option};
    ghost use Rattle.journal_tape.specs.Told.{LinesTold};

    // the lines that were told
    ghost told: { Self → Option LinesTold };

    /// Tells that the session was called at this time.
    fn tell_act(&mut self, stamp: &Stamp, act: Act) -> Result<(), JournalFault>
        ensures { MatchResult result
            (λ _. TellsLine (deed_line (timed stamp.now (Acts act))) (told self.old) (told self.new))
            (λ _. told self.new ≡ told self.old) };

    /// Tells what became of a leg that was taken.
    fn tell_leg(
        &mut self,
        stamp: &Stamp,
        act: LegAct,
        placed: &PlacedLeg,
    ) -> Result<(), JournalFault>
        ensures { MatchResult result
            (λ _. TellsLine (deed_line (timed stamp.now (OfLeg act placed.now))) (told self.old) (told self.new))
            (λ _. told self.new ≡ told self.old) };

    /// Tells that a message came.
    fn tell_heard(&mut self, stamp: &Stamp, frame: &Frame<'_>) -> Result<(), JournalFault>
        ensures { MatchResult result
            (λ _. TellsLine (deed_line (timed stamp.now (Hears (fields_text (fields_in frame.now)))))
            (told self.old) (told self.new))
            (λ _. told self.new ≡ told self.old) };

    /// Tells what was done at the desk.
    fn tell_desk(&mut self, stamp: &Stamp, deed: &DeskDeed<'_>) -> Result<(), JournalFault>
        ensures { MatchResult result
            (λ _. TellsLine (desk_text stamp.now (desk_deed_in deed.now)) (told self.old) (told self.new))
            (λ _. told self.new ≡ told self.old) };

    /// Keeps all that was told. At `Err` nothing changed, and a later call may keep it.
    fn keep(&mut self) -> Result<(), JournalFault>
        ensures { MatchResult result
            (λ _. KeepsAll (told self.old) (told self.new) × IsAllKept (told self.new))
            (λ _. told self.new ≡ told self.old) };
}
