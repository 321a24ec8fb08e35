//! What a crash leaves is read: the law is the contract of a function that does nothing.

ghost use Rattle.std.specs.Prelude.{ℕ, List};
ghost use Rattle.journal_record.specs.declared.judging.TextEnd.{TextEnd};
ghost use Rattle.journal_record.specs.Record.{lines_sum, lines_text};
ghost use Rattle.journal_record.specs.Reading.{HasLines};
ghost use Rattle.journal_record.specs.Laws.{AreLines, ReadsKept};
ghost use Rattle.journal_tape.specs.Tape.{IsBetween, text};

/// Lines were kept and others told, and a crash left a beginning of the records of these behind the records of those:
/// what is read of it are the lines kept, and the first ones told, each whole, and none is damaged.
pub fn what_a_crash_leaves_is_read()
    ensures { (kept unkept lines : List (List ℕ)) (left : List ℕ) (end : TextEnd) → AreLines kept → AreLines unkept
        → IsBetween (lines_text 0 kept) (lines_text (lines_sum 0 kept) unkept) (text left)
        → HasLines 0 (text left) lines end → ReadsKept kept unkept lines end }
{}
