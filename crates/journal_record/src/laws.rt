//! What was kept is read: the law is the contract of a function that does nothing.

ghost use Rattle.std.specs.Prelude.{◌≡◌, ◌++◌, ℕ, List};
ghost use Rattle.journal_record.specs.declared.judging.TextEnd.{TextEnd};
ghost use Rattle.journal_record.specs.Record.{lines_sum, lines_text};
ghost use Rattle.journal_record.specs.Reading.{HasLines};
ghost use Rattle.journal_record.specs.Laws.{AreLines, ReadsKept};

/// A text that has the records of lines that were kept, and behind them any beginning of the records of others: what is
/// read are the lines kept, and those of the others whose records are whole, and none is damaged.
pub fn what_was_kept_is_read()
    ensures { (kept more lines : List (List ℕ)) (some rest : List ℕ) (end : TextEnd) → AreLines kept → AreLines more
        → lines_text (lines_sum 0 kept) more ≡ some ++ rest
        → HasLines 0 (lines_text 0 kept ++ some) lines end → ReadsKept kept more lines end }
{}
