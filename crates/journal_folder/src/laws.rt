//! What a start finds of a journal: each law is the contract of a function that does nothing.

ghost use Rattle.journal_folder.specs.Laws.{HeadsReadBack};
ghost use Rattle.journal_folder.specs.Start.{StartsFindKept, StartsRefuseNone};

/// The head of a file says what it was written of, up to 999,999,999,999 files and lines.
pub fn heads_read_back()
    ensures { HeadsReadBack }
{}

/// Whatever crashes leave of a journal's files over its lives, a start finds the lines that are kept, and behind them
/// the first of those that were being written. None of the files is refused.
pub fn a_start_finds_what_was_kept()
    ensures finds { StartsFindKept }
    ensures refuses_none { StartsRefuseNone }
{}
