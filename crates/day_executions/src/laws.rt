//! What follows of indexes, and of what is told: each law is the contract of a function that does nothing.

ghost use Rattle.std.specs.Prelude.{◌≡◌, ◌<◌, ℕ, List, [], filter_map, length, map};
ghost use Rattle.leg.specs.LegId.{LegIdParts};
ghost use Rattle.leg.specs.declared.sweep.Routed.{Routed};
ghost use Rattle.dialect.specs.declared.note.Note.{Note};
ghost use Rattle.share_ledger.specs.Book.{open_sweep, withdraw};
ghost use Rattle.exec_collector.specs.Unbooked.{CountedParts, IsListOf, give, unbooked_of};
ghost use Rattle.day_executions.specs.declared.place.Place.{Place};
ghost use Rattle.day_executions.specs.Executions.{IsIndex, said_by, untaken_behind};
ghost use Rattle.day_executions.specs.Named.{execution_of};
ghost use Rattle.report_words.specs.declared.report_words.ReportWords.{ReportWords};

/// Where nothing was looked at, no places are an index of each day.
pub fn nothing_is_an_index()
    ensures { (day : CountedParts) → IsListOf day.book day.unbooked
        → IsIndex 0 0 [] day.book.entries day.unbooked }
{}

/// Whatever is asked of a book, an index of the day is one of the day afterwards.
pub fn calls_keep_an_index()
    ensures given { (entries items : ℕ) (places : List Place) (day : CountedParts) (venue : ℕ) (note : Note)
        → IsIndex entries items places day.book.entries day.unbooked
        → IsIndex entries items places (give day venue note).1.book.entries (give day venue note).1.unbooked }
    ensures withdraw { (entries items : ℕ) (places : List Place) (day : CountedParts) (id : LegIdParts)
        → IsIndex entries items places day.book.entries day.unbooked
        → IsIndex entries items places (withdraw day.book id).1.entries day.unbooked }
    ensures open_sweep { (entries items : ℕ) (places : List Place) (day : CountedParts) (number : ℕ)
        (legs : List Routed) → IsIndex entries items places day.book.entries day.unbooked
        → IsIndex entries items places (open_sweep day.book number legs).1.entries day.unbooked }
{}

/// Where nothing of what a book didn't take is told by these names, nothing of a venue that has one is on its list.
pub fn what_is_not_told_is_not_listed()
    ensures { (names : List (List ℕ)) (day : CountedParts) (words : List ReportWords) (venue : ℕ)
        → IsListOf day.book day.unbooked → venue < length names
        → filter_map (execution_of names)
        (map (said_by words) (untaken_behind 0 day.book.entries day.unbooked)) ≡ []
        → unbooked_of venue day.unbooked ≡ [] }
{}
