//! What holds between a session that may be killed and started again, and any exchange that keeps the rules.

ghost use Rattle.line_restart.specs.Example.{IsBookedAgain};
ghost use Rattle.line_restart.specs.OverRestarts.{WhatIsAcceptedStays, WhatIsWithdrawnIsNeverAccepted};
ghost use Rattle.line_restart.specs.OverRestarts.{WhatIsWithdrawnStays, AWithdrawalIsWritten};
ghost use Rattle.line_restart.specs.Reports.{TheNotesComeAgain};
ghost use Rattle.line_restart.specs.RestartTheorem.{TheReachedTheorem, TheRestartTheorem, TheNotesOverRestarts};
ghost use Rattle.line_restart.specs.RestartTheorem.{AnOpenConnectionIsSafe};
ghost use Rattle.line_restart.specs.Spared.{TheNotesSpareWithdrawn};
ghost use Rattle.line_restart.specs.UnsafeStarts.{IsGapLeft, IsReleaseLost, IsDropLost, IsWithdrawalLost};
ghost use Rattle.line_restart.specs.UnsafeStarts.{IsBookAhead, IsCountAhead, IsBegunAnew, IsCountedAnew};
ghost use Rattle.line_restart.specs.UnsafeWire.{IsOrderLost, IsFillLost, IsCloseLost};

/// Whenever the dispatcher is killed, and however often: each line that comes of it is one that ordinary steps lead to,
/// with no restart. So all that is proved of every line holds of it.
pub fn every_restart_is_a_line()
    ensures { TheReachedTheorem }
{}

/// Whenever the dispatcher is killed, and however often: at every moment the line is safe.
pub fn every_restart_is_safe()
    ensures { TheRestartTheorem }
{}

/// From each moment to every later one, over restarts too: what was accepted stays so and is never withdrawn, and what
/// is taken is never withdrawn.
pub fn what_is_accepted_stays()
    ensures { WhatIsAcceptedStays }
{}

/// And what was withdrawn is never accepted later, nor called taken, though its withdrawal is lost, if no drop is: a
/// leg that left the desk unsent.
pub fn what_is_withdrawn_is_never_accepted()
    ensures { WhatIsWithdrawnIsNeverAccepted }
{}

/// And what is withdrawn stays so, if no withdrawal is lost.
pub fn what_is_withdrawn_stays()
    ensures { WhatIsWithdrawnStays }
{}

/// No withdrawal by the session is lost where it wrote nothing after the journal's end: what withdraws a leg writes
/// something.
pub fn a_withdrawal_is_written()
    ensures { AWithdrawalIsWritten }
{}

/// Of any two moments, over restarts too, the notes given at the one are those given at the other, or the first of
/// them. So what was booked and isn't in the journal comes again, each note once and in order, behind the journal's.
pub fn the_notes_come_again()
    ensures { TheNotesComeAgain }
{}

/// Each note that is given, over restarts too, is on a leg that the exchange has accepted, and on none that is
/// withdrawn where no two released legs have the same id.
pub fn the_notes_are_on_accepted_legs()
    ensures { TheNotesOverRestarts }
{}

/// Of any two moments, over restarts too, no note given at the one is on a leg that is withdrawn at the other, where no
/// two legs released at the later one have the same id. Of notes given after the withdrawal it asks that no drop is
/// lost.
pub fn the_notes_spare_what_is_withdrawn()
    ensures { TheNotesSpareWithdrawn }
{}

/// A worked run, computed: what was booked and isn't in the journal is booked again, and a leg whose order never was on
/// the wire is withdrawn.
pub fn a_report_is_booked_again()
    ensures { IsBookedAgain }
{}

/// An order on the wire before its call is in the journal: the leg is accepted, and withdrawn.
pub fn an_order_before_the_journal_is_unsafe()
    ensures { IsOrderLost }
{}

/// A gap fill on the wire before its call is in the journal: the leg is withdrawn, and taken.
pub fn a_gap_fill_before_the_journal_is_unsafe()
    ensures { IsFillLost }
{}

/// A Logout on the wire before the close is in the journal: a leg is accepted after it.
pub fn a_logout_before_the_journal_is_unsafe()
    ensures { IsCloseLost }
{}

/// A journal that has the call which sent a leg, and not an earlier one: the earlier leg is accepted, and withdrawn.
pub fn a_journal_with_a_gap_is_unsafe()
    ensures { IsGapLeft }
{}

/// A leg that leaves the desk before its release is in the journal: an order is accepted that no released leg has.
pub fn a_leg_before_its_release_is_unsafe()
    ensures { IsReleaseLost }
{}

/// A leg that left the desk unsent, and so was withdrawn, without that in the journal: it is sent, and accepted.
pub fn a_drop_before_the_journal_is_unsafe()
    ensures { IsDropLost }
{}

/// A leg that the session withdrew without that in the journal: it is in doubt again, so it isn't withdrawn for good.
pub fn a_withdrawal_before_the_journal_is_lost()
    ensures { IsWithdrawalLost }
{}

/// A book that keeps a note which isn't in the journal: it isn't what the session has counted, and the note comes
/// again.
pub fn a_book_ahead_of_the_journal_is_unsafe()
    ensures { IsBookAhead }
{}

/// A session that has counted a report which isn't in the journal's book: the report is never given.
pub fn a_session_ahead_of_its_book_is_unsafe()
    ensures { IsCountAhead }
{}

/// A session that begins anew, with numbers from 1, where a leg was sent and accepted: the leg counts as withdrawn.
pub fn a_session_that_begins_anew_is_unsafe()
    ensures { IsBegunAnew }
{}

/// A session that counts its connections anew, so that it connects in one which the exchange has had: the leg is
/// accepted, and withdrawn.
pub fn connections_that_are_counted_anew_are_unsafe()
    ensures { IsCountedAnew }
{}

/// A session that took its connection as still there would be safe: the exchange has had nothing of it but what the
/// journal has. So no run shows why a start ends the connection; the link of the killed process is gone with it.
pub fn a_connection_that_stays_is_safe()
    ensures { AnOpenConnectionIsSafe }
{}
