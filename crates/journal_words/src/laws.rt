//! What is spelled reads back and is a line, and worked lines: each law is the contract of an empty function.

ghost use Rattle.journal_words.specs.Laws.{DeedsAreLines, DeedsReadBack, DeskDeedsAreLines, DeskReadsBack};
ghost use Rattle.journal_words.specs.Example.{ALegHasALine, ALogonHasALine, AMessageHasALine, ASweepHasALine};

/// The line of a deed says that deed and its time, where the leg is in range.
pub fn deeds_read_back()
    ensures { DeedsReadBack }
{}

/// The line of the desk says what was done there, and when.
pub fn desk_lines_read_back()
    ensures { DeskReadsBack }
{}

/// The line of a deed has neither a NUL nor an end of line, where the leg is in range: no journal refuses it for that.
pub fn deeds_are_lines()
    ensures { DeedsAreLines }
{}

/// So has the line of the desk, where no text in it has either.
pub fn desk_deeds_are_lines()
    ensures { DeskDeedsAreLines }
{}

/// The line of a Logon.
pub fn a_logon_has_a_line()
    ensures { ALogonHasALine }
{}

/// The line of a leg that is sent.
pub fn a_leg_has_a_line()
    ensures { ALegHasALine }
{}

/// The line of a message that came.
pub fn a_message_has_a_line()
    ensures { AMessageHasALine }
{}

/// The line of a sweep that was placed.
pub fn a_sweep_has_a_line()
    ensures { ASweepHasALine }
{}
