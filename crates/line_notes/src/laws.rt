//! What holds of the notes that the book is given, over any exchange that keeps the rules.

ghost use Rattle.line_notes.specs.Example.{IsRefusalNoted};
ghost use Rattle.line_notes.specs.NotesTheorem.{TheNotesTheorem, TheWithdrawnTheorem};

/// Whatever exchange keeps the rules, and whatever is delivered, lost, repeated or broken: each note that the book is
/// given is a report or a refusal that names a leg, and the exchange has accepted that leg.
pub fn every_note_is_on_an_accepted_leg()
    ensures { TheNotesTheorem }
{}

/// No note that the book is given is on a leg that is withdrawn, where no two legs released to the venue have the same
/// id.
pub fn no_note_is_on_a_withdrawn_leg()
    ensures { TheWithdrawnTheorem }
{}

/// A worked line, computed: the exchange accepts an order and refuses it. The laws above speak of it, and the one note
/// that is given is that of the refusal, on the accepted leg.
pub fn a_refused_order_is_noted_of_its_leg()
    ensures { IsRefusalNoted }
{}
