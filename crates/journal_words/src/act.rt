//! What a session does, where its name says it all.

ghost use Rattle.std.specs.Prelude.{◌≡◌};
ghost use Rattle.journal_words.specs.Words.{act_word};
ghost use Rattle.journal_words.specs.Reading.{act_of};

use crate::split::is_word;

/// A call of a session that needs nothing beside it.
#[derive(Clone, Copy, Debug, PartialEq, Eq)]
pub enum Act {
    /// It connected.
    Connected,
    /// The note of its last message was booked.
    Confirmed,
    /// Nothing was written for a while.
    Quieted,
    /// Nothing was heard for a while.
    Silenced,
    /// It was asked to close.
    Closed,
    /// Its connection broke.
    Broke,
    /// It was given up.
    Abandoned,
}

impl Act {
    /// Its word.
    pub(crate) fn word(self) -> &'static [u8]
        ensures { result.now ≡ act_word self }
    {
        match self {
            Act::Connected => b"connect",
            Act::Confirmed => b"confirm",
            Act::Quieted => b"quiet",
            Act::Silenced => b"silent",
            Act::Closed => b"close",
            Act::Broke => b"broken",
            Act::Abandoned => b"abandon",
        }
    }

    /// The act of a word.
    pub(crate) fn of_word(word: &[u8]) -> Option<Act>
        ensures { result ≡ act_of word.now }
    {
        if is_word(word, b"connect") {
            return Some(Act::Connected);
        }
        if is_word(word, b"confirm") {
            return Some(Act::Confirmed);
        }
        if is_word(word, b"quiet") {
            return Some(Act::Quieted);
        }
        if is_word(word, b"silent") {
            return Some(Act::Silenced);
        }
        if is_word(word, b"close") {
            return Some(Act::Closed);
        }
        if is_word(word, b"broken") {
            return Some(Act::Broke);
        }
        if is_word(word, b"abandon") {
            return Some(Act::Abandoned);
        }
        None
    }
}
