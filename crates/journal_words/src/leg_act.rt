//! What became of a leg that a worker took.

ghost use Rattle.std.specs.Prelude.{◌≡◌};
ghost use Rattle.journal_words.specs.Words.{leg_word};
ghost use Rattle.journal_words.specs.Reading.{leg_act_of};

/// What became of a leg that a worker took from its ring.
#[derive(Clone, Copy, Debug, PartialEq, Eq)]
pub enum LegAct {
    /// The session was to send it.
    Sent,
    /// It wasn't handed to the session.
    Dropped,
    /// The session had no memory for it, and the connection broke.
    Failed,
}

impl LegAct {
    /// Its word.
    pub(crate) fn word(self) -> &'static [u8]
        ensures { result.now ≡ leg_word self }
    {
        match self {
            LegAct::Sent => b"send",
            LegAct::Dropped => b"drop",
            LegAct::Failed => b"fail",
        }
    }

    /// That of a word.
    pub(crate) fn of_word(word: &[u8]) -> Option<LegAct>
        ensures { result ≡ leg_act_of word.now }
    {
        match word {
            b"send" => Some(LegAct::Sent),
            b"drop" => Some(LegAct::Dropped),
            b"fail" => Some(LegAct::Failed),
            _ => None,
        }
    }
}
