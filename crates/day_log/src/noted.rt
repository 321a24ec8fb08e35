//! What was noted, for contracts alone.

ghost use Rattle.std.specs.Prelude.{◌≡◌, ℕ, List, Option, Some, None, [], ◌∷◌, ◌++◌};
ghost use Rattle.day_log.specs.Noted.{texts_coded};
ghost use base.Fml.{ftrue};

use std::marker::Model;

/// The texts of the messages that were noted, in order; none of one that was too long. It takes no byte: contracts
/// alone see it.
#[derive(Drop)]
pub(crate) struct Noted {
    ghost texts: { List (Option (List ℕ)) } by { texts_coded },
}

impl Model for Noted {
    ghost also_owns = { λ _. ftrue };
}

impl Noted {
    /// No message was noted.
    pub(crate) fn new() -> Noted
        ensures { result.texts ≡ [] }
    {
        Noted {}
    }

    /// A message of this text was noted.
    pub(crate) fn with(&self, _text: &[u8]) -> Noted
        ensures { result.texts ≡ self.now.texts ++ Some _text.now ∷ [] }
    {
        Noted {}
    }

    /// A message was noted that was too long.
    pub(crate) fn with_long(&self) -> Noted
        ensures { result.texts ≡ self.now.texts ++ None ∷ [] }
    {
        Noted {}
    }
}

unsafe impl Send for Noted {}
