//! A text of a field that is lent.
ghost use Rattle.std.specs.Prelude.{◌≡◌};

use std::marker::Model;

/// The bytes of a field's value, lent. Contracts see the list of them.
#[derive(Clone, Debug, Drop)]
pub struct TextRef<'a> {
    bytes: &'a [u8],
}

impl<'a> Model for TextRef<'a> {
    ghost use Rattle.std.specs.Prelude.{ℕ, List};

    ghost Value = { List ℕ };

    ghost view = { λ text. text.bytes.now };
}

impl<'a> TextRef<'a> {
    /// The text of these bytes. It takes no memory.
    pub fn new(bytes: &'a [u8]) -> TextRef<'a>
        ensures { result ≡ bytes.entry.now }
    {
        TextRef { bytes }
    }

    /// The bytes, lent for as long as the text's own lender lends them.
    pub fn as_bytes(&self) -> &'a [u8]
        ensures { result.now ≡ self.now }
    {
        self.bytes
    }
}
