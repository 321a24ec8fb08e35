//! A password.

ghost use Rattle.std.specs.Prelude.{◌≡◌, Some, codes};

use desk_words::Printable;
use std::fmt;
use std::marker::Model;

/// The most bytes of a password.
pub const MAX_SECRET: usize = 64;

/// A password (554), of 1 to 64 printable bytes. Only a dressed link reads it: it can't be copied or shown, and is
/// printed as `***`.
#[derive(Drop)]
pub struct Secret {
    text: Printable<MAX_SECRET>,
}

impl Model for Secret {
    ghost use Rattle.std.specs.Prelude.{ℕ, List};

    ghost Value = { List ℕ };

    ghost view = { λ secret. secret.text };
}

impl Secret {
    /// The password of this text.
    pub fn new(text: Printable<MAX_SECRET>) -> Secret
        ensures { result ≡ text }
    {
        Secret { text }
    }

    /// Its bytes, lent to what dresses a Logon.
    pub(crate) fn as_bytes(&self) -> &[u8]
        ensures { result.now ≡ self.now }
    {
        self.text.as_bytes()
    }
}

impl fmt::Debug for Secret {
    ghost debug_output = { λ _. Some (codes "***") };

    fn fmt<W: fmt::Write>(&self, f: &mut fmt::Formatter<W>) -> fmt::Result {
        f.write_str("***")
    }
}
