//! Who may do what.

ghost use Rattle.std.specs.Prelude.{◌≡◌, Some};
ghost use Rattle.std.specs.List.{list_all};
ghost use Rattle.desk_config.specs.User.{is_user_byte, user_name_of};

use crate::config::{FileName, TokenText};
use desk_words::Printable;
use std::fmt;
use std::marker::Model;

/// The most bytes of a user's name.
pub const MAX_USER_NAME: usize = 32;

/// What a user is called: 1 to 32 letters, digits, `-`, `_` and `.`.
#[derive(Debug, PartialEq, Eq, Drop)]
pub struct UserName {
    text: Printable<MAX_USER_NAME>,
}

impl Model for UserName {
    ghost use Rattle.std.specs.Prelude.{ℕ, List};

    ghost Value = { List ℕ };

    ghost view = { λ name. name.text };

    ghost inverse = { λ text. record { text = text } };
}

fn is_user_byte(byte: u8) -> bool
    ensures { result ≡ is_user_byte byte }
{
    byte.is_ascii_alphanumeric() || byte == b'-' || byte == b'_' || byte == b'.'
}

fn are_user_bytes(text: &[u8]) -> bool
    ensures { result ≡ list_all is_user_byte text.now }
{
    text.iter().all(|byte| is_user_byte(*byte))
}

impl UserName {
    /// The name that a text is, or none where it is empty, longer than 32 bytes or has another byte.
    pub fn new(text: &[u8]) -> Option<UserName>
        ensures { result ≡ user_name_of text.now }
    {
        if !are_user_bytes(text) {
            return None;
        }
        let text = Printable::new(text)?;
        Some(UserName { text })
    }

    /// The bytes of the name, 1 to 32.
    pub fn as_bytes(&self) -> &[u8]
        ensures { result.now ≡ self.now }
    {
        self.text.as_bytes()
    }

    /// The name as text.
    pub fn as_str(&self) -> &str
        ensures { result.now ≡ self.now }
    {
        self.text.as_str()
    }
}

impl fmt::Display for UserName {
    ghost output = { λ name. Some name };

    fn fmt<W: fmt::Write>(&self, f: &mut fmt::Formatter<W>) -> fmt::Result {
        let text = &self.text;
        write!(f, "{text}")
    }
}

/// How a user is known.
#[derive(Debug, PartialEq, Eq, Drop)]
pub enum UserToken {
    /// By this token.
    Text(TokenText),
    /// By the token that the file of this name beside the desk's file has.
    File(FileName),
}

/// What a user may do.
#[derive(Clone, Copy, Debug, PartialEq, Eq)]
pub struct Rights {
    /// See the day.
    pub read: bool,
    /// Hand in sweeps.
    pub trade: bool,
    /// Close the day.
    pub close: bool,
    /// Halt the desk.
    pub halt: bool,
}

/// Who may do what.
#[derive(Debug, PartialEq, Eq, Drop)]
pub struct User {
    pub name: UserName,
    pub token: UserToken,
    pub may: Rights,
}
