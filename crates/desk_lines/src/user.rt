//! Who may send lines.

ghost use Rattle.std.specs.Prelude.{◌≡◌};
ghost use Rattle.desk_lines.specs.User.{user_with};

use constant_time::is_same;
use desk_talk::{ClientName, Rights};
use desk_words::Printable;

/// The most bytes of a token.
const MAX_TOKEN: usize = 128;

/// By what a client is known.
pub type ClientToken = Printable<MAX_TOKEN>;

/// Who may send lines.
#[derive(Debug, Drop)]
pub struct User {
    pub name: ClientName,
    /// No two users have the same.
    pub token: ClientToken,
    pub may: Rights,
}

/// The place of the user whose token this is, if it is one's.
pub(crate) fn user_with(users: &[User], token: &[u8]) -> Option<usize>
    ensures { result ≡ user_with users.now token.now }
{
    users
        .iter()
        .position(|user| is_same(token, user.token.as_bytes()))
}
