//! Who may ask, and what for.

ghost use Rattle.std.specs.Prelude.{◌≡◌, if◌then◌else◌};
ghost use Rattle.std.specs.Option.{option_or};
ghost use Rattle.desk_http.specs.User.{has_right, right_of, user_with};

use crate::call::Call;
use constant_time::is_same;

/// What a call has to be allowed.
#[derive(Clone, Copy, Debug, PartialEq, Eq)]
pub enum Right {
    Read,
    Trade,
    Close,
    Halt,
}

/// What a user may do.
#[derive(Clone, Copy, Debug, PartialEq, Eq)]
pub struct Rights {
    pub read: bool,
    pub trade: bool,
    pub close: bool,
    pub halt: bool,
}

/// Who asks with a token of his own.
#[derive(Debug, Drop)]
pub struct User {
    /// As `alice`.
    pub name: String,
    /// What `Authorization` is, as `Bearer WORD`; no two users have the same.
    pub authorization: String,
    pub rights: Rights,
}

impl Rights {
    /// Whether this right is among them.
    pub(crate) fn has(&self, right: Right) -> bool
        ensures { result ≡ has_right self.now right }
    {
        match right {
            Right::Read => self.read,
            Right::Trade => self.trade,
            Right::Close => self.close,
            Right::Halt => self.halt,
        }
    }
}

/// The right that a call needs; the page itself needs none.
pub(crate) fn right_of(call: Call) -> Option<Right>
    ensures { result ≡ right_of call }
{
    match call {
        Call::Page => None,
        Call::Place => Some(Right::Trade),
        Call::Close => Some(Right::Close),
        Call::Halt => Some(Right::Halt),
        Call::Resume => Some(Right::Halt),
        Call::Sweeps { .. }
        | Call::Sweep(_)
        | Call::Find
        | Call::Executions { .. }
        | Call::Venues
        | Call::Events
        | Call::Metrics => Some(Right::Read),
    }
}

/// What was found, or else this place where it is the one.
fn found_by_now(found: Option<usize>, is_it: bool, place: usize) -> Option<usize>
    ensures { result ≡ option_or found (if is_it then Some place else None) }
{
    match found {
        Some(earlier) => Some(earlier),
        None if is_it => Some(place),
        None => None,
    }
}

/// The place of the first user whose token this is. Each user's is compared, whichever it is.
pub(crate) fn user_with(users: &[User], authorization: &[u8]) -> Option<usize>
    ensures { result ≡ user_with users.now authorization.now }
{
    let mut found = None;
    for i in 0..users.len() {
        let is_his = is_same(authorization, users[i].authorization.as_str().as_bytes());
        found = found_by_now(found, is_his, i);
    }
    found
}
