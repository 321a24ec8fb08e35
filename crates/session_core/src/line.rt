//! A message of the session's own that is to be written.

ghost use Rattle.std.specs.Prelude.{◌≡◌};

use fix_tags::SessionBody;

/// What a message of the session's own says.
#[derive(Drop)]
pub(crate) enum Says<'a> {
    /// A fence: a TestRequest whose id is `F` and the message's own number.
    Fence,
    Body(SessionBody<'a>),
}

impl<'a> Says<'a> {
    ghost use Rattle.session_core.specs.Decision.{is_fence};

    /// Whether it is a fence.
    pub fn is_fence(&self) -> bool
        ensures { result ≡ is_fence self.now }
    {
        match self {
            Says::Fence => true,
            Says::Body(_) => false,
        }
    }
}

/// A message of the session's own that is to be written.
#[derive(Drop)]
pub(crate) struct Line<'a> {
    pub number: u64,
    /// It stands for numbers that were spent before, and spends none.
    pub poss_dup: bool,
    pub says: Says<'a>,
}

impl<'a> Default for Line<'a> {
    fn default() -> Self {
        Line {
            number: 0,
            poss_dup: false,
            says: Says::Body(SessionBody::Logout),
        }
    }
}
