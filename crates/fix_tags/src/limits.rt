//! The values that the fields of a message take.
ghost use Rattle.std.specs.Prelude.{◌≡◌};
ghost use Rattle.fix_tags.specs.Message.{is_between};

/// Numbers from the least to the greatest one.
#[derive(Clone, Copy)]
pub(crate) struct NumberRange {
    pub(crate) least: u64,
    pub(crate) greatest: u64,
}

impl NumberRange {
    /// Whether a number is one of these.
    #[inline]
    pub(crate) fn contains(self, number: u64) -> bool
        ensures { result ≡ is_between self.least self.greatest number }
    {
        self.least <= number && number <= self.greatest
    }
}

/// The greatest MsgSeqNum (34) of a message, so that the number after it has nine digits too.
pub const MAX_MESSAGE_NUMBER: u64 = 999_999_998;

/// MsgSeqNum (34).
pub(crate) const MESSAGE_NUMBER: NumberRange = NumberRange {
    least: 1,
    greatest: MAX_MESSAGE_NUMBER,
};

/// A number that another message has or may get: 7, 16, 36 and 45.
pub(crate) const REFERENCE: NumberRange = NumberRange {
    least: 0,
    greatest: 999_999_999,
};

/// NextExpectedMsgSeqNum (789).
pub(crate) const NEXT_NUMBER: NumberRange = NumberRange {
    least: 1,
    greatest: 999_999_999,
};

/// HeartBtInt (108), in seconds.
pub(crate) const HEART: NumberRange = NumberRange {
    least: 0,
    greatest: 999_999,
};

/// The bytes of a TestReqID (112).
pub(crate) const MAX_TEST_ID: usize = 64;

/// The bytes of a MsgType (35).
pub(crate) const MAX_KIND: usize = 8;
