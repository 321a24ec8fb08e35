//! What a message of the session says.

use crate::text_ref::TextRef;

/// What a message of the session says (FIX 4.4 Volume 2). Its texts are lent: from the frame that it was read from, or
/// from whoever writes it.
#[derive(Clone, Debug, Drop)]
pub enum SessionBody<'a> {
    /// `A`: the heartbeat interval in seconds (108), whether numbers are reset (141), and the next number that the
    /// sender expects to receive (789).
    Logon {
        heart: u64,
        reset: bool,
        next: Option<u64>,
    },
    /// `0`: with the id of the test request that it answers (112), if it answers one.
    Heartbeat {
        id: Option<TextRef<'a>>,
    },
    /// `1`: with its id (112).
    TestRequest {
        id: TextRef<'a>,
    },
    /// `2`: from number 7 to number 16, where 0 means everything after.
    ResendRequest {
        begin: u64,
        last: u64,
    },
    /// `3`: with the number of the message that it refuses (45).
    Reject {
        number: u64,
    },
    /// `4` with 123=Y: nothing is sent again before the new number (36).
    GapFill {
        new_number: u64,
    },
    /// `4` without 123=Y: numbers go on from the new number (36).
    Reset {
        new_number: u64,
    },
    /// `5`: the sender ends the session.
    Logout,
    /// `j`: with the number of the message that it refuses (45), if there is one.
    BusinessReject {
        number: Option<u64>,
    },
}
