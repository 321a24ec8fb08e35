//! What a message says.

use crate::order_said::OrderSaid;
use crate::report_said::ReportSaid;

/// What a message says, as far as the rules look at it.
#[derive(Debug, Drop)]
pub enum Says<'a> {
    /// A Logon, with HeartBtInt (108), ResetSeqNumFlag (141) and NextExpectedMsgSeqNum (789).
    Logon {
        heart: u64,
        reset: bool,
        next: Option<u64>,
    },
    /// A Heartbeat that answers the fence of this number: its TestReqID (112) is `F` and the number.
    Answer {
        fence: u64,
    },
    ResendRequest {
        begin: u64,
        last: u64,
    },
    GapFill {
        new_number: u64,
    },
    /// A SequenceReset that is no gap fill.
    Reset {
        new_number: u64,
    },
    Logout,
    /// A Reject or a BusinessReject of the message under this number (45).
    Refused {
        number: u64,
    },
    Order(OrderSaid<'a>),
    Report(ReportSaid<'a>),
    Other,
}
