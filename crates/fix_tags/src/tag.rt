//! The tags of the fields that this crate reads and writes (FIX 4.4 Volume 2).

/// BeginString: the first field of a frame.
pub(crate) const BEGIN_STRING: u32 = 8;

/// BodyLength: the second field of a frame.
pub(crate) const BODY_LENGTH: u32 = 9;

/// CheckSum: the last field of a frame.
pub(crate) const CHECK_SUM: u32 = 10;

/// MsgType: the kind of a message.
pub(crate) const MSG_TYPE: u32 = 35;

/// SenderCompID: the firm that sends.
pub(crate) const SENDER_COMP_ID: u32 = 49;

/// TargetCompID: the firm that receives.
pub(crate) const TARGET_COMP_ID: u32 = 56;

/// MsgSeqNum: the number of a message.
pub(crate) const MSG_SEQ_NUM: u32 = 34;

/// PossDupFlag: the message may have been sent before, under this number.
pub(crate) const POSS_DUP_FLAG: u32 = 43;

/// PossResend: the message may have been sent before, under another number.
pub(crate) const POSS_RESEND: u32 = 97;

/// SendingTime: when the message was sent.
pub(crate) const SENDING_TIME: u32 = 52;

/// OrigSendingTime: when a message that may have been sent before was first sent.
pub(crate) const ORIG_SENDING_TIME: u32 = 122;

/// BeginSeqNo: the first number that a resend request asks for.
pub(crate) const BEGIN_SEQ_NO: u32 = 7;

/// EndSeqNo: the last one, where 0 means everything after.
pub(crate) const END_SEQ_NO: u32 = 16;

/// NewSeqNo: the number that a sequence reset goes on from.
pub(crate) const NEW_SEQ_NO: u32 = 36;

/// RefSeqNum: the number of the message that is refused.
pub(crate) const REF_SEQ_NUM: u32 = 45;

/// EncryptMethod: `0` is none.
pub(crate) const ENCRYPT_METHOD: u32 = 98;

/// HeartBtInt: the heartbeat interval in seconds.
pub(crate) const HEART_BT_INT: u32 = 108;

/// TestReqID: the id of a test request.
pub(crate) const TEST_REQ_ID: u32 = 112;

/// GapFillFlag: whether a sequence reset fills a gap.
pub(crate) const GAP_FILL_FLAG: u32 = 123;

/// ResetSeqNumFlag: whether a Logon resets both sides' numbers.
pub(crate) const RESET_SEQ_NUM_FLAG: u32 = 141;

/// RefMsgType: the kind of the message that is refused.
pub(crate) const REF_MSG_TYPE: u32 = 372;

/// BusinessRejectReason: `0` is another reason than those that have a code.
pub(crate) const BUSINESS_REJECT_REASON: u32 = 380;

/// NextExpectedMsgSeqNum: the number that the sender of a Logon expects next.
pub(crate) const NEXT_EXPECTED_MSG_SEQ_NUM: u32 = 789;
