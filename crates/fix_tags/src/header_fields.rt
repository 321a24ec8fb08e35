//! What a frame says of its message's header.
ghost use Rattle.fix_text.specs.FrameFields.{fields_in};
ghost use Rattle.fix_tags.specs.Header.{IsFoundIn};

use crate::tag::{
    MSG_SEQ_NUM, MSG_TYPE, POSS_DUP_FLAG, POSS_RESEND, SENDER_COMP_ID, SENDING_TIME, TARGET_COMP_ID,
};
use fix_text::Frame;

/// The values of the header's fields that are read, of each tag the first, and what is left of the frame behind them.
#[derive(Clone, Copy)]
pub(crate) struct HeaderFields<'a> {
    pub(crate) kind: Option<&'a [u8]>,
    pub(crate) sender: Option<&'a [u8]>,
    pub(crate) target: Option<&'a [u8]>,
    pub(crate) number: Option<&'a [u8]>,
    pub(crate) sending_time: Option<&'a [u8]>,
    pub(crate) poss_dup: Option<&'a [u8]>,
    pub(crate) poss_resend: Option<&'a [u8]>,
    /// The application's fields are all in here.
    pub(crate) left: Frame<'a>,
}

impl<'a> HeaderFields<'a> {
    /// Those of this frame. They are asked for in the order in which they mostly stand, at the front.
    #[inline(always)]
    pub(crate) fn of(frame: Frame<'a>) -> HeaderFields<'a>
        ensures { IsFoundIn result (fields_in frame.entry) }
    {
        let mut left = frame;
        let kind = left.take(MSG_TYPE);
        let sender = left.take(SENDER_COMP_ID);
        let target = left.take(TARGET_COMP_ID);
        let number = left.take(MSG_SEQ_NUM);
        let sending_time = left.take(SENDING_TIME);
        let poss_dup = left.take(POSS_DUP_FLAG);
        let poss_resend = left.take(POSS_RESEND);
        HeaderFields {
            kind,
            sender,
            target,
            number,
            sending_time,
            poss_dup,
            poss_resend,
            left,
        }
    }
}
