//! The header of a message, as it is pushed to the body of a frame.
ghost use Rattle.std.specs.Prelude.{◌∷◌, ◌+◌, ◌<◌, ◌≤◌, OnErr, length};
ghost use Rattle.fix_text.specs.Sink.{Pushes};
ghost use Rattle.fix_tags.specs.Message.{field, number_field, flag_field, original_time, marks_and_time};

use crate::tag::{
    MSG_SEQ_NUM, MSG_TYPE, ORIG_SENDING_TIME, POSS_DUP_FLAG, POSS_RESEND, SENDER_COMP_ID,
    SENDING_TIME, TARGET_COMP_ID,
};
use fix_text::FieldSink;
use itoa::Buffer;
use std::alloc::{AllocError, Global};

/// The header of a message (FIX 4.4 Volume 2, "Standard Message Header").
#[derive(Clone, Copy, Debug)]
pub struct Header<'a> {
    /// MsgType (35).
    pub kind: &'a [u8],
    /// SenderCompID (49).
    pub sender: &'a [u8],
    /// TargetCompID (56).
    pub target: &'a [u8],
    /// MsgSeqNum (34).
    pub number: u64,
    /// PossDupFlag (43).
    pub poss_dup: bool,
    /// PossResend (97).
    pub poss_resend: bool,
    /// SendingTime (52), and OrigSendingTime (122) where the message may have been sent before.
    pub time: &'a [u8],
}

/// A flag, where it is set.
fn push_flag<F: FieldSink>(
    alloc: Global,
    tag: u32,
    flag: bool,
    fields: &mut F,
) -> Result<(), AllocError>
    ensures pushed { Pushes F.Takes (flag_field tag flag) fields.old fields.new result }
    ensures left { F.room fields.old ≤ F.room fields.new + 1 }
    ensures full { OnErr result (F.room fields.old < 1) }
{
    if flag {
        fields.push_field(alloc, tag, b"Y")
    } else {
        Ok(())
    }
}

/// OrigSendingTime (122) of a message that may have been sent before.
fn push_original_time<F: FieldSink>(
    alloc: Global,
    poss_dup: bool,
    time: &[u8],
    fields: &mut F,
) -> Result<(), AllocError>
    ensures pushed { Pushes F.Takes (original_time poss_dup time.now) fields.old fields.new result }
    ensures left { F.room fields.old ≤ F.room fields.new + 1 }
    ensures full { length time.now ≤ F.short → OnErr result (F.room fields.old < 1) }
{
    if poss_dup {
        fields.push_field(alloc, ORIG_SENDING_TIME, time)
    } else {
        Ok(())
    }
}

/// The fields from PossDupFlag (43) on. It is on the way of each message that is pushed, as
/// `push_header` is: so both are inlined.
#[inline(always)]
fn push_marks_and_time<F: FieldSink>(
    alloc: Global,
    poss_dup: bool,
    poss_resend: bool,
    time: &[u8],
    fields: &mut F,
) -> Result<(), AllocError>
    ensures pushed { Pushes F.Takes (marks_and_time poss_dup poss_resend time.now) fields.old fields.new result }
    ensures left { F.room fields.old ≤ F.room fields.new + 4 }
    ensures full { length time.now ≤ F.short → OnErr result (F.room fields.old < 4) }
{
    push_flag(alloc, POSS_DUP_FLAG, poss_dup, fields)?;
    push_flag(alloc, POSS_RESEND, poss_resend, fields)?;
    fields.push_field(alloc, SENDING_TIME, time)?;
    push_original_time(alloc, poss_dup, time, fields)
}

/// Pushes the fields of a header, in written order. A refused growth leaves some of them behind; none comes where there
/// is room for eight more fields and each text of the header is short.
#[inline(always)]
pub fn push_header<F: FieldSink>(
    alloc: Global,
    header: &Header<'_>,
    fields: &mut F,
) -> Result<(), AllocError>
    ensures pushed { Pushes F.Takes (field 35 header.now.kind.now ∷ field 49 header.now.sender.now
        ∷ field 56 header.now.target.now ∷ number_field 34 header.now.number
        ∷ marks_and_time header.now.poss_dup header.now.poss_resend header.now.time.now)
        fields.old fields.new result }
    ensures left { F.room fields.old ≤ F.room fields.new + 8 }
    ensures full { length header.now.kind.now ≤ F.short → length header.now.sender.now ≤ F.short
        → length header.now.target.now ≤ F.short → length header.now.time.now ≤ F.short
        → OnErr result (F.room fields.old < 8) }
{
    let mut digits = Buffer::new();
    fields.push_field(alloc, MSG_TYPE, header.kind)?;
    fields.push_field(alloc, SENDER_COMP_ID, header.sender)?;
    fields.push_field(alloc, TARGET_COMP_ID, header.target)?;
    fields.push_field(alloc, MSG_SEQ_NUM, digits.format(header.number).as_bytes())?;
    push_marks_and_time(
        alloc,
        header.poss_dup,
        header.poss_resend,
        header.time,
        fields,
    )
}
