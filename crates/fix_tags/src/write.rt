//! Writing a message as a frame.
ghost use Rattle.std.specs.Prelude.{◌∷◌, Some, None, Err, ◌≡◌, ◌+◌, ◌<◌, ◌++◌, length, vec_len, vec_capacity, if◌then◌else◌, MatchOption, IsOkUnless, OnOk, OnErr};
ghost use Rattle.fix_text.specs.Frame.{frame_text};
ghost use Rattle.fix_tags.specs.CompId.{IsCompId};
ghost use Rattle.fix_tags.specs.Message.{AreWritable, WritesFrame, field, marks_and_time, kind_of, body_fields, header_fields, field_fault, envelope_fields, is_too_long, envelope_refusal};
ghost use Rattle.fix_tags.specs.Reading.{reset_or_fill};
ghost use Rattle.fix_tags.specs.declared.body.Body.TheVariants.{Session};
ghost use Rattle.fix_tags.specs.ReadsBack.{ReadsBackAs};

use crate::body::Body;
use crate::envelope::Envelope;
use crate::session_body::SessionBody;
use crate::stamp::Stamp;
use crate::stamp_text::stamp_bytes;
use crate::tag::{
    BEGIN_SEQ_NO, BUSINESS_REJECT_REASON, ENCRYPT_METHOD, END_SEQ_NO, GAP_FILL_FLAG, HEART_BT_INT,
    MSG_SEQ_NUM, MSG_TYPE, NEW_SEQ_NO, NEXT_EXPECTED_MSG_SEQ_NUM, ORIG_SENDING_TIME, POSS_DUP_FLAG,
    POSS_RESEND, REF_MSG_TYPE, REF_SEQ_NUM, RESET_SEQ_NUM_FLAG, SENDER_COMP_ID, SENDING_TIME,
    TARGET_COMP_ID, TEST_REQ_ID,
};
use crate::text_ref::TextRef;
use crate::writable::field_fault;
use crate::write_fault::WriteFault;
use fix_text::{FieldRef, Fields, TextFault, write_writable_parts};
use itoa::Buffer;

/// MsgType (35) of a message of the session.
fn session_kind(says: &SessionBody<'_>) -> &'static [u8]
    ensures { result.now ≡ kind_of (Session says.now) }
{
    match says {
        SessionBody::Logon { .. } => b"A",
        SessionBody::Heartbeat { .. } => b"0",
        SessionBody::TestRequest { .. } => b"1",
        SessionBody::ResendRequest { .. } => b"2",
        SessionBody::Reject { .. } => b"3",
        SessionBody::GapFill { .. } | SessionBody::Reset { .. } => b"4",
        SessionBody::Logout => b"5",
        SessionBody::BusinessReject { .. } => b"j",
    }
}

/// MsgType (35).
fn kind_of<'a>(body: &Body<'a, Fields>) -> &'a [u8]
    ensures { result.now ≡ kind_of body.now }
{
    match body {
        Body::Session(says) => session_kind(says),
        Body::App { kind, .. } => kind.as_bytes(),
    }
}

fn write_logon(
    head: &[FieldRef<'_>],
    heart: u64,
    reset: bool,
    next: Option<u64>,
    out: &mut Vec<u8>,
) -> Result<(), TextFault>
    requires { AreWritable (head.now ++ body_fields (Session (SessionBody.Logon heart reset next))) }
    ensures { WritesFrame (head.now ++ body_fields (Session (SessionBody.Logon heart reset next)))
        out.old out.new result }
{
    let mut heart_digits = Buffer::new();
    let mut next_digits = Buffer::new();
    let encryption = FieldRef::new(ENCRYPT_METHOD, b"0");
    let heart = FieldRef::new(HEART_BT_INT, heart_digits.format(heart).as_bytes());
    match (reset, next) {
        (false, None) => write_writable_parts(head, &[encryption, heart], &[], out),
        (true, None) => {
            let reset = FieldRef::new(RESET_SEQ_NUM_FLAG, b"Y");
            write_writable_parts(head, &[encryption, heart, reset], &[], out)
        }
        (false, Some(next)) => {
            let next = FieldRef::new(
                NEXT_EXPECTED_MSG_SEQ_NUM,
                next_digits.format(next).as_bytes(),
            );
            write_writable_parts(head, &[encryption, heart, next], &[], out)
        }
        (true, Some(next)) => {
            let reset = FieldRef::new(RESET_SEQ_NUM_FLAG, b"Y");
            let next = FieldRef::new(
                NEXT_EXPECTED_MSG_SEQ_NUM,
                next_digits.format(next).as_bytes(),
            );
            write_writable_parts(head, &[encryption, heart, reset, next], &[], out)
        }
    }
}

fn write_resend_request(
    head: &[FieldRef<'_>],
    begin: u64,
    last: u64,
    out: &mut Vec<u8>,
) -> Result<(), TextFault>
    requires { AreWritable (head.now ++ body_fields (Session (SessionBody.ResendRequest begin last))) }
    ensures { WritesFrame (head.now ++ body_fields (Session (SessionBody.ResendRequest begin last)))
        out.old out.new result }
{
    let mut begin_digits = Buffer::new();
    let mut last_digits = Buffer::new();
    let begin = FieldRef::new(BEGIN_SEQ_NO, begin_digits.format(begin).as_bytes());
    let last = FieldRef::new(END_SEQ_NO, last_digits.format(last).as_bytes());
    write_writable_parts(head, &[begin, last], &[], out)
}

fn write_sequence_reset(
    head: &[FieldRef<'_>],
    fills: bool,
    new_number: u64,
    out: &mut Vec<u8>,
) -> Result<(), TextFault>
    requires { AreWritable (head.now ++ body_fields (reset_or_fill fills new_number)) }
    ensures { WritesFrame (head.now ++ body_fields (reset_or_fill fills new_number)) out.old out.new result }
{
    let mut digits = Buffer::new();
    let new_number = FieldRef::new(NEW_SEQ_NO, digits.format(new_number).as_bytes());
    if fills {
        return write_writable_parts(
            head,
            &[FieldRef::new(GAP_FILL_FLAG, b"Y"), new_number],
            &[],
            out,
        );
    }
    write_writable_parts(
        head,
        &[FieldRef::new(GAP_FILL_FLAG, b"N"), new_number],
        &[],
        out,
    )
}

fn write_reject(head: &[FieldRef<'_>], number: u64, out: &mut Vec<u8>) -> Result<(), TextFault>
    requires { AreWritable (head.now ++ body_fields (Session (SessionBody.Reject number))) }
    ensures { WritesFrame (head.now ++ body_fields (Session (SessionBody.Reject number))) out.old out.new result }
{
    let mut digits = Buffer::new();
    let number = FieldRef::new(REF_SEQ_NUM, digits.format(number).as_bytes());
    write_writable_parts(head, &[number], &[], out)
}

fn write_business_reject(
    head: &[FieldRef<'_>],
    number: Option<u64>,
    out: &mut Vec<u8>,
) -> Result<(), TextFault>
    requires { AreWritable (head.now ++ body_fields (Session (SessionBody.BusinessReject number))) }
    ensures { WritesFrame (head.now ++ body_fields (Session (SessionBody.BusinessReject number)))
        out.old out.new result }
{
    let mut digits = Buffer::new();
    let kind = FieldRef::new(REF_MSG_TYPE, b"D");
    let reason = FieldRef::new(BUSINESS_REJECT_REASON, b"0");
    match number {
        None => write_writable_parts(head, &[kind, reason], &[], out),
        Some(number) => {
            let number = FieldRef::new(REF_SEQ_NUM, digits.format(number).as_bytes());
            write_writable_parts(head, &[number, kind, reason], &[], out)
        }
    }
}

/// A body of a TestReqID (112).
fn write_test_id(head: &[FieldRef<'_>], id: &[u8], out: &mut Vec<u8>) -> Result<(), TextFault>
    requires { AreWritable (head.now ++ body_fields (Session (SessionBody.TestRequest id.now))) }
    ensures { WritesFrame (head.now ++ body_fields (Session (SessionBody.TestRequest id.now))) out.old out.new result }
{
    write_writable_parts(head, &[FieldRef::new(TEST_REQ_ID, id)], &[], out)
}

fn write_heartbeat(
    head: &[FieldRef<'_>],
    id: &Option<TextRef<'_>>,
    out: &mut Vec<u8>,
) -> Result<(), TextFault>
    requires { AreWritable (head.now ++ body_fields (Session (SessionBody.Heartbeat id.now))) }
    ensures { WritesFrame (head.now ++ body_fields (Session (SessionBody.Heartbeat id.now))) out.old out.new result }
{
    match id {
        None => write_writable_parts(head, &[], &[], out),
        Some(id) => write_test_id(head, id.as_bytes(), out),
    }
}

fn write_session(
    head: &[FieldRef<'_>],
    says: &SessionBody<'_>,
    out: &mut Vec<u8>,
) -> Result<(), TextFault>
    requires { AreWritable (head.now ++ body_fields (Session says.now)) }
    ensures { WritesFrame (head.now ++ body_fields (Session says.now)) out.old out.new result }
{
    match says {
        SessionBody::Logon { heart, reset, next } => write_logon(head, *heart, *reset, *next, out),
        SessionBody::Heartbeat { id } => write_heartbeat(head, id, out),
        SessionBody::TestRequest { id } => write_test_id(head, id.as_bytes(), out),
        SessionBody::ResendRequest { begin, last } => {
            write_resend_request(head, *begin, *last, out)
        }
        SessionBody::Reject { number } => write_reject(head, *number, out),
        SessionBody::GapFill { new_number } => write_sequence_reset(head, true, *new_number, out),
        SessionBody::Reset { new_number } => write_sequence_reset(head, false, *new_number, out),
        SessionBody::BusinessReject { number } => write_business_reject(head, *number, out),
        SessionBody::Logout => write_writable_parts(head, &[], &[], out),
    }
}

fn write_body(
    head: &[FieldRef<'_>],
    body: &Body<'_, Fields>,
    out: &mut Vec<u8>,
) -> Result<(), TextFault>
    requires { AreWritable (head.now ++ body_fields body.now) }
    ensures { WritesFrame (head.now ++ body_fields body.now) out.old out.new result }
{
    match body {
        Body::Session(says) => write_session(head, says, out),
        Body::App { fields, .. } => write_writable_parts(head, &[], fields.as_slice(), out),
    }
}

/// The texts of a header, all lent for one time.
#[derive(Drop)]
struct HeaderTexts<'a> {
    kind: &'a [u8],
    sender: &'a [u8],
    target: &'a [u8],
    number: &'a [u8],
    time: &'a [u8],
}

/// The frame of a header with these texts, its two flags, and a body.
fn write_with_header<'a>(
    texts: HeaderTexts<'a>,
    poss_dup: bool,
    poss_resend: bool,
    body: &Body<'_, Fields>,
    out: &mut Vec<u8>,
) -> Result<(), TextFault>
    requires { AreWritable (field 35 texts.kind.now ∷ field 49 texts.sender.now ∷ field 56 texts.target.now
        ∷ field 34 texts.number.now ∷ marks_and_time poss_dup poss_resend texts.time.now ++ body_fields body.now) }
    ensures { WritesFrame (field 35 texts.entry.kind.now ∷ field 49 texts.entry.sender.now
        ∷ field 56 texts.entry.target.now ∷ field 34 texts.entry.number.now
        ∷ marks_and_time poss_dup poss_resend texts.entry.time.now ++ body_fields body.now) out.old out.new result }
{
    let kind = FieldRef::new(MSG_TYPE, texts.kind);
    let sender = FieldRef::new(SENDER_COMP_ID, texts.sender);
    let target = FieldRef::new(TARGET_COMP_ID, texts.target);
    let number = FieldRef::new(MSG_SEQ_NUM, texts.number);
    let dup = FieldRef::new(POSS_DUP_FLAG, b"Y");
    let resend = FieldRef::new(POSS_RESEND, b"Y");
    let time = FieldRef::new(SENDING_TIME, texts.time);
    let original = FieldRef::new(ORIG_SENDING_TIME, texts.time);
    match (poss_dup, poss_resend) {
        (false, false) => write_body(&[kind, sender, target, number, time], body, out),
        (false, true) => write_body(&[kind, sender, target, number, resend, time], body, out),
        (true, false) => {
            write_body(
                &[kind, sender, target, number, dup, time, original],
                body,
                out,
            )
        }
        (true, true) => write_body(
            &[kind, sender, target, number, dup, resend, time, original],
            body,
            out,
        ),
    }
}

/// The frame of a message whose fields have no fault: only its length can be refused.
fn write_message(envelope: &Envelope<'_>, stamp: &Stamp, out: &mut Vec<u8>) -> Result<(), TextFault>
    requires { field_fault envelope.now ≡ None }
    ensures refusal { MatchOption (if is_too_long envelope.now stamp.now then Some TextFault.TooLong else None)
        (IsOkUnless result TextFault.OutOfMemory) (λ fault. result ≡ Err fault) }
    ensures ok { OnOk result (out.new.items ≡ out.old.items ++ frame_text (envelope_fields envelope.now stamp.now)) }
    ensures err { OnErr result (out.new.items ≡ out.old.items) }
    ensures full { result ≡ Err TextFault.OutOfMemory →
        vec_capacity out.old < vec_len out.old + length (frame_text (envelope_fields envelope.now stamp.now)) }
    ensures sender { IsCompId envelope.now.sender }
    ensures target { IsCompId envelope.now.target }
{
    let mut digits = Buffer::new();
    let texts = HeaderTexts {
        kind: kind_of(&envelope.body),
        sender: envelope.sender.as_bytes(),
        target: envelope.target.as_bytes(),
        number: digits.format(envelope.number).as_bytes(),
        time: &stamp_bytes(stamp),
    };
    write_with_header(
        texts,
        envelope.poss_dup,
        envelope.poss_resend,
        &envelope.body,
        out,
    )
}

/// The same, with the message's own faults.
fn write_faultless(
    envelope: &Envelope<'_>,
    stamp: &Stamp,
    out: &mut Vec<u8>,
) -> Result<(), WriteFault>
    requires { field_fault envelope.now ≡ None }
    ensures refusal { MatchOption (envelope_refusal envelope.now stamp.now) (IsOkUnless result WriteFault.OutOfMemory)
        (λ fault. result ≡ Err fault) }
    ensures ok { OnOk result (out.new.items ≡ out.old.items ++ frame_text (envelope_fields envelope.now stamp.now)) }
    ensures err { OnErr result (out.new.items ≡ out.old.items) }
    ensures full { result ≡ Err WriteFault.OutOfMemory →
        vec_capacity out.old < vec_len out.old + length (frame_text (envelope_fields envelope.now stamp.now)) }
    ensures reads_back { OnOk result (ReadsBackAs envelope.now (frame_text (envelope_fields envelope.now stamp.now))) }
{
    match write_message(envelope, stamp, out) {
        Ok(()) => Ok(()),
        Err(TextFault::TooLong) => Err(WriteFault::TooLong),
        Err(TextFault::OutOfMemory) => Err(WriteFault::OutOfMemory),
        Err(TextFault::BadTag) => unreachable!(),
        Err(TextFault::BadValue) => unreachable!(),
    }
}

/// Appends the one written frame of a message that is sent at this time (FIX 4.4 Volume 2).
///
/// `BadValue` names the first field in written order that can't be written: a kind of 35 that is
/// empty, longer than 8 bytes or the session's; 34 outside 1 to 999,999,998; 7, 16, 36 or 45 above
/// 999,999,999; 108 above 999,999; 789 outside 1 to 999,999,999; 112 empty or longer than 64 bytes; an
/// application field with a tag of the header or the frame or outside 1 to 999,999, or with an empty
/// value or SOH in it. Then `TooLong`: the fields take more than 4,096 bytes. Then `OutOfMemory`: `out`
/// has no room for the frame, and no memory is left. A refusal leaves `out` as it was.
pub fn write_envelope(
    envelope: &Envelope<'_>,
    stamp: &Stamp,
    out: &mut Vec<u8>,
) -> Result<(), WriteFault>
    ensures refusal { MatchOption (envelope_refusal envelope.now stamp.now) (IsOkUnless result WriteFault.OutOfMemory)
        (λ fault. result ≡ Err fault) }
    ensures ok { OnOk result (out.new.items ≡ out.old.items ++ frame_text (envelope_fields envelope.now stamp.now)) }
    ensures err { OnErr result (out.new.items ≡ out.old.items) }
    ensures full { result ≡ Err WriteFault.OutOfMemory →
        vec_capacity out.old < vec_len out.old + length (frame_text (envelope_fields envelope.now stamp.now)) }
    ensures reads_back { OnOk result (ReadsBackAs envelope.now (frame_text (envelope_fields envelope.now stamp.now))) }
{
    match field_fault(envelope) {
        Some(fault) => Err(fault),
        None => write_faultless(envelope, stamp, out),
    }
}
