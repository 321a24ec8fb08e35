//! Which messages can be written: the first bad field in written order.
ghost use Rattle.std.specs.Prelude.{◌≡◌};
ghost use Rattle.fix_tags.specs.App.{is_header_tag, is_app_field};
ghost use Rattle.fix_tags.specs.declared.body.Body.TheVariants.{Session};
ghost use Rattle.fix_tags.specs.Message.{is_session_kind, is_app_kind, is_test_id, unless_ok, app_fault, kind_fault, logon_fault, resend_request_fault, body_fault, field_fault};

use crate::body::Body;
use crate::envelope::Envelope;
use crate::limits::{HEART, MAX_KIND, MAX_TEST_ID, MESSAGE_NUMBER, NEXT_NUMBER, REFERENCE};
use crate::session_body::SessionBody;
use crate::tag::{
    BEGIN_SEQ_NO, END_SEQ_NO, HEART_BT_INT, MSG_SEQ_NUM, MSG_TYPE, NEW_SEQ_NO,
    NEXT_EXPECTED_MSG_SEQ_NUM, ORIG_SENDING_TIME, POSS_DUP_FLAG, POSS_RESEND, REF_SEQ_NUM,
    SENDER_COMP_ID, SENDING_TIME, TARGET_COMP_ID, TEST_REQ_ID,
};
use crate::write_fault::WriteFault;
use fix_text::{Field, Fields, can_write_tag, can_write_value};

pub(crate) fn is_session_kind(kind: &[u8]) -> bool
    ensures { result ≡ is_session_kind kind.now }
{
    matches!(
        kind,
        [b'A' | b'0' | b'1' | b'2' | b'3' | b'4' | b'5' | b'j']
    )
}

fn is_app_kind(kind: &[u8]) -> bool
    ensures { result ≡ is_app_kind kind.now }
{
    can_write_value(kind) && kind.len() <= MAX_KIND && !is_session_kind(kind)
}

fn is_test_id(id: &[u8]) -> bool
    ensures { result ≡ is_test_id id.now }
{
    can_write_value(id) && id.len() <= MAX_TEST_ID
}

/// Whether a tag is one of the header.
pub fn is_header_tag(tag: u32) -> bool
    ensures { result ≡ is_header_tag tag }
{
    matches!(
        tag,
        MSG_TYPE
            | SENDER_COMP_ID
            | TARGET_COMP_ID
            | MSG_SEQ_NUM
            | POSS_DUP_FLAG
            | POSS_RESEND
            | SENDING_TIME
            | ORIG_SENDING_TIME
            | 50
            | 57
            | 115
            | 116
            | 128
            | 129
            | 142
            | 143
            | 144
            | 145
            | 347
            | 369
    )
}

fn is_app_field(field: &Field) -> bool
    ensures { result ≡ is_app_field field.now }
{
    can_write_tag(field.tag()) && !is_header_tag(field.tag()) && can_write_value(field.value())
}

/// The fault of a tag, unless its value is as it must be.
fn unless_ok(ok: bool, tag: u32) -> Option<WriteFault>
    ensures { result ≡ unless_ok ok tag }
{
    if ok {
        return None;
    }
    Some(WriteFault::BadValue(tag))
}

fn app_fault(fields: &[Field]) -> Option<WriteFault>
    ensures { result ≡ app_fault fields.now }
{
    for field in fields {
        if !is_app_field(field) {
            return Some(WriteFault::BadValue(field.tag()));
        }
    }
    None
}

fn kind_fault(body: &Body<'_, Fields>) -> Option<WriteFault>
    ensures { result ≡ kind_fault body.now }
{
    match body {
        Body::App { kind, .. } => unless_ok(is_app_kind(kind.as_bytes()), MSG_TYPE),
        _ => None,
    }
}

fn logon_fault(heart: u64, next: Option<u64>) -> Option<WriteFault>
    ensures { result ≡ logon_fault heart next }
{
    if !HEART.contains(heart) {
        return Some(WriteFault::BadValue(HEART_BT_INT));
    }
    match next {
        None => None,
        Some(next) => unless_ok(NEXT_NUMBER.contains(next), NEXT_EXPECTED_MSG_SEQ_NUM),
    }
}

fn resend_request_fault(begin: u64, last: u64) -> Option<WriteFault>
    ensures { result ≡ resend_request_fault begin last }
{
    if !REFERENCE.contains(begin) {
        return Some(WriteFault::BadValue(BEGIN_SEQ_NO));
    }
    unless_ok(REFERENCE.contains(last), END_SEQ_NO)
}

fn session_fault(says: &SessionBody<'_>) -> Option<WriteFault>
    ensures { result ≡ body_fault (Session says.now) }
{
    match says {
        SessionBody::Logon { heart, next, .. } => logon_fault(*heart, *next),
        SessionBody::Heartbeat { id: None }
        | SessionBody::Logout
        | SessionBody::BusinessReject { number: None } => None,
        SessionBody::Heartbeat { id: Some(id) } | SessionBody::TestRequest { id } => {
            unless_ok(is_test_id(id.as_bytes()), TEST_REQ_ID)
        }
        SessionBody::ResendRequest { begin, last } => resend_request_fault(*begin, *last),
        SessionBody::Reject { number }
        | SessionBody::BusinessReject {
            number: Some(number),
        } => { unless_ok(REFERENCE.contains(*number), REF_SEQ_NUM) }
        SessionBody::GapFill { new_number } | SessionBody::Reset { new_number } => {
            unless_ok(REFERENCE.contains(*new_number), NEW_SEQ_NO)
        }
    }
}

fn body_fault(body: &Body<'_, Fields>) -> Option<WriteFault>
    ensures { result ≡ body_fault body.now }
{
    match body {
        Body::Session(says) => session_fault(says),
        Body::App { fields, .. } => app_fault(fields.as_slice()),
    }
}

/// The first field of a message that can't be written, in written order.
pub(crate) fn field_fault(envelope: &Envelope<'_>) -> Option<WriteFault>
    ensures { result ≡ field_fault envelope.now }
{
    if let Some(fault) = kind_fault(&envelope.body) {
        return Some(fault);
    }
    if !MESSAGE_NUMBER.contains(envelope.number) {
        return Some(WriteFault::BadValue(MSG_SEQ_NUM));
    }
    body_fault(&envelope.body)
}
