//! Reading the body of a message of the session.
ghost use Rattle.std.specs.Prelude.{true, ◌≡◌};
ghost use Rattle.fix_text.specs.FrameFields.{fields_in};
ghost use Rattle.fix_tags.specs.Message.{is_session_kind};
ghost use Rattle.fix_tags.specs.declared.body.Body.TheVariants.{Session};
ghost use Rattle.fix_tags.specs.Reading.{Gives, logon_read, heartbeat_read, test_request_read, resend_request_read, reject_read, sequence_reset_read, business_reject_read, body_read};

use crate::limits::{HEART, MAX_TEST_ID, NEXT_NUMBER, REFERENCE};
use crate::session_body::SessionBody;
use crate::tag::{
    BEGIN_SEQ_NO, END_SEQ_NO, GAP_FILL_FLAG, HEART_BT_INT, NEW_SEQ_NO, NEXT_EXPECTED_MSG_SEQ_NUM,
    REF_SEQ_NUM, RESET_SEQ_NUM_FLAG, TEST_REQ_ID,
};
use crate::tag_fault::TagFault;
use crate::text_ref::TextRef;
use crate::value_at::{flag_at, no_encryption, number_at, number_if_any, test_id_if_any, text_at};
use fix_text::Frame;

fn logon<'a>(frame: &Frame<'a>) -> Result<SessionBody<'a>, TagFault>
    ensures { Gives Session result (logon_read (fields_in frame.now)) }
{
    no_encryption(frame)?;
    let heart = number_at(frame, HEART_BT_INT, HEART)?;
    let reset = flag_at(frame, RESET_SEQ_NUM_FLAG)?;
    let next = number_if_any(frame, NEXT_EXPECTED_MSG_SEQ_NUM, NEXT_NUMBER)?;
    Ok(SessionBody::Logon { heart, reset, next })
}

fn heartbeat<'a>(frame: &Frame<'a>) -> Result<SessionBody<'a>, TagFault>
    ensures { Gives Session result (heartbeat_read (fields_in frame.now)) }
{
    let id = test_id_if_any(frame)?.map(TextRef::new);
    Ok(SessionBody::Heartbeat { id })
}

fn test_request<'a>(frame: &Frame<'a>) -> Result<SessionBody<'a>, TagFault>
    ensures { Gives Session result (test_request_read (fields_in frame.now)) }
{
    let id = TextRef::new(text_at(frame, TEST_REQ_ID, MAX_TEST_ID)?);
    Ok(SessionBody::TestRequest { id })
}

fn resend_request<'a>(frame: &Frame<'a>) -> Result<SessionBody<'a>, TagFault>
    ensures { Gives Session result (resend_request_read (fields_in frame.now)) }
{
    let begin = number_at(frame, BEGIN_SEQ_NO, REFERENCE)?;
    let last = number_at(frame, END_SEQ_NO, REFERENCE)?;
    Ok(SessionBody::ResendRequest { begin, last })
}

fn reject<'a>(frame: &Frame<'a>) -> Result<SessionBody<'a>, TagFault>
    ensures { Gives Session result (reject_read (fields_in frame.now)) }
{
    let number = number_at(frame, REF_SEQ_NUM, REFERENCE)?;
    Ok(SessionBody::Reject { number })
}

fn sequence_reset<'a>(frame: &Frame<'a>) -> Result<SessionBody<'a>, TagFault>
    ensures { Gives Session result (sequence_reset_read (fields_in frame.now)) }
{
    let fills = flag_at(frame, GAP_FILL_FLAG)?;
    let new_number = number_at(frame, NEW_SEQ_NO, REFERENCE)?;
    if fills {
        return Ok(SessionBody::GapFill { new_number });
    }
    Ok(SessionBody::Reset { new_number })
}

fn business_reject<'a>(frame: &Frame<'a>) -> Result<SessionBody<'a>, TagFault>
    ensures { Gives Session result (business_reject_read (fields_in frame.now)) }
{
    let number = number_if_any(frame, REF_SEQ_NUM, REFERENCE)?;
    Ok(SessionBody::BusinessReject { number })
}

/// The body of a kind of the session.
pub(crate) fn session_body<'a>(
    kind: &'a [u8],
    frame: &Frame<'a>,
) -> Result<SessionBody<'a>, TagFault>
    requires { is_session_kind kind.now ≡ true }
    ensures { Gives Session result (body_read kind.entry.now (fields_in frame.now)) }
{
    match kind {
        [b'A'] => logon(frame),
        [b'0'] => heartbeat(frame),
        [b'1'] => test_request(frame),
        [b'2'] => resend_request(frame),
        [b'3'] => reject(frame),
        [b'4'] => sequence_reset(frame),
        [b'5'] => Ok(SessionBody::Logout),
        [b'j'] => business_reject(frame),
        _ => unreachable!(),
    }
}
