//! Reading a message from the fields of a frame.
ghost use Rattle.std.specs.Prelude.{◌≡◌, IfOk, filter};
ghost use Rattle.fix_text.specs.FrameFields.{fields_in};
ghost use Rattle.fix_tags.specs.App.{is_app_tag};
ghost use Rattle.fix_tags.specs.Header.{IsHeader, IsFoundIn};
ghost use Rattle.fix_tags.specs.Readable.{HaveNoSoh, IsReadable};
ghost use Rattle.fix_tags.specs.Reading.{Gives, body_read, message_read, envelope_read};
ghost use Rattle.fix_tags.specs.Says.{IsReadingOf};

use crate::app_fields::AppFields;
use crate::body::{Body, BodyRef};
use crate::envelope::EnvelopeRef;
use crate::header_fields::HeaderFields;
use crate::limits::{MAX_KIND, MESSAGE_NUMBER};
use crate::read_body::session_body;
use crate::tag::{
    MSG_SEQ_NUM, MSG_TYPE, POSS_DUP_FLAG, POSS_RESEND, SENDER_COMP_ID, SENDING_TIME, TARGET_COMP_ID,
};
use crate::tag_fault::TagFault;
use crate::text_ref::TextRef;
use crate::value_at::{firm_of, flag_in, number_of, text_of};
use crate::writable::is_session_kind;
use fix_text::Frame;

/// What stands in the header before the marks.
#[derive(Clone, Copy)]
struct Header<'a> {
    kind: &'a [u8],
    sender: &'a [u8],
    target: &'a [u8],
    number: u64,
}

/// The body of a kind. The fields of an application message are those that are left behind the header's.
#[inline(always)]
#[tactic(auto, using(crate::proofs::Apps::app_kind))]
fn body_of_kind<'a>(
    kind: &'a [u8],
    frame: &Frame<'a>,
    left: Frame<'a>,
) -> Result<BodyRef<'a>, TagFault>
    requires { filter (λ f. is_app_tag f.tag) (fields_in left) ≡ filter (λ f. is_app_tag f.tag) (fields_in frame.now) }
    ensures { Gives (λ body. body) result (body_read kind.entry.now (fields_in frame.now)) }
{
    if is_session_kind(kind) {
        return Ok(Body::Session(session_body(kind, frame)?));
    }
    Ok(Body::App {
        kind: TextRef::new(kind),
        fields: AppFields::new(left),
    })
}

/// The message of this header, from its marks on. It is on a leg's way, and called once: so it is inlined.
#[inline(always)]
fn message<'a>(
    header: Header<'a>,
    found: &HeaderFields<'a>,
    frame: &Frame<'a>,
) -> Result<EnvelopeRef<'a>, TagFault>
    requires header { IsHeader header.kind.now header.sender.now header.target.now header.number (fields_in frame.now) }
    requires found { IsFoundIn found.now (fields_in frame.now) }
    ensures { Gives (λ e. e) result (message_read header.entry.kind.now header.entry.sender.now header.entry.target.now
        header.entry.number (fields_in frame.now)) }
{
    let poss_dup = flag_in(POSS_DUP_FLAG, found.poss_dup)?;
    let poss_resend = flag_in(POSS_RESEND, found.poss_resend)?;
    let body = body_of_kind(header.kind, frame, found.left)?;
    Ok(EnvelopeRef::new(
        header.sender,
        header.target,
        header.number,
        poss_dup,
        poss_resend,
        body,
    ))
}

/// The message of a frame, or the first fault of its fields. Each message that is read goes
/// through it: so it is inlined, with what it calls, where `read_envelope` is called.
#[inline(always)]
#[tactic(auto, unfolding(crate::specs::Reading::envelope_read))]
fn envelope_of<'a>(frame: &Frame<'a>) -> Result<EnvelopeRef<'a>, TagFault>
    ensures { Gives (λ e. e) result (envelope_read (fields_in frame.now)) }
{
    let found = HeaderFields::of(*frame);
    let kind = text_of(MSG_TYPE, found.kind, MAX_KIND)?;
    let sender = firm_of(SENDER_COMP_ID, found.sender)?;
    let target = firm_of(TARGET_COMP_ID, found.target)?;
    let number = number_of(MSG_SEQ_NUM, found.number, MESSAGE_NUMBER)?;
    if found.sending_time.is_none() {
        return Err(TagFault::Missing(SENDING_TIME));
    }
    let header = Header {
        kind,
        sender,
        target,
        number,
    };
    message(header, &found, frame)
}

/// Reads the message of a frame (FIX 4.4 Volume 2, "Standard Message Header" and the messages of the
/// session), with its texts and fields lent from the frame's lender. It takes no memory: an application message's
/// fields stay where the frame has them.
///
/// The fields are tried in the order 35, 49, 56, 34, 52, 43, 97 and then those of the body;
/// `Missing` and `BadField` name the first that isn't there or isn't as it must be.
#[inline(always)]
pub fn read_envelope<'a>(frame: &Frame<'a>) -> Result<EnvelopeRef<'a>, TagFault>
    ensures read { Gives (λ e. e) result (envelope_read (fields_in frame.now)) }
    ensures in_range { IfOk result (λ e. IsReadable e) }
    ensures no_soh { IfOk result (λ e. HaveNoSoh e.body) }
    ensures says { IfOk result (λ e. IsReadingOf e (fields_in frame.now)) }
{
    envelope_of(frame)
}
