//! What the header of a frame says.

ghost use Rattle.std.specs.Prelude.{◌≡◌, ◌<◌, ◌≤◌, length, IfSome};
ghost use Rattle.std.specs.Option.{option_map};
ghost use Rattle.fix_text.specs.Reading.{length_at};
ghost use Rattle.day_log.specs.Messages.{head_of, is_one_frame, size_of};

const SOH: u8 = 1;

/// BeginString (8), and the tag of BodyLength (9).
const OPENING: &[u8; 12] = b"8=FIX.4.4\x019=";

/// How many bytes a trailer has: `10=ddd|`.
const TRAILER: usize = 7;

/// The greatest BodyLength, and how many digits it may have.
const MAX_BODY: usize = 4_096;

const MAX_DIGITS: u32 = 6;

/// The place of MsgType (35) among a message's fields, from 0.
const MSG_TYPE_AT: usize = 2;

/// Where the body of a frame begins, and where the frame ends, as its BodyLength (9) has it.
#[derive(Clone, Copy)]
pub(crate) struct FrameHead {
    pub(crate) body: usize,
    pub(crate) end: usize,
}

/// BodyLength, behind `9=`, and what follows it.
#[tactic(auto, unfolding(fix_text::specs::Reading::length_at))]
fn size_of(bytes: &[u8]) -> Option<(usize, &[u8])>
    ensures found { option_map (λ found. (found.0, found.1.now)) result ≡ size_of (length_at 6 0 bytes.now) }
    ensures bound { IfSome result (λ found. found.0 ≤ 4096) }
    ensures within { IfSome result (λ found. length found.1.now ≤ length bytes.now) }
{
    let mut rest = bytes;
    let mut number = 0usize;
    let mut left = MAX_DIGITS;
    loop {
        match rest {
            [] => return None,
            [SOH, after @ ..] => {
                let is_size = 0 < number && number <= MAX_BODY;
                return if is_size { Some((number, after)) } else { None };
            }
            [digit @ b'0'..=b'9', after @ ..] if 0 < left && number <= MAX_BODY => {
                number = 10 * number + usize::from(*digit - b'0');
                left -= 1;
                rest = after;
            }
            _ => return None,
        }
    }
}

/// The head of the frame that begins these bytes, if one does. It looks at the header alone.
pub(crate) fn head_of(bytes: &[u8]) -> Option<FrameHead>
    ensures value { result ≡ head_of bytes.now }
    ensures some { IfSome result (λ head. 0 < head.end) }
{
    let digits = bytes.strip_prefix(OPENING)?;
    match size_of(digits) {
        Some((size, rest)) => {
            let body = bytes.len() - rest.len();
            Some(FrameHead {
                body,
                end: body + size + TRAILER,
            })
        }
        None => None,
    }
}

/// Whether these bytes are one frame, as its BodyLength has it.
pub(crate) fn is_one_frame(bytes: &[u8]) -> bool
    ensures { result ≡ is_one_frame bytes.now }
{
    match head_of(bytes) {
        Some(head) => head.end == bytes.len(),
        None => false,
    }
}

/// Whether the third field of a message is this one, a MsgType (35) with its SOH (FIX 4.4 Volume 2, "Standard Message
/// Header").
pub(crate) fn has_type(message: &[u8], field: &[u8; 5]) -> bool {
    match head_of(message) {
        Some(head) => match message.get(head.body..) {
            Some(body) => body.starts_with(field),
            None => false,
        },
        None => message.split(|byte| *byte == SOH).nth(MSG_TYPE_AT) == Some(&field[..4]),
    }
}
