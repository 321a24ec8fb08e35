//! Writing a frame: one spelling, appended whole or not at all.
ghost use Rattle.std.specs.Prelude.{true, Err, ◌≡◌, ◌+◌, ◌<◌, ◌≤◌, ◌++◌, List, length, drop, vec_len, vec_capacity, IsOkUnless, IsSomeAnd, OnOk, OnErr, MatchOption, ℕ};
ghost use Rattle.std.specs.List.{flat_map};
ghost use Rattle.fix_text.specs.Text.{field_text, fields_text, has_writable_tags, has_writable_values};
ghost use Rattle.fix_text.specs.FrameParts.{all_fields};
ghost use Rattle.fix_text.specs.Frame.{HasRoom, Appends, header_text, trailer_text, framed, frame_text, frame_refusal};

use crate::checksum::sum256;
use crate::fault::TextFault;
use crate::field::{Field, FieldRef, Lend};
use crate::frame_body::FrameBody;
use crate::frame_parts::FrameParts;
use crate::refusal::{check_fields, digit_count, text_length};
use itoa::Buffer;

/// What stands before the digits of BodyLength: BeginString (8) of FIX 4.4, and tag 9.
const BEGIN: &[u8; 12] = b"8=FIX.4.4\x019=";

const SOH: u8 = 1;

/// The bytes of a trailer.
const TRAILER_LEN: usize = 7;

/// The bytes of the longest frame that is written.
pub const MAX_FRAME: usize = 4_120;

/// The length of a frame whose body is of this length.
fn frame_length(body: usize) -> usize
    requires { body ≤ 4096 }
    ensures { (text : List ℕ) → length text ≡ body → length (framed text) ≡ result }
{
    BEGIN.len() + digit_count(body as u32) + 1 + body + TRAILER_LEN
}

/// Appends a text for which there is room.
fn push_text(text: &[u8], out: &mut Vec<u8>)
    requires { HasRoom out.old text.now }
    ensures { Appends out.old out.new text.now }
{
    out.extend_from_slice(text).unwrap();
}

fn push_field(field: &FieldRef<'_>, out: &mut Vec<u8>)
    requires { HasRoom out.old (field_text field.now) }
    ensures { Appends out.old out.new (field_text field.now) }
{
    let mut digits = Buffer::new();
    push_text(digits.format(field.tag()).as_bytes(), out);
    out.push_reserved(b'=');
    push_text(field.value(), out);
    out.push_reserved(SOH);
}

fn push_fields<F: Lend>(fields: &[F], out: &mut Vec<u8>)
    requires { HasRoom out.old (flat_map (λ field. field_text (F.tagged field)) fields.now) }
    ensures { Appends out.old out.new (flat_map (λ field. field_text (F.tagged field)) fields.now) }
{
    for field in fields {
        push_field(&field.lend(), out);
    }
}

#[inline(always)]
fn push_header(body: usize, out: &mut Vec<u8>)
    requires { HasRoom out.old (header_text body) }
    ensures { Appends out.old out.new (header_text body) }
{
    let mut digits = Buffer::new();
    push_text(BEGIN, out);
    push_text(digits.format(body).as_bytes(), out);
    out.push_reserved(SOH);
}

/// The trailer of the bytes from `start` on.
fn push_trailer(start: usize, out: &mut Vec<u8>)
    requires within { start ≤ vec_len out.old }
    requires room { HasRoom out.old (trailer_text (drop start out.old.items)) }
    ensures { Appends out.old out.new (trailer_text (drop start out.old.items)) }
{
    let sum = sum256(&out[start..]);
    let trailer: [u8; TRAILER_LEN] = [
        b'1',
        b'0',
        b'=',
        b'0' + sum / 100,
        b'0' + sum / 10 % 10,
        b'0' + sum % 10,
        SOH,
    ];
    push_text(&trailer, out);
}

/// Appends the frame of fields whose text is of this length, for which there is room.
fn push_frame(length_of_text: usize, parts: &FrameParts<'_>, out: &mut Vec<u8>)
    requires length { length_of_text ≡ length (fields_text (all_fields parts.now)) }
    requires room { HasRoom out.old (frame_text (all_fields parts.now)) }
    ensures { Appends out.old out.new (frame_text (all_fields parts.now)) }
{
    let start = out.len();
    push_header(length_of_text, out);
    push_fields(parts.head, out);
    push_fields(parts.body, out);
    push_fields(parts.rest, out);
    push_trailer(start, out);
}

/// Appends the frame of a body, for which there is room.
fn push_whole(body: &[u8], out: &mut Vec<u8>)
    requires fits { length body.now ≤ 4096 }
    requires room { HasRoom out.old (framed body.now) }
    ensures { Appends out.old out.new (framed body.now) }
{
    let start = out.len();
    push_header(body.len(), out);
    push_text(body, out);
    push_trailer(start, out);
}

/// Appends the one written frame of the fields of `head`, `body` and `rest`, one behind the other, of
/// which each can be written: the only fault left is that they are too long. Otherwise it is as
/// `write_frame_parts`, and looks at no value for what it holds.
pub fn write_writable_parts(
    head: &[FieldRef<'_>],
    body: &[FieldRef<'_>],
    rest: &[Field],
    out: &mut Vec<u8>,
) -> Result<(), TextFault>
    requires tags { has_writable_tags (head.now ++ body.now ++ rest.now) ≡ true }
    requires values { has_writable_values (head.now ++ body.now ++ rest.now) ≡ true }
    ensures refusal { MatchOption (frame_refusal (head.now ++ body.now ++ rest.now))
        (IsOkUnless result TextFault.OutOfMemory) (λ fault. result ≡ Err fault) }
    ensures ok { OnOk result (out.new.items ≡ out.old.items ++ frame_text (head.now ++ body.now ++ rest.now)) }
    ensures err { OnErr result (out.new.items ≡ out.old.items) }
    ensures asked { OnErr result (vec_capacity out.new ≡ vec_capacity out.old) }
    ensures full { result ≡ Err TextFault.OutOfMemory →
        vec_capacity out.old < vec_len out.old + length (frame_text (head.now ++ body.now ++ rest.now)) }
{
    let parts = FrameParts { head, body, rest };
    let length_of_text = text_length(&parts)?;
    if out.reserve(frame_length(length_of_text)).is_err() {
        return Err(TextFault::OutOfMemory);
    }
    push_frame(length_of_text, &parts, out);
    Ok(())
}

/// Appends the one written frame of the fields of `head`, `body` and `rest`, one behind the other,
/// as `write_frame` does of one list. So what lies apart, or is lent, need not be copied.
///
/// Memory is asked for before the first byte, and only where `out` has no room for the frame; a refusal leaves its room
/// as it was.
pub fn write_frame_parts(
    head: &[FieldRef<'_>],
    body: &[FieldRef<'_>],
    rest: &[Field],
    out: &mut Vec<u8>,
) -> Result<(), TextFault>
    ensures refusal { MatchOption (frame_refusal (head.now ++ body.now ++ rest.now))
        (IsOkUnless result TextFault.OutOfMemory) (λ fault. result ≡ Err fault) }
    ensures ok { OnOk result (out.new.items ≡ out.old.items ++ frame_text (head.now ++ body.now ++ rest.now)) }
    ensures err { OnErr result (out.new.items ≡ out.old.items) }
    ensures asked { OnErr result (vec_capacity out.new ≡ vec_capacity out.old) }
    ensures full { result ≡ Err TextFault.OutOfMemory →
        vec_capacity out.old < vec_len out.old + length (frame_text (head.now ++ body.now ++ rest.now)) }
{
    check_fields(&FrameParts { head, body, rest })?;
    write_writable_parts(head, body, rest, out)
}

/// Appends the one written frame of these fields (FIX 4.4 Volume 1, "Message Format"): BeginString
/// (8), BodyLength (9), the fields as they are, and CheckSum (10).
///
/// The first field must be MsgType (35). `BadTag`, `BadValue` and `TooLong` are each tried over all
/// fields before the next; then `OutOfMemory`: `out` has no room for the frame, and no memory is
/// left. A refusal leaves `out` as it was.
pub fn write_frame(fields: &[Field], out: &mut Vec<u8>) -> Result<(), TextFault>
    ensures refusal { MatchOption (frame_refusal fields.now) (IsOkUnless result TextFault.OutOfMemory)
        (λ fault. result ≡ Err fault) }
    ensures ok { OnOk result (out.new.items ≡ out.old.items ++ frame_text fields.now) }
    ensures err { OnErr result (out.new.items ≡ out.old.items) }
    ensures asked { OnErr result (vec_capacity out.new ≡ vec_capacity out.old) }
    ensures full { result ≡ Err TextFault.OutOfMemory →
        vec_capacity out.old < vec_len out.old + length (frame_text fields.now) }
{
    write_frame_parts(&[], &[], fields, out)
}

/// Appends the one written frame of a body: BeginString (8), BodyLength (9), the fields as they were pushed, and
/// CheckSum (10).
///
/// `TooLong`: the fields take more than 1,152 bytes. `OutOfMemory`: `out` has no room for the frame, and no memory is
/// left. A refusal leaves `out` as it was. What the tags and values are is for the caller to know: the first must be
/// MsgType (35), and each one that can be written.
pub fn write_body(body: &FrameBody, out: &mut Vec<u8>) -> Result<(), TextFault>
    ensures refusal { MatchOption body.now (result ≡ Err TextFault.TooLong)
        (λ text. IsOkUnless result TextFault.OutOfMemory) }
    ensures ok { OnOk result (IsSomeAnd body.now (λ text. out.new.items ≡ out.old.items ++ framed text)) }
    ensures err { OnErr result (out.new.items ≡ out.old.items) }
    ensures asked { OnErr result (vec_capacity out.new ≡ vec_capacity out.old) }
    ensures full { result ≡ Err TextFault.OutOfMemory →
        IsSomeAnd body.now (λ text. vec_capacity out.old < vec_len out.old + length (framed text)) }
{
    let Some(text) = body.text() else {
        return Err(TextFault::TooLong);
    };
    if out.reserve(frame_length(text.len())).is_err() {
        return Err(TextFault::OutOfMemory);
    }
    push_whole(text, out);
    Ok(())
}
