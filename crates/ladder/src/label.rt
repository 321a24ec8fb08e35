//! What is written at a frame.

ghost use Rattle.std.specs.Prelude.{◌≡◌, ◌++◌, ◌∷◌, IfOk, OnOk};
ghost use Rattle.ladder.specs.Label.{label_text};

use fix_text::FrameReader;
use std::alloc::{AllocError, Global};
use venue_replay::Frame;

/// MsgType (35), MsgSeqNum (34), and what tells of which leg or number a message speaks: the id of an order (11), of a
/// test request (112), the first number of a resend request (7) and the new one of a gap fill (36), ExecType (150).
const KIND: u32 = 35;

const SEQUENCE: u32 = 34;

const ORDER: u32 = 11;

const TEST: u32 = 112;

const BEGIN: u32 = 7;

const NEW: u32 = 36;

const EXEC_TYPE: u32 = 150;

/// The name of a kind (FIX 4.4 Volume 2 and 4), as it stands behind it.
fn kind_name(kind: &[u8]) -> &'static [u8] {
    match kind {
        b"A" => b" Logon",
        b"0" => b" Heartbeat",
        b"1" => b" TestRequest",
        b"2" => b" ResendRequest from",
        b"3" => b" Reject",
        b"4" => b" gap fill to",
        b"5" => b" Logout",
        b"8" => b"",
        b"D" => b" order",
        b"j" => b" BusinessReject",
        _ => b"",
    }
}

/// The name of what a report tells, by its ExecType (150), as it stands behind the kind.
fn report_name(exec: &[u8]) -> &'static [u8] {
    match exec {
        b"0" => b" New",
        b"4" => b" Canceled",
        b"8" => b" Rejected",
        b"C" => b" Expired",
        b"F" => b" Trade",
        b"H" => b" Trade Cancel",
        _ => b"",
    }
}

/// Appends a word, behind a space.
fn add_word(text: &mut Vec<u8>, word: &[u8]) -> Result<(), AllocError>
    ensures { OnOk result (text.new.items ≡ text.old.items ++ 32 ∷ word.now) }
{
    text.push(b' ')?;
    text.extend_from_slice(word)
}

/// The label of a message: its frame's number, counted from 1, its own (34), its kind (35) with its name, and
/// what it speaks of.
fn label_text(
    alloc: Global,
    number: u64,
    sequence: &[u8],
    kind: &[u8],
    name: &[u8],
    about: &[u8],
) -> Result<Vec<u8>, AllocError>
    ensures { IfOk result (λ text. text.items
        ≡ label_text number sequence.now kind.now name.now about.now) }
{
    let mut text = format!(in alloc; "{number}: 34=")?.into_bytes();
    text.extend_from_slice(sequence)?;
    text.extend_from_slice(b" 35=")?;
    text.extend_from_slice(kind)?;
    text.extend_from_slice(name)?;
    text.extend_from_slice(about)?;
    Ok(text)
}

/// The value of a tag, or no bytes.
fn value_of<'a>(frame: &fix_text::Frame<'a>, tag: u32) -> &'a [u8] {
    match frame.get(tag) {
        Some(value) => value,
        None => b"",
    }
}

/// What a message speaks of, each word behind a space.
fn about_of(alloc: Global, frame: &fix_text::Frame<'_>) -> Result<Vec<u8>, AllocError> {
    let mut text = Vec::new(alloc);
    text.extend_from_slice(report_name(value_of(frame, EXEC_TYPE)))?;
    for tag in [ORDER, TEST, BEGIN, NEW] {
        if let Some(value) = frame.get(tag) {
            add_word(&mut text, value)?;
        }
    }
    Ok(text)
}

/// The label of a frame that was read.
fn label_of(
    alloc: Global,
    number: u64,
    frame: &fix_text::Frame<'_>,
) -> Result<Vec<u8>, AllocError> {
    let kind = value_of(frame, KIND);
    let about = about_of(alloc, frame)?;
    label_text(
        alloc,
        number,
        value_of(frame, SEQUENCE),
        kind,
        kind_name(kind),
        &about,
    )
}

/// The label of a frame of this number, as `3: 34=3 35=D order S1L1`. The ids are as the frame spells them.
pub(crate) fn label(alloc: Global, number: u64, frame: &Frame) -> Result<Vec<u8>, AllocError> {
    let mut stream = FrameReader::new(alloc);
    if stream.feed(&frame.bytes).is_err() {
        return Err(AllocError);
    }
    match stream.next() {
        Ok(Some(frame)) => label_of(alloc, number, &frame),
        Ok(None) => Ok(Vec::new(alloc)),
        Err(_) => Err(AllocError),
    }
}
