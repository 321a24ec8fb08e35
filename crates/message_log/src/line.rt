//! The text of a line.

ghost use Rattle.std.specs.Prelude.{◌≡◌, ◌++◌, ◌∷◌, [], IfOk, IfSome, OnOk};
ghost use Rattle.message_log.specs.Line.{byte_logged, line_text, logged, mark};

use crate::direction::Direction;
use arrayvec::ArrayVec;
use desk_words::byte_shown;
use fix_tags::{Stamp, stamp_bytes};
use std::alloc::{AllocError, Global};

const SOH: u8 = 1;

/// A byte of a message in the log: `|` for SOH, `\|` for a bar, `\\` for a backslash, `\xNN` for a byte that isn't
/// printable, else itself.
#[tactic(auto, unfolding(crate::specs::Line::byte_logged))]
fn byte_logged(byte: u8) -> ArrayVec<u8, 4>
    ensures { result.items ≡ byte_logged byte }
{
    match byte {
        SOH => {
            let mut bar = ArrayVec::new();
            bar.push(b'|');
            bar
        }
        b'|' => {
            let mut bar = ArrayVec::new();
            bar.push(b'\\');
            bar.push(b'|');
            bar
        }
        other => byte_shown(other),
    }
}

/// `>` for a message that was sent, `<` for one that was received, with a space on both sides.
fn mark(direction: Direction) -> &'static [u8]
    ensures { result.now ≡ mark direction }
{
    match direction {
        Direction::Sent => b" > ",
        Direction::Received => b" < ",
    }
}

/// What a byte is logged as, if that is one byte.
#[tactic(auto, unfolding(crate::specs::Line::byte_logged, desk_words::specs::Printable::byte_shown))]
fn one_byte_logged(byte: u8) -> Option<u8>
    ensures { IfSome result (λ shown. byte_logged byte ≡ shown ∷ []) }
{
    match byte {
        SOH => Some(b'|'),
        b'|' => None,
        b'\\' => None,
        b' '..=b'~' => Some(byte),
        _ => None,
    }
}

fn append_byte(line: &mut Vec<u8>, byte: u8) -> Result<(), AllocError>
    ensures { OnOk result (line.new.items ≡ line.old.items ++ byte_logged byte) }
{
    match one_byte_logged(byte) {
        Some(shown) => line.push(shown)?,
        None => line.extend_from_slice(byte_logged(byte).as_slice())?,
    }
    Ok(())
}

fn append_logged(line: &mut Vec<u8>, message: &[u8]) -> Result<(), AllocError>
    ensures { OnOk result (line.new.items ≡ line.old.items ++ logged message.now) }
{
    line.reserve(message.len())?;
    for byte in message {
        append_byte(line, *byte)?;
    }
    Ok(())
}

/// The line of a message, with its end: `20261124-14:30:00.123 > 8=FIX.4.4|9=..|`. Every message is one line, since no
/// byte of it is written that isn't printable.
pub fn log_line(
    alloc: Global,
    stamp: &Stamp,
    direction: Direction,
    message: &[u8],
) -> Result<Vec<u8>, AllocError>
    ensures { IfOk result (λ line. line.items ≡ line_text stamp.now direction message.now) }
{
    let mut line = Vec::new(alloc);
    line.extend_from_slice(&stamp_bytes(stamp))?;
    line.extend_from_slice(mark(direction))?;
    append_logged(&mut line, message)?;
    line.push(b'\n')?;
    Ok(line)
}
