//! Bytes as this program's logs have those of a message.
ghost use Rattle.std.specs.Prelude.{◌≡◌, ◌++◌, OnOk};
ghost use Rattle.message_log.specs.Line.{byte_logged, logged};

use arrayvec::ArrayVec;
use desk_words::byte_shown;
use std::alloc::AllocError;

const SOH: u8 = 1;

/// A byte of a message as this program's logs have it.
#[tactic(auto, unfolding(message_log::specs::Line::byte_logged))]
fn byte_logged(byte: u8) -> ArrayVec<u8, 4>
    ensures { result.items ≡ byte_logged byte }
{
    let mut text = ArrayVec::new();
    match byte {
        SOH => text.push(b'|'),
        b'|' => text.try_extend_from_slice(br"\|").unwrap(),
        other => return byte_shown(other),
    }
    text
}

/// Appends bytes as this program's logs have those of a message: `|` for SOH, and an escape for each other byte that
/// isn't printable, for a bar and for a backslash. The only refusal is out of memory.
pub fn append_logged(text: &mut Vec<u8>, bytes: &[u8]) -> Result<(), AllocError>
    ensures { OnOk result (text.new.items ≡ text.old.items ++ logged bytes.now) }
{
    for byte in bytes {
        let piece = byte_logged(*byte);
        text.extend_from_slice(piece.as_slice())?;
    }
    Ok(())
}
