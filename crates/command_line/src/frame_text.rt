//! A frame as it is shown.
ghost use Rattle.std.specs.Prelude.{◌≡◌, ◌++◌, ℕ, List, false, IfOk, OnOk};
ghost use Rattle.command_line.specs.FrameText.{shown_byte, shown, meant, has_soh, read_shown, bytes_of};

use std::alloc::{AllocError, Global};

const SOH: u8 = 1;

/// Appends a byte as it is shown.
fn show_byte(text: &mut Vec<u8>, byte: u8) -> Result<(), AllocError>
    ensures { OnOk result (text.new.items ≡ text.old.items ++ shown_byte byte) }
{
    match byte {
        SOH => text.push(b'|')?,
        b'|' => text.extend_from_slice(b"\\|")?,
        b'\\' => text.extend_from_slice(b"\\\\")?,
        _ => text.push(byte)?,
    }
    Ok(())
}

/// The bytes of a frame with `|` for SOH, and with `\|` and `\\` for a `|` and a `\` of its own.
pub fn shown(alloc: Global, frame: &[u8]) -> Result<Vec<u8>, AllocError>
    ensures { IfOk result (λ text. text.items ≡ shown frame.now) }
{
    let mut text = Vec::with_capacity(alloc, frame.len())?;
    for byte in frame {
        show_byte(&mut text, *byte)?;
    }
    Ok(text)
}

/// The byte that is shown by this one, where no `\` stands before it.
fn meant(byte: u8) -> u8
    ensures { result ≡ meant byte }
{
    if byte == b'|' { SOH } else { byte }
}

/// Whether there is an SOH.
fn has_soh(bytes: &[u8]) -> bool
    ensures { result ≡ has_soh bytes.now }
{
    bytes.iter().any(|byte| *byte == SOH)
}

/// The bytes that are shown so.
fn read_shown(alloc: Global, text: &[u8]) -> Result<Vec<u8>, AllocError>
    ensures { IfOk result (λ bytes. bytes.items ≡ read_shown false text.now) }
{
    let mut bytes = Vec::with_capacity(alloc, text.len())?;
    let mut is_escaped = false;
    for byte in text {
        if is_escaped {
            bytes.push(*byte)?;
            is_escaped = false;
        } else if *byte == b'\\' {
            is_escaped = true;
        } else {
            bytes.push(meant(*byte))?;
        }
    }
    Ok(bytes)
}

/// The bytes of a text: the text's own where it has an SOH, and else those that are shown so, as `shown` shows them.
/// The only refusal is out of memory.
pub fn bytes_of(alloc: Global, text: &[u8]) -> Result<Vec<u8>, AllocError>
    ensures bytes { IfOk result (λ bytes. bytes.items ≡ bytes_of text.now) }
    // What is shown is read back.
    ensures shown { (frame : List ℕ) → text.now ≡ shown frame → IfOk result (λ bytes. bytes.items ≡ frame) }
{
    if !has_soh(text) {
        return read_shown(alloc, text);
    }
    let mut bytes = Vec::with_capacity(alloc, text.len())?;
    bytes.extend_from_slice(text)?;
    Ok(bytes)
}
