//! Text within XML.

ghost use Rattle.std.specs.Prelude.{◌≡◌, ◌++◌, IfOk, OnOk, take};
ghost use Rattle.ladder.specs.Escaped.{escaped, escaped_byte, is_odd, printable};

use std::alloc::{AllocError, Global};

/// Whether a byte isn't printable.
fn is_odd(byte: u8) -> bool
    ensures { result ≡ is_odd byte }
{
    byte < 32 || 126 < byte
}

/// A byte, or `?` in the place of one that isn't printable.
fn printable(byte: u8) -> u8
    ensures { result ≡ printable byte }
{
    if is_odd(byte) { b'?' } else { byte }
}

/// Appends a byte as it stands in XML.
fn escape_byte(text: &mut Vec<u8>, byte: u8) -> Result<(), AllocError>
    ensures { OnOk result (text.new.items ≡ text.old.items ++ escaped_byte byte) }
{
    match byte {
        b'&' => text.extend_from_slice(b"&amp;")?,
        b'<' => text.extend_from_slice(b"&lt;")?,
        b'>' => text.extend_from_slice(b"&gt;")?,
        b'"' => text.extend_from_slice(b"&quot;")?,
        _ => text.push(printable(byte))?,
    }
    Ok(())
}

/// A text as it stands in XML.
fn escaped(alloc: Global, raw: &[u8]) -> Result<Vec<u8>, AllocError>
    ensures { IfOk result (λ text. text.items ≡ escaped raw.now) }
{
    let mut text = Vec::with_capacity(alloc, raw.len())?;
    for byte in raw {
        escape_byte(&mut text, *byte)?;
    }
    Ok(text)
}

/// The first bytes of a text, no more than so many.
fn cut(raw: &[u8], most: usize) -> &[u8]
    ensures { result.now ≡ take most raw.now }
{
    if raw.len() <= most {
        return raw;
    }
    &raw[..most]
}

/// The first bytes of a text, no more than so many, as they stand in XML.
pub(crate) fn escaped_to(alloc: Global, most: usize, raw: &[u8]) -> Result<Vec<u8>, AllocError>
    ensures { IfOk result (λ text. text.items ≡ escaped (take most raw.now)) }
{
    escaped(alloc, cut(raw, most))
}
