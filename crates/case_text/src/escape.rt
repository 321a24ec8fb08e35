//! Bytes as text that can be read.
ghost use Rattle.std.specs.Prelude.{◌<◌, IfSome, length};

use crate::fault::PlayFault;
use std::alloc::{AllocError, Global};

const SOH: u8 = 1;

/// A digit of `\xNN`.
fn hex_digit(digit: u8) -> Option<u8>
    ensures { IfSome result (λ value. value < 16) }
{
    match digit {
        b'0'..=b'9' => Some(digit - b'0'),
        b'a'..=b'f' => Some(digit - b'a' + 10),
        _ => None,
    }
}

/// The byte that stands behind a `\`, with what follows it.
fn escaped(text: &[u8]) -> Option<(u8, &[u8])>
    ensures { IfSome result (λ found. length found.1.now < length text.now) }
{
    match text {
        [b'x', high, low, rest @ ..] => {
            let byte = hex_digit(*high)? * 16 + hex_digit(*low)?;
            Some((byte, rest))
        }
        [byte @ (b'\\' | b'|'), rest @ ..] => Some((*byte, rest)),
        _ => None,
    }
}

/// The bytes that a text stands for, up to the first `\` that begins no escape.
#[derive(Drop)]
struct Unescaped<'a> {
    text: &'a [u8],
}

impl Iterator for Unescaped<'_> {
    ghost use Rattle.std.specs.Prelude.{length};
    ghost use Rattle.std.specs.Iterator.{at_most};

    type Item = Result<u8, PlayFault>;

    ghost remaining = { λ bytes. at_most (length bytes.text.now) };

    fn next(&mut self) -> Option<Result<u8, PlayFault>> {
        let (byte, rest) = match self.text {
            [] => return None,
            [b'\\', rest @ ..] => match escaped(rest) {
                Some(found) => found,
                None => {
                    self.text = &[];
                    return Some(Err(PlayFault::NotUnderstood));
                }
            },
            [b'|', rest @ ..] => (SOH, rest),
            [byte, rest @ ..] => (*byte, rest),
        };
        self.text = rest;
        Some(Ok(byte))
    }
}

/// The bytes that a text stands for. `NotUnderstood`: it has a `\` that isn't part of `\xNN`, `\\` or `\|`.
pub fn bytes_of(alloc: Global, text: &str) -> Result<Vec<u8>, PlayFault> {
    let mut bytes = Vec::new(alloc);
    for byte in (Unescaped {
        text: text.as_bytes(),
    }) {
        bytes.push(byte?)?;
    }
    Ok(bytes)
}

/// The text that stands for bytes.
pub fn shown(alloc: Global, bytes: &[u8]) -> Result<String, AllocError> {
    let mut text = String::new(alloc);
    for byte in bytes {
        match *byte {
            SOH => text.push('|')?,
            b'|' => text.push_str("\\|")?,
            b'\\' => text.push_str("\\\\")?,
            b' '..=b'~' => text.push(char::from(*byte))?,
            other => write!(text, "\\x{other:02x}")?,
        }
    }
    Ok(text)
}
