//! Text of printable ASCII bytes, and the text of others made so.

ghost use Rattle.std.specs.Prelude.{⊤, ◌≡◌, ◌<◌, Some};
ghost use Rattle.std.specs.Bool.{OnTrue};
ghost use Rattle.std.specs.List.{All, list_all};
ghost use Rattle.desk_words.specs.Printable.{IsPrintableByte, IsPrintable, printable_of, is_printable, is_printable_byte, hex_digit, byte_shown, shown};

use arrayvec::ArrayVec;
use std::alloc::AllocError;
use std::marker::Model;
use std::{fmt, str};

/// A text of at most N bytes, each from 0x20 to 0x7E, in the place of N.
#[derive(Debug, PartialEq, Eq, Drop)]
pub struct Printable<const N: usize> {
    bytes: ArrayVec<u8, N>,
}

impl<const N: usize> Model for Printable<N> {
    ghost use Rattle.std.specs.Prelude.{ℕ, List};
    ghost use Rattle.desk_words.specs.Printable.{IsPrintable};

    ghost Value = { List ℕ };

    ghost view = { λ text. text.bytes.items };

    ghost invariant = { λ text. IsPrintable N text.bytes.items };

    ghost inverse = { λ text. record { bytes = record { items = text } } };
}

fn is_printable_byte(byte: u8) -> bool
    ensures value { result ≡ is_printable_byte byte }
    ensures meaning { OnTrue result (IsPrintableByte byte) }
{
    b' ' <= byte && byte <= b'~'
}

fn are_printable_bytes(text: &[u8]) -> bool
    ensures value { result ≡ list_all is_printable_byte text.now }
    ensures meaning { OnTrue result (All IsPrintableByte text.now) }
{
    text.iter().all(|byte| is_printable_byte(*byte))
}

/// Whether a text is at most so many bytes from 0x20 to 0x7E.
fn is_printable(most: usize, text: &[u8]) -> bool
    ensures value { result ≡ is_printable most text.now }
    ensures meaning { OnTrue result (IsPrintable most text.now) }
{
    text.len() <= most && are_printable_bytes(text)
}

impl<const N: usize> Printable<N> {
    ghost use Rattle.desk_words.specs.Printable.{IsPrintable};

    /// The text, or none where it is empty, longer than N bytes or has a byte outside 0x20 to 0x7E.
    pub fn new(text: &[u8]) -> Option<Printable<N>>
        ensures { result ≡ printable_of N text.now }
    {
        if text.is_empty() || !is_printable(N, text) {
            return None;
        }
        let bytes = ArrayVec::try_from(text).unwrap();
        Some(Printable { bytes })
    }

    /// The bytes of the text.
    pub fn as_bytes(&self) -> &[u8]
        ensures value { result.now ≡ self.now }
        ensures in_range { IsPrintable N self.now }
    {
        self.bytes.as_slice()
    }

    /// The text.
    pub fn as_str(&self) -> &str
        ensures { result.now ≡ self.now }
    {
        text_of(self.as_bytes())
    }
}

#[tactic(auto, using(crate::proofs::Ascii::utf8_of_printable))]
fn text_of(bytes: &[u8]) -> &str
    requires { All IsPrintableByte bytes.now }
    ensures { result.now ≡ bytes.now }
{
    str::from_utf8(bytes).unwrap()
}

/// A digit of a byte in lower-case hexadecimal.
fn hex_digit(value: u8) -> u8
    requires { value < 16 }
    ensures { result ≡ hex_digit value }
{
    if value < 10 {
        b'0' + value
    } else {
        b'a' + (value - 10)
    }
}

/// A byte as it is shown: itself where it is printable, `\\` for a backslash, else `\xNN`.
#[tactic(auto, unfolding(crate::specs::Printable::byte_shown))]
pub fn byte_shown(byte: u8) -> ArrayVec<u8, 4>
    ensures value { result.items ≡ byte_shown byte }
    ensures printable { All IsPrintableByte result.items }
{
    let mut text = ArrayVec::new();
    match byte {
        b'\\' => text.try_extend_from_slice(br"\\").unwrap(),
        b' '..=b'~' => text.push(byte),
        _ => {
            text.try_extend_from_slice(br"\x").unwrap();
            text.push(hex_digit(byte / 16));
            text.push(hex_digit(byte % 16));
        }
    }
    text
}

/// Any text as it is shown: printable bytes as they are, `\\` for a backslash and `\xNN` for others, and no more of
/// it than N bytes, with no escape cut.
pub fn shown<const N: usize>(text: &[u8]) -> Printable<N>
    ensures { result ≡ shown N text.now }
{
    let mut bytes = ArrayVec::new();
    for byte in text {
        let piece = byte_shown(*byte);
        if piece.len() > bytes.remaining_capacity() {
            break;
        }
        bytes.try_extend_from_slice(piece.as_slice()).unwrap();
    }
    Printable { bytes }
}

/// A clone takes no memory and doesn't fail: it is the same text.
impl<const N: usize> Clone for Printable<N> {
    ghost is_clone = { λ text copy. copy ≡ text };

    ghost is_infallible = { λ _. ⊤ };

    fn clone(&self) -> Result<Printable<N>, AllocError> {
        Ok(Printable {
            bytes: self.bytes.clone()?,
        })
    }
}

impl<const N: usize> fmt::Display for Printable<N> {
    ghost output = { λ text. Some text };

    fn fmt<W: fmt::Write>(&self, f: &mut fmt::Formatter<W>) -> fmt::Result {
        let text = self.as_str();
        write!(f, "{text}")
    }
}
