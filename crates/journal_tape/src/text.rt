//! The text of a tape.

ghost use Rattle.std.specs.Prelude.{◌≡◌};
ghost use Rattle.journal_tape.specs.Tape.{text};

use memchr::memchr;

/// The text on a tape with these bytes: what stands before the first NUL.
#[tactic(auto, using(crate::proofs::Texts::text_found, crate::proofs::Texts::text_whole))]
pub fn text_of(bytes: &[u8]) -> &[u8]
    ensures { result.now ≡ text bytes.now }
{
    match memchr(0, bytes) {
        Some(end) => &bytes[..end],
        None => bytes,
    }
}
