//! The first bytes of a text.

ghost use Rattle.std.specs.Prelude.{⊤, ◌≡◌, ◌≤◌, length};
ghost use Rattle.report_words.specs.Words.{first_of};

use arrayvec::ArrayVec;
use std::alloc::AllocError;
use std::marker::Model;

/// The first N bytes of a text, in the place of N, and whether it has more.
#[derive(Debug, PartialEq, Eq, Drop)]
pub struct FirstWords<const N: usize> {
    bytes: ArrayVec<u8, N>,
    is_cut: bool,
}

impl<const N: usize> Model for FirstWords<N> {
    ghost use Rattle.std.specs.Prelude.{◌≤◌, length};
    ghost use Rattle.report_words.specs.Words.{Words};

    ghost Value = { Words };

    ghost view = { λ words. record { text = words.bytes.items; is_cut = words.is_cut } };

    ghost invariant = { λ words. length words.bytes.items ≤ N };

    ghost inverse = { λ words. record { bytes = record { items = words.text }; is_cut = words.is_cut } };
}

impl<const N: usize> FirstWords<N> {
    /// Those of this text.
    pub fn new(text: &[u8]) -> FirstWords<N>
        ensures { result ≡ first_of N text.now }
    {
        let is_cut = text.len() > N;
        let kept = if is_cut { &text[..N] } else { text };
        let bytes = ArrayVec::try_from(kept).unwrap();
        FirstWords { bytes, is_cut }
    }

    /// Words that were kept: at most N bytes, of a text that has more or not.
    pub(crate) fn of_kept(text: &[u8], is_cut: bool) -> FirstWords<N>
        requires { length text.now ≤ N }
        ensures { result ≡ record { text = text.now; is_cut = is_cut } }
    {
        let bytes = ArrayVec::try_from(text).unwrap();
        FirstWords { bytes, is_cut }
    }

    /// The bytes, as they came.
    pub fn as_bytes(&self) -> &[u8]
        ensures value { result.now ≡ self.now.text }
        ensures few { length self.now.text ≤ N }
    {
        self.bytes.as_slice()
    }

    /// Whether the text had more.
    pub fn is_cut(&self) -> bool
        ensures { result ≡ self.now.is_cut }
    {
        self.is_cut
    }
}

/// A clone takes no memory and doesn't fail: it is the same words.
impl<const N: usize> Clone for FirstWords<N> {
    ghost is_clone = { λ words copy. copy ≡ words };

    ghost is_infallible = { λ _. ⊤ };

    fn clone(&self) -> Result<FirstWords<N>, AllocError> {
        Ok(FirstWords {
            bytes: self.bytes.clone()?,
            is_cut: self.is_cut,
        })
    }
}
