//! Texts that a venue picks: an id or a price that is kept as it came.

ghost use Rattle.std.specs.Prelude.{⊤, ◌≡◌, false};
ghost use Rattle.fix_text.specs.Text.{holds_soh};
ghost use Rattle.dialect.specs.FreeText.{IsFreeText, is_free_text, free_text_of};

use arrayvec::ArrayVec;
use fix_text::can_write_value;
use std::alloc::AllocError;
use std::marker::Model;

/// The most bytes of the id of a report or an order.
pub const MAX_ID: usize = 64;

/// The most bytes of the price of a trade.
pub const MAX_LAST_PX: usize = 20;

/// The id that an exchange gives a report: ExecID (17) and, of a trade that is busted, ExecRefID (19) of an
/// ExecutionReport, FIX 4.4 Volume 4.
pub type ExecId = FreeText<MAX_ID>;

/// The id that an exchange gives an order: OrderID (37) of an ExecutionReport, FIX 4.4 Volume 4.
pub type OrderId = FreeText<MAX_ID>;

/// The price of a trade: LastPx (31) of an ExecutionReport, FIX 4.4 Volume 4. It is never reckoned with.
pub type LastPx = FreeText<MAX_LAST_PX>;

/// A text of 1 to N bytes without SOH, in the place of N, kept as a venue spelled it.
#[derive(Debug, PartialEq, Eq, Hash, Drop)]
pub struct FreeText<const N: usize> {
    bytes: ArrayVec<u8, N>,
}

impl<const N: usize> Model for FreeText<N> {
    ghost use Rattle.std.specs.Prelude.{ℕ, List};
    ghost use Rattle.dialect.specs.FreeText.{IsFreeText};

    ghost Value = { List ℕ };

    ghost view = { λ text. text.bytes.items };

    ghost invariant = { λ text. IsFreeText N text.bytes.items };

    ghost inverse = { λ text. record { bytes = record { items = text } } };
}

/// Whether a text is 1 to `greatest` bytes without SOH, so that it can be the value of a field.
fn is_free_text(greatest: usize, text: &[u8]) -> bool
    ensures { result ≡ is_free_text greatest text.now }
{
    text.len() <= greatest && can_write_value(text)
}

impl<const N: usize> FreeText<N> {
    /// The text, or none where it is empty, longer than N bytes or has a byte SOH.
    #[inline(always)]
    pub fn new(text: &[u8]) -> Option<FreeText<N>>
        ensures { result ≡ free_text_of N text.now }
    {
        if !is_free_text(N, text) {
            return None;
        }
        let bytes = ArrayVec::try_from(text).unwrap();
        Some(FreeText { bytes })
    }

    /// The same of a field's value, which has no SOH: so it isn't searched for one.
    #[inline(always)]
    pub(crate) fn of_value(value: &[u8]) -> Option<FreeText<N>>
        requires { holds_soh value.now ≡ false }
        ensures { result ≡ free_text_of N value.now }
    {
        if value.is_empty() || value.len() > N {
            return None;
        }
        let bytes = ArrayVec::try_from(value).unwrap();
        Some(FreeText { bytes })
    }

    /// The bytes of the text.
    pub fn as_bytes(&self) -> &[u8]
        ensures value { result.now ≡ self.now }
        ensures in_range { IsFreeText N self.now }
    {
        self.bytes.as_slice()
    }
}

/// A clone takes no memory and doesn't fail: it is the same text.
impl<const N: usize> Clone for FreeText<N> {
    ghost is_clone = { λ text copy. copy ≡ text };

    ghost is_infallible = { λ _. ⊤ };

    fn clone(&self) -> Result<FreeText<N>, AllocError> {
        Ok(FreeText {
            bytes: self.bytes.clone()?,
        })
    }
}
