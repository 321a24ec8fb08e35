//! Fences: a fence is a TestRequest whose id is `F` and its own number.

ghost use Rattle.std.specs.Prelude.{◌≡◌};
ghost use Rattle.std.specs.Str.{bytes_eq};
ghost use Rattle.session_core.specs.Turn.{fence_id};
ghost use Rattle.session_core.specs.Receiving.{fence_in};

use arrayvec::ArrayVec;
use itoa::Buffer;

/// The most bytes of a fence's id: the letter, and the digits of any number.
const MAX_FENCE_ID: usize = 21;

/// The id of a fence, in the place of as many bytes.
pub(crate) type FenceId = ArrayVec<u8, MAX_FENCE_ID>;

/// The id of the fence under a number.
pub(crate) fn fence_id_text(number: u64) -> FenceId
    ensures { result.items ≡ fence_id number }
{
    let mut digits = Buffer::new();
    let mut text = FenceId::new();
    text.push(b'F');
    text.try_extend_from_slice(digits.format(number).as_bytes())
        .unwrap();
    text
}

/// Whether an id names the fence under a number.
fn names(id: &[u8], number: u64) -> bool
    ensures { result ≡ bytes_eq id.now (fence_id number) }
{
    let text = fence_id_text(number);
    id == text.as_slice()
}

/// The fence that an id names.
pub(crate) fn first_named(fences: &[u64], id: &[u8]) -> Option<u64>
    ensures { result ≡ fence_in id.now fences.now }
{
    for fence in fences {
        if names(id, *fence) {
            return Some(*fence);
        }
    }
    None
}
