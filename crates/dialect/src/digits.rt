//! Numbers of a fixed width in a base, in the digits 0 to 9 and a to f.

ghost use Rattle.std.specs.Prelude.{◌≡◌, ◌+◌, ◌++◌, ◌<◌, ◌≤◌, IfSome};
ghost use Rattle.arrayvec.specs.ArrayVec.{array_vec_len};
ghost use Rattle.dialect.specs.Digits.{digit, digit_in, digits, number_up_to, fixed_of};

use arrayvec::ArrayVec;
use leg::MAX_SWEEP;

/// The byte of a digit.
fn digit(value: u64) -> u8
    requires { value < 16 }
    ensures { result ≡ digit value }
{
    let value = value as u8;
    if value < 10 {
        b'0' + value
    } else {
        b'a' + (value - 10)
    }
}

/// The digit of a byte.
fn digit_in(base: u64, byte: u8) -> Option<u64>
    ensures value { result ≡ digit_in base byte }
    ensures below { IfSome result (λ d. d < base) }
{
    let digit = match byte {
        b'0'..=b'9' => byte - b'0',
        b'a'..=b'f' => byte - b'a' + 10,
        _ => return None,
    };
    let digit = u64::from(digit);
    if digit < base { Some(digit) } else { None }
}

/// The number of digits, up to the greatest one.
fn read_digits(base: u64, greatest: u64, text: &[u8]) -> Option<u64>
    requires low { 1 ≤ base }
    requires high { base ≤ 16 }
    requires small { greatest ≤ MAX_SWEEP }
    ensures value { result ≡ number_up_to base greatest 0 text.now }
    ensures within { IfSome result (λ n. n ≤ greatest) }
{
    let mut number = 0;
    for byte in text {
        number = number * base + digit_in(base, *byte)?;
        if number > greatest {
            return None;
        }
    }
    Some(number)
}

/// Reads a number from 1 to the greatest one, in exactly this many digits.
#[tactic(auto, unfolding(crate::specs::Digits::fixed_of))]
pub(crate) fn read_fixed(base: u64, width: usize, greatest: u64, text: &[u8]) -> Option<u64>
    requires base_low { 1 ≤ base }
    requires base_high { base ≤ 16 }
    requires small { greatest ≤ MAX_SWEEP }
    ensures value { result ≡ fixed_of base width greatest text.now }
    ensures low { IfSome result (λ n. 1 ≤ n) }
    ensures high { IfSome result (λ n. n ≤ greatest) }
{
    if text.len() != width {
        return None;
    }
    let number = read_digits(base, greatest, text)?;
    if number < 1 {
        return None;
    }
    Some(number)
}

/// Appends the last digits of a number, this many, with zeros before them, to a text that has room for them.
pub(crate) fn append_digits<const N: usize>(
    base: u64,
    width: usize,
    number: u64,
    text: &mut ArrayVec<u8, N>,
)
    requires low { 1 ≤ base }
    requires high { base ≤ 16 }
    requires room { array_vec_len text.old + width ≤ N }
    ensures value { text.new.items ≡ text.old.items ++ digits base width number }
    ensures len { array_vec_len text.new ≡ array_vec_len text.old + width }
{
    if width > 0 {
        append_digits(base, width - 1, number / base, text);
        text.push(digit(number % base));
    }
}
