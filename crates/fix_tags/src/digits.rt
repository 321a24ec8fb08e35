//! Decimal digits: those that a text begins with, and one of a number.

ghost use Rattle.std.specs.Prelude.{◌≡◌, ◌+◌, ◌^◌, ◌<◌, ◌≤◌, min, length, IfSome};
ghost use Rattle.fix_tags.specs.Digits.{leading_digits, after_digits, digits_number, number_in, all_zeros, digit_at};

/// One more than the greatest number that a field may have.
pub(crate) const CAP: u64 = 1_000_000_000_000;

/// The number that the leading digits write, or `CAP` where it is larger, and what follows them.
#[inline]
pub(crate) fn leading_number(bytes: &[u8]) -> (u64, &[u8])
    ensures value { result.0 ≡ min CAP (digits_number (leading_digits bytes.now)) }
    ensures rest { result.1.now ≡ after_digits bytes.now }
    ensures digits { length (leading_digits bytes.now) + length result.1.now ≡ length bytes.now }
{
    let mut value = 0;
    for (count, byte) in bytes.iter().enumerate() {
        if !byte.is_ascii_digit() {
            return (value, &bytes[count..]);
        }
        value = CAP.min(10 * value + u64::from(*byte - b'0'));
    }
    (value, &[])
}

/// The number that at most four digits write.
#[inline]
pub(crate) fn short_number(bytes: &[u8]) -> Option<u16>
    requires { length bytes.now ≤ 4 }
    ensures value { result ≡ number_in bytes.now }
    ensures within { IfSome result (λ number. number < 10 ^ length bytes.now) }
{
    let mut value = 0;
    for byte in bytes {
        if !byte.is_ascii_digit() {
            return None;
        }
        value = 10 * value + u16::from(*byte - b'0');
    }
    Some(value)
}

/// Whether each byte is `0`.
#[inline]
pub(crate) fn only_zeros(bytes: &[u8]) -> bool
    ensures { result ≡ all_zeros bytes.now }
{
    bytes.iter().all(|byte| *byte == b'0')
}

/// The digit of a number that counts units of this size, as 1, 10 or 100.
#[inline]
pub(crate) fn digit(number: u64, unit: u64) -> u8
    requires { 0 < unit }
    ensures { result ≡ digit_at unit number }
{
    b'0' + (number / unit % 10) as u8
}
