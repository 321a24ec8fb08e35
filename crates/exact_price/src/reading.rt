//! A price that is read exactly.

ghost use Rattle.std.specs.Prelude.{◌≡◌, ◌+◌, ◌≤◌, Some, None, min, length, drop, option_map, if◌then◌else◌, IfSome};
ghost use Rattle.fix_tags.specs.Digits.{leading_digits, after_digits, digits_number};
ghost use Rattle.fix_tags.specs.Price.{is_point_or_end};
ghost use Rattle.exact_price.specs.Exact.{fraction, are_decimals, exact_of};

/// Hundred-millionths in a unit.
const UNIT: u64 = 100_000_000;

/// One more than the units that a price has at most.
const CAP: u64 = 10_000_000_000;

/// The greatest price.
pub const MAX_PRICE: u64 = 999_999_999_999_999_999;

/// The number that the leading digits write, or `CAP` where it is larger, and what follows them.
fn leading_number(bytes: &[u8]) -> (u64, &[u8])
    ensures value { result.0 ≡ min CAP (digits_number (leading_digits bytes.now)) }
    ensures rest { result.1.now ≡ after_digits bytes.now }
    ensures digits { length (leading_digits bytes.now) + length result.1.now ≡ length bytes.now }
{
    let mut value = 0;
    for (count, byte) in bytes.iter().enumerate() {
        if !byte.is_ascii_digit() {
            return (value, &bytes[count..]);
        }
        value = CAP.min(10 * value + u64::from(*byte - b'0'));
    }
    (value, &[])
}

/// The decimals, where nothing or a point follows the units.
fn decimals_after(rest: &[u8]) -> Option<&[u8]>
    ensures { option_map (λ decimals. decimals.now) result
        ≡ (if is_point_or_end rest.now then Some (drop 1 rest.now) else None) }
{
    match rest {
        [] => Some(&[]),
        [b'.', decimals @ ..] => Some(decimals),
        _ => None,
    }
}

/// What decimals count in hundred-millionths, where these are digits and only zeros follow the eighth.
fn fraction_in(decimals: &[u8]) -> Option<u64>
    ensures value { result ≡ (if are_decimals 10_000_000 decimals.now
        then Some (fraction 10_000_000 decimals.now) else None) }
    ensures within { IfSome result (λ value. value ≤ UNIT) }
{
    let mut value = 0;
    let mut unit = UNIT / 10;
    for byte in decimals {
        if !byte.is_ascii_digit() || (unit == 0 && *byte != b'0') {
            return None;
        }
        value += u64::from(*byte - b'0') * unit;
        unit /= 10;
    }
    Some(value)
}

/// Reads a price, as `10.25`, `.5` or `5.`, in hundred-millionths of the currency's unit (FIX 4.4 Volume 1, data type
/// Price). None where it is more than `MAX_PRICE`, has more than eight decimals that aren't zeros, or is no such text.
#[tactic(auto, unfolding(crate::specs::Exact::exact_of))]
pub fn read_exact(text: &[u8]) -> Option<u64>
    ensures value { result ≡ exact_of text.now }
    ensures within { IfSome result (λ price. price ≤ MAX_PRICE) }
{
    let (units, rest) = leading_number(text);
    let decimals = decimals_after(rest)?;
    if rest.len() == text.len() && decimals.is_empty() {
        return None;
    }
    let price = units * UNIT + fraction_in(decimals)?;
    if price > MAX_PRICE {
        return None;
    }
    Some(price)
}
