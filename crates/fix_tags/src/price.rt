//! Prices, in ten-thousandths of a dollar.

ghost use Rattle.std.specs.Prelude.{◌≡◌, ℕ, ◌+◌, ◌/◌, ◌%◌, ◌<◌, ◌≤◌, ◌++◌, ◌∷◌, Some, None, option_map, ◌&&◌, if◌then◌else◌, IfSome, length, take, drop, decimal, vec_len, vec_capacity, OnOk, OnErr, IsOkUnless};
ghost use Rattle.fix_tags.specs.Digits.{all_digits, all_zeros, four_digits};
ghost use Rattle.fix_tags.specs.Price.{is_point_or_end, ten_thousandths, price_of, point_and, without_last_zeros, price_short, price_four};

use crate::append::append;
use crate::digits::{digit, leading_number};
use crate::write_fault::WriteFault;
use arrayvec::ArrayVec;
use itoa::Buffer;

/// Ten-thousandths in a dollar.
const DOLLAR: u64 = 10_000;

const MAX_PRICE: u64 = 9_999_999_999;

/// A point and four decimals.
const FRACTION_LEN: usize = 5;

/// The dollars of the greatest `u64`, a point and four decimals.
const MAX_TEXT_LEN: usize = 25;

/// The decimals, where nothing or a point follows the dollars.
#[inline]
fn decimals_after(rest: &[u8]) -> Option<&[u8]>
    ensures { option_map (λ decimals. decimals.now) result
        ≡ (if is_point_or_end rest.now then Some (drop 1 rest.now) else None) }
{
    match rest {
        [] => Some(&[]),
        [b'.', decimals @ ..] => Some(decimals),
        _ => None,
    }
}

/// The first four decimals as a number, where these are digits and only zeros follow.
#[inline(always)]
fn ten_thousandths(decimals: &[u8]) -> Option<u64>
    ensures value { result ≡ (if all_digits decimals.now && all_zeros (drop 4 decimals.now)
        then Some (ten_thousandths decimals.now) else None) }
    ensures within { IfSome result (λ value. value ≤ DOLLAR) }
{
    let mut value = 0;
    let mut unit = DOLLAR / 10;
    for byte in decimals {
        if !byte.is_ascii_digit() || (unit == 0 && *byte != b'0') {
            return None;
        }
        value += u64::from(*byte - b'0') * unit;
        unit /= 10;
    }
    Some(value)
}

/// Reads a price of 1 to 9,999,999,999 ten-thousandths, as `10.25`, `.5` or `5.` (FIX 4.4 Volume 1, data type Price).
/// Past the fourth decimal only zeros are read, however many.
#[inline(always)]
#[tactic(auto, unfolding(crate::specs::Price::price_of))]
pub fn read_price(bytes: &[u8]) -> Option<u64>
    ensures { result ≡ price_of bytes.now }
{
    let (dollars, rest) = leading_number(bytes);
    let decimals = decimals_after(rest)?;
    if rest.len() == bytes.len() && decimals.is_empty() {
        return None;
    }
    let price = dollars * DOLLAR + ten_thousandths(decimals)?;
    if price == 0 || price > MAX_PRICE {
        return None;
    }
    Some(price)
}

/// A point and the four decimals of a price.
#[inline]
fn fraction(price: u64) -> [u8; FRACTION_LEN]
    ensures { result ≡ point_and (four_digits (price % 10_000)) }
{
    let part = price % DOLLAR;
    [
        b'.',
        digit(part, 1_000),
        digit(part, 100),
        digit(part, 10),
        digit(part, 1),
    ]
}

/// How many bytes of its fraction are left of a price that is written short.
#[inline]
fn short_len(price: u64) -> usize
    ensures within { result ≤ FRACTION_LEN }
    ensures text { take result (point_and (four_digits (price % 10_000)))
        ≡ point_and (without_last_zeros (four_digits (price % 10_000))) }
{
    match price % DOLLAR {
        0 => 0,
        part if part % 1_000 == 0 => 2,
        part if part % 100 == 0 => 3,
        part if part % 10 == 0 => 4,
        _ => FRACTION_LEN,
    }
}

/// A written price.
pub type PriceText = ArrayVec<u8, MAX_TEXT_LEN>;

/// The dollars of a price and what is written of its fraction.
#[inline(always)]
fn dollars_and(price: u64, fraction: &[u8]) -> PriceText
    requires { length fraction.now ≤ FRACTION_LEN }
    ensures { result.items ≡ decimal (price / 10_000) ++ fraction.now }
{
    let mut dollars = Buffer::new();
    let mut text = PriceText::new();
    text.try_extend_from_slice(dollars.format(price / DOLLAR).as_bytes())
        .unwrap();
    text.try_extend_from_slice(fraction).unwrap();
    text
}

/// A price with no zeros at the end of its decimals, and no point where none are left: `10.25`, `10`.
#[inline]
#[tactic(auto, unfolding(crate::specs::Price::price_short))]
pub fn price_short_text(price: u64) -> PriceText
    ensures { result.items ≡ price_short price }
{
    dollars_and(price, &fraction(price)[..short_len(price)])
}

/// A price with four decimals: `10.2500`, `10.0000`.
#[inline]
#[tactic(auto, unfolding(crate::specs::Price::price_four))]
pub fn price_four_text(price: u64) -> PriceText
    ensures { result.items ≡ price_four price }
{
    dollars_and(price, &fraction(price))
}

/// Writes a price as `price_short_text` spells it. `OutOfMemory`: `out` is full, and no memory is left.
#[inline]
pub fn write_price_short(price: u64, out: &mut Vec<u8>) -> Result<(), WriteFault>
    ensures ok { OnOk result (out.new.items ≡ out.old.items ++ price_short price) }
    ensures err { OnErr result (out.new.items ≡ out.old.items) }
    ensures only { IsOkUnless result WriteFault.OutOfMemory }
    ensures full { OnErr result (vec_capacity out.old < vec_len out.old + length (price_short price)) }
{
    append(out, price_short_text(price).as_slice())
}

/// Writes a price as `price_four_text` spells it. `OutOfMemory`: `out` is full, and no memory is left.
#[inline]
pub fn write_price_four(price: u64, out: &mut Vec<u8>) -> Result<(), WriteFault>
    ensures ok { OnOk result (out.new.items ≡ out.old.items ++ price_four price) }
    ensures err { OnErr result (out.new.items ≡ out.old.items) }
    ensures only { IsOkUnless result WriteFault.OutOfMemory }
    ensures full { OnErr result (vec_capacity out.old < vec_len out.old + length (price_four price)) }
{
    append(out, price_four_text(price).as_slice())
}
