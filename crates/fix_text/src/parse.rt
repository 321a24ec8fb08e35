//! What stands at the front of bytes: a whole frame, the beginning of one, or neither.
ghost use Rattle.std.specs.Prelude.{◌≡◌, ◌<◌, ◌≤◌, ◌*◌, ◌+◌, length, IfOk};
ghost use Rattle.std.specs.Result.{result_map_both};
ghost use Rattle.fix_text.specs.Grammar.{opening};
ghost use Rattle.fix_text.specs.Reading.{literal_at, digit_at, length_at, body_at, trailer_at, frame_at};
ghost use Rattle.fix_text.specs.Waiting.{body_missing, least_length};

use crate::refusal::MAX_BODY;
use std::marker::Model;

const SOH: u8 = 1;

/// Why no whole frame stands at a place.
#[derive(Clone, Copy)]
pub enum NoFrame {
    /// The bytes are the beginning of a frame.
    Short,
    /// No frame begins so.
    Differs,
}

/// A whole frame, which may not be valid, and what follows it.
#[derive(Drop)]
pub struct RawFrame<'a> {
    before: &'a [u8],
    body: &'a [u8],
    check: u32,
    rest: &'a [u8],
}

impl<'a> Model for RawFrame<'a> {
    ghost use Rattle.fix_text.specs.Reading.{RawFrameParts};

    ghost Value = { RawFrameParts };

    ghost view = { λ whole. record {
      before = whole.before.now;
      body = whole.body.now;
      check = whole.check;
      rest = whole.rest.now;
    } };
}

impl<'a> RawFrame<'a> {
    pub fn before(&self) -> &'a [u8]
        ensures { result.now ≡ self.now.before }
    {
        self.before
    }

    pub fn body(&self) -> &'a [u8]
        ensures { result.now ≡ self.now.body }
    {
        self.body
    }

    pub fn check(&self) -> u32
        ensures { result ≡ self.now.check }
    {
        self.check
    }

    pub fn rest(&self) -> &'a [u8]
        ensures { result.now ≡ self.now.rest }
    {
        self.rest
    }
}

fn literal_at<'a>(wanted: &[u8], bytes: &'a [u8]) -> Result<&'a [u8], NoFrame>
    ensures found { result_map_both (λ rest. rest.now) (λ stop. stop) result ≡ literal_at wanted.now bytes.now }
    ensures within { IfOk result (λ rest. length rest.now ≤ length bytes.now) }
{
    match bytes.strip_prefix(wanted) {
        Some(rest) => Ok(rest),
        None if wanted.starts_with(bytes) => Err(NoFrame::Short),
        None => Err(NoFrame::Differs),
    }
}

#[tactic(auto, unfolding(crate::specs::Reading::digit_at))]
fn digit_at(bytes: &[u8]) -> Result<(u32, &[u8]), NoFrame>
    ensures found { result_map_both (λ found. (found.0, found.1.now)) (λ stop. stop) result ≡ digit_at bytes.now }
    ensures small { IfOk result (λ found. found.0 ≤ 9) }
{
    match bytes {
        [] => Err(NoFrame::Short),
        [byte @ b'0'..=b'9', rest @ ..] => Ok((u32::from(*byte - b'0'), rest)),
        [_, ..] => Err(NoFrame::Differs),
    }
}

/// BodyLength, behind `9=`.
#[tactic(auto, unfolding(crate::specs::Reading::length_at))]
#[inline(always)]
fn length_at(bytes: &[u8]) -> Result<(usize, &[u8]), NoFrame>
    ensures found { result_map_both (λ found. (found.0, found.1.now)) (λ stop. stop) result ≡ length_at 6 0 bytes.now }
    ensures positive { IfOk result (λ found. 0 < found.0) }
    ensures bound { IfOk result (λ found. found.0 ≤ 4096) }
    ensures within { IfOk result (λ found. length found.1.now ≤ length bytes.now) }
{
    match bytes {
        // Most bodies have 100 to 999 bytes.
        [
            hundreds @ b'1'..=b'9',
            tens @ b'0'..=b'9',
            ones @ b'0'..=b'9',
            SOH,
            rest @ ..,
        ] => {
            let hundreds = usize::from(*hundreds - b'0');
            let tens = usize::from(*tens - b'0');
            let ones = usize::from(*ones - b'0');
            Ok((10 * (10 * hundreds + tens) + ones, rest))
        }
        _ => length_by_digits(bytes),
    }
}

/// The same, digit by digit.
#[tactic(auto, unfolding(crate::specs::Reading::length_at))]
fn length_by_digits(bytes: &[u8]) -> Result<(usize, &[u8]), NoFrame>
    ensures found { result_map_both (λ found. (found.0, found.1.now)) (λ stop. stop) result ≡ length_at 6 0 bytes.now }
    ensures positive { IfOk result (λ found. 0 < found.0) }
    ensures bound { IfOk result (λ found. found.0 ≤ 4096) }
    ensures within { IfOk result (λ found. length found.1.now ≤ length bytes.now) }
{
    let mut rest = bytes;
    let mut number = 0usize;
    let mut left = 6u32;
    loop {
        match rest {
            [] => {
                let may_end = number <= MAX_BODY && (0 < number || 0 < left);
                return Err(if may_end {
                    NoFrame::Short
                } else {
                    NoFrame::Differs
                });
            }
            [SOH, after @ ..] => {
                let is_size = 0 < number && number <= MAX_BODY;
                return if is_size {
                    Ok((number, after))
                } else {
                    Err(NoFrame::Differs)
                };
            }
            [digit @ b'0'..=b'9', after @ ..] if 0 < left && number <= MAX_BODY => {
                number = 10 * number + usize::from(*digit - b'0');
                left -= 1;
                rest = after;
            }
            _ => return Err(NoFrame::Differs),
        }
    }
}

#[tactic(auto, unfolding(crate::specs::Reading::body_at))]
fn body_at(size: usize, bytes: &[u8]) -> Result<(&[u8], &[u8]), NoFrame>
    requires { 0 < size }
    ensures found { result_map_both (λ found. (found.0.now, found.1.now)) (λ stop. stop) result
        ≡ body_at size bytes.now }
    ensures within { IfOk result (λ found. length found.1.now ≤ length bytes.now) }
{
    if bytes.len() < size {
        return Err(NoFrame::Short);
    }
    if bytes[size - 1] != SOH {
        return Err(NoFrame::Differs);
    }
    Ok(bytes.split_at(size))
}

#[tactic(auto, unfolding(crate::specs::Reading::trailer_at, crate::specs::Reading::literal_at, crate::specs::Reading::digit_at))]
fn trailer_at(bytes: &[u8]) -> Result<(u32, &[u8]), NoFrame>
    ensures { result_map_both (λ found. (found.0, found.1.now)) (λ stop. stop) result ≡ trailer_at bytes.now }
{
    match bytes {
        [
            b'1',
            b'0',
            b'=',
            hundreds @ b'0'..=b'9',
            tens @ b'0'..=b'9',
            ones @ b'0'..=b'9',
            SOH,
            rest @ ..,
        ] => {
            let hundreds = u32::from(*hundreds - b'0');
            let tens = u32::from(*tens - b'0');
            let ones = u32::from(*ones - b'0');
            Ok((100 * hundreds + 10 * tens + ones, rest))
        }
        _ => trailer_by_steps(bytes),
    }
}

/// The same, where it may be cut short or spoilt.
#[tactic(auto, unfolding(crate::specs::Reading::trailer_at))]
fn trailer_by_steps(bytes: &[u8]) -> Result<(u32, &[u8]), NoFrame>
    ensures { result_map_both (λ found. (found.0, found.1.now)) (λ stop. stop) result ≡ trailer_at bytes.now }
{
    let rest = literal_at(b"10=", bytes)?;
    let (hundreds, rest) = digit_at(rest)?;
    let (tens, rest) = digit_at(rest)?;
    let (ones, rest) = digit_at(rest)?;
    let rest = literal_at(b"\x01", rest)?;
    Ok((100 * hundreds + 10 * tens + ones, rest))
}

/// What follows the opening of a frame: BeginString (8) of FIX 4.4, and tag 9.
#[tactic(auto, unfolding(crate::specs::Reading::literal_at))]
#[inline(always)]
fn opening_at(bytes: &[u8]) -> Result<&[u8], NoFrame>
    ensures found { result_map_both (λ rest. rest.now) (λ stop. stop) result ≡ literal_at opening bytes.now }
    ensures within { IfOk result (λ rest. length rest.now ≤ length bytes.now) }
{
    match bytes {
        [
            b'8',
            b'=',
            b'F',
            b'I',
            b'X',
            b'.',
            b'4',
            b'.',
            b'4',
            SOH,
            b'9',
            b'=',
            rest @ ..,
        ] => Ok(rest),
        _ => literal_at(b"8=FIX.4.4\x019=", bytes),
    }
}

/// The frame at the front of the bytes. It looks at no byte of the body but the last.
#[tactic(auto, unfolding(crate::specs::Reading::frame_at))]
pub fn frame_at(bytes: &[u8]) -> Result<RawFrame<'_>, NoFrame>
    ensures { result ≡ frame_at bytes.now }
{
    let digits = opening_at(bytes)?;
    let (size, rest) = length_at(digits)?;
    let (body, trailer) = body_at(size, rest)?;
    let (check, rest) = trailer_at(trailer)?;
    let before = &bytes[..bytes.len() - trailer.len()];
    Ok(RawFrame {
        before,
        body,
        check,
        rest,
    })
}

/// How many bytes of its body are still to come, once its BodyLength (9) is there.
#[tactic(auto, unfolding(crate::specs::Waiting::body_missing))]
fn body_missing(bytes: &[u8]) -> Result<usize, NoFrame>
    ensures found { result ≡ body_missing bytes.now }
    ensures bound { IfOk result (λ missing. missing ≤ 4096) }
{
    let digits = opening_at(bytes)?;
    let (size, rest) = length_at(digits)?;
    Ok(size.saturating_sub(rest.len()))
}

/// The least length at which the beginning of a frame may turn out to be a whole one, or none: before its body is there
/// it can't.
#[inline(never)]
pub fn least_length(bytes: &[u8]) -> usize
    ensures { result ≡ least_length bytes.now }
{
    match body_missing(bytes) {
        Ok(missing) => bytes.len() + missing.max(1),
        Err(_) => bytes.len() + 1,
    }
}
