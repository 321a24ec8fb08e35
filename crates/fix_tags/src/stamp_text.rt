//! Reading and writing time stamps.

ghost use Rattle.std.specs.Prelude.{◌≡◌, ◌+◌, ◌<◌, ◌≤◌, ◌++◌, length, vec_len, vec_capacity, OnOk, OnErr, IsOkUnless};
ghost use Rattle.fix_tags.specs.Stamp.{number_at, has_separators, milli_of, stamp_read, stamp_text};

use crate::append::append;
use crate::digits::{digit, short_number};
use crate::stamp::Stamp;
use crate::write_fault::WriteFault;

/// The length of `YYYYMMDD-HH:MM:SS`.
const SECONDS_LEN: usize = 17;

/// The length of `YYYYMMDD-HH:MM:SS.sss`.
const MILLIS_LEN: usize = 21;

/// Whether the length is that of a stamp, and each separator is at its place.
#[inline]
fn has_separators(bytes: &[u8]) -> bool
    ensures { result ≡ has_separators bytes.now }
{
    (bytes.len() == SECONDS_LEN || (bytes.len() == MILLIS_LEN && bytes[17] == b'.'))
        && bytes[8] == b'-'
        && bytes[11] == b':'
        && bytes[14] == b':'
}

/// The number that two digits write from a place on.
#[inline]
fn two_digits(bytes: &[u8], at: usize) -> Option<u8>
    requires { at + 2 ≤ length bytes.now }
    ensures { result ≡ number_at bytes.now at 2 }
{
    let number = short_number(&bytes[at..at + 2])?;
    Some(number as u8)
}

/// The milliseconds, which are 0 where they are left out.
#[inline]
fn milli(bytes: &[u8]) -> Option<u16>
    ensures { result ≡ milli_of bytes.now }
{
    if bytes.len() < MILLIS_LEN {
        return Some(0);
    }
    short_number(&bytes[18..21])
}

/// Reads `YYYYMMDD-HH:MM:SS`, with or without `.sss`, in the ranges of `Stamp::new`
/// (FIX 4.4 Volume 1, data type UTCTimestamp).
#[tactic(auto, unfolding(crate::specs::Stamp::stamp_read))]
pub fn read_stamp(bytes: &[u8]) -> Option<Stamp>
    ensures { result ≡ stamp_read bytes.now }
{
    if !has_separators(bytes) {
        return None;
    }
    let year = short_number(&bytes[0..4])?;
    let month = two_digits(bytes, 4)?;
    let day = two_digits(bytes, 6)?;
    let hour = two_digits(bytes, 9)?;
    let minute = two_digits(bytes, 12)?;
    let second = two_digits(bytes, 15)?;
    let milli = milli(bytes)?;
    Stamp::new(year, month, day, hour, minute, second, milli)
}

/// The text `YYYYMMDD-HH:MM:SS.sss` of a stamp.
#[tactic(auto, unfolding(crate::specs::Stamp::stamp_text))]
pub fn stamp_bytes(stamp: &Stamp) -> [u8; MILLIS_LEN]
    ensures { result ≡ stamp_text stamp.now }
{
    let (year, milli) = (u64::from(stamp.year()), u64::from(stamp.milli()));
    let (month, day) = (u64::from(stamp.month()), u64::from(stamp.day()));
    let (hour, minute) = (u64::from(stamp.hour()), u64::from(stamp.minute()));
    let second = u64::from(stamp.second());
    [
        digit(year, 1000),
        digit(year, 100),
        digit(year, 10),
        digit(year, 1),
        digit(month, 10),
        digit(month, 1),
        digit(day, 10),
        digit(day, 1),
        b'-',
        digit(hour, 10),
        digit(hour, 1),
        b':',
        digit(minute, 10),
        digit(minute, 1),
        b':',
        digit(second, 10),
        digit(second, 1),
        b'.',
        digit(milli, 100),
        digit(milli, 10),
        digit(milli, 1),
    ]
}

/// Writes `YYYYMMDD-HH:MM:SS.sss`. `OutOfMemory`: `out` is full, and no memory is left.
pub fn write_stamp(stamp: &Stamp, out: &mut Vec<u8>) -> Result<(), WriteFault>
    ensures ok { OnOk result (out.new.items ≡ out.old.items ++ stamp_text stamp.now) }
    ensures err { OnErr result (out.new.items ≡ out.old.items) }
    ensures only { IsOkUnless result WriteFault.OutOfMemory }
    ensures full { OnErr result (vec_capacity out.old < vec_len out.old + length (stamp_text stamp.now)) }
{
    append(out, &stamp_bytes(stamp))
}
