//! One byte of a message in the log.

ghost use Rattle.std.specs.Prelude.{◌≡◌, ◌<◌, IfOk, IfSome};
ghost use Rattle.log_text.specs.Message.{IsEscape, IsStep, escaped_step, hex_step, hex_value, plain_step, step};

use crate::fault::LineFault;

const SOH: u8 = 1;

/// How much of an escape was read.
#[derive(Clone, Copy)]
pub enum Escape {
    /// None is open.
    Closed,
    /// A backslash.
    Backslash,
    /// `\x`.
    Hex,
    /// `\x` and its first digit, of this value.
    Digit { high: u8 },
}

/// What a byte of the log gives.
#[derive(Clone, Copy)]
pub enum Step {
    /// A byte of the message, with which an escape is closed.
    Byte(u8),
    /// More of an escape.
    Open(Escape),
}

/// The value of a digit in lower-case hexadecimal.
fn hex_value(digit: u8) -> Option<u8>
    ensures value { result ≡ hex_value digit }
    ensures small { IfSome result (λ value. value < 16) }
{
    match digit {
        b'0'..=b'9' => Some(digit - b'0'),
        b'a'..=b'f' => Some(digit - b'a' + 10),
        _ => None,
    }
}

/// A byte behind no backslash: `|` is SOH, and any other stands for itself.
fn plain_step(byte: u8) -> Result<Step, LineFault>
    ensures { result ≡ plain_step byte }
{
    match byte {
        b'|' => Ok(Step::Byte(SOH)),
        b'\\' => Ok(Step::Open(Escape::Backslash)),
        b' '..=b'~' => Ok(Step::Byte(byte)),
        _ => Err(LineFault::Byte),
    }
}

/// A byte behind a backslash: `|` and `\` stand for themselves, and behind `x` come two digits.
fn escaped_step(byte: u8) -> Result<Step, LineFault>
    ensures { result ≡ escaped_step byte }
{
    match byte {
        b'|' | b'\\' => Ok(Step::Byte(byte)),
        b'x' => Ok(Step::Open(Escape::Hex)),
        _ => Err(LineFault::Escape),
    }
}

/// A byte that is written in two digits, of which the first has this value: one that is neither printable nor SOH.
fn hex_step(high: u8, digit: u8) -> Result<Step, LineFault>
    requires { high < 16 }
    ensures { result ≡ hex_step high digit }
{
    let Some(low) = hex_value(digit) else {
        return Err(LineFault::Escape);
    };
    match 16 * high + low {
        SOH | b' '..=b'~' => Err(LineFault::Escape),
        byte => Ok(Step::Byte(byte)),
    }
}

/// What the next byte gives.
pub fn read_byte(escape: Escape, byte: u8) -> Result<Step, LineFault>
    requires { IsEscape escape }
    ensures gives { result ≡ step escape byte }
    ensures open { IfOk result IsStep }
{
    match escape {
        Escape::Closed => plain_step(byte),
        Escape::Backslash => escaped_step(byte),
        Escape::Hex => match hex_value(byte) {
            Some(high) => Ok(Step::Open(Escape::Digit { high })),
            None => Err(LineFault::Escape),
        },
        Escape::Digit { high } => hex_step(high, byte),
    }
}
