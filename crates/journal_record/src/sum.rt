//! The sum over lines.

ghost use Rattle.std.specs.Prelude.{◌≡◌, ◌%◌};
ghost use Rattle.desk_words.specs.Printable.{hex_digit};
ghost use Rattle.journal_record.specs.Record.{mark_text, sum_after, sum_byte};

/// What a sum is multiplied with before a byte is added: odd, so that no change of one byte leaves it.
const FACTOR: u64 = 16_777_619;

const MODULUS: u64 = 4_294_967_296;

/// The length of a sum's digits and the space behind them.
pub(crate) const MARK_LEN: usize = 9;

/// The sum with one byte more.
fn sum_byte(sum: u32, byte: u8) -> u32
    ensures { result ≡ sum_byte sum byte }
{
    ((sum as u64 * FACTOR + byte as u64) % MODULUS) as u32
}

/// The sum with a line more.
pub(crate) fn sum_after(sum: u32, line: &[u8]) -> u32
    ensures { result ≡ sum_after sum line.now }
{
    let mut now = sum;
    for byte in line {
        now = sum_byte(now, *byte);
    }
    now
}

/// A digit of a number in lower-case hexadecimal.
fn digit(number: u32) -> u8
    ensures { result ≡ hex_digit (number % 16) }
{
    let value = (number % 16) as u8;
    if value < 10 {
        b'0' + value
    } else {
        b'a' + (value - 10)
    }
}

/// The digits of a sum, and the space behind them.
pub(crate) fn mark_of(sum: u32) -> [u8; MARK_LEN]
    ensures { result ≡ mark_text sum }
{
    [
        digit(sum / 0x1000_0000),
        digit(sum / 0x100_0000),
        digit(sum / 0x10_0000),
        digit(sum / 0x1_0000),
        digit(sum / 0x1000),
        digit(sum / 0x100),
        digit(sum / 0x10),
        digit(sum),
        b' ',
    ]
}
