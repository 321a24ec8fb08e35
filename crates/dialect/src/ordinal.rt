//! Numbers that count from 1, in their shortest form.

ghost use Rattle.std.specs.Prelude.{◌≡◌, ◌≤◌, IfSome};
ghost use Rattle.dialect.specs.Ordinal.{ordinal_of, begins_with_zero};

use fix_tags::read_number;

fn begins_with_zero(text: &[u8]) -> bool
    ensures { result ≡ begins_with_zero text.now }
{
    matches!(text, [b'0', ..])
}

/// Reads a number from 1 to the greatest one that is written with no leading zero.
pub(crate) fn read_ordinal(text: &[u8], greatest: u64) -> Option<u64>
    ensures value { result ≡ ordinal_of greatest text.now }
    ensures low { IfSome result (λ n. 1 ≤ n) }
    ensures high { IfSome result (λ n. n ≤ greatest) }
{
    if begins_with_zero(text) {
        return None;
    }
    let number = read_number(text)?;
    if number > greatest {
        return None;
    }
    Some(number)
}
