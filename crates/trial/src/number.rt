//! The numbers of a command line.

ghost use Rattle.std.specs.Prelude.{◌≤◌, IfSome};

use fix_tags::read_number;

/// A number from 1 on, up to this one.
pub fn number_to(most: u64, text: &str) -> Option<u64>
    ensures least { IfSome result (λ number. 1 ≤ number) }
    ensures most { IfSome result (λ number. number ≤ most) }
{
    match read_number(text.as_bytes()) {
        Some(number) if 1 <= number && number <= most => Some(number),
        _ => None,
    }
}
