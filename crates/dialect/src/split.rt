//! A text in two parts.

ghost use Rattle.std.specs.Prelude.{◌≡◌, ◌==◌, position};
ghost use Rattle.std.specs.Option.{option_map};
ghost use Rattle.dialect.specs.Split.{parts_round};

fn first_place(text: &[u8], byte: u8) -> Option<usize>
    ensures { result ≡ position (λ c. c == byte) text.now }
{
    text.iter().position(|c| *c == byte)
}

/// What stands before the first such byte and what stands after it, where there is one.
pub(crate) fn split_round(text: &[u8], byte: u8) -> Option<(&[u8], &[u8])>
    ensures { option_map (λ parts. (parts.0.now, parts.1.now)) result ≡ parts_round byte text.now }
{
    let at = first_place(text, byte)?;
    Some((&text[..at], &text[at + 1..]))
}
