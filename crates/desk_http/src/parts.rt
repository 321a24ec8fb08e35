//! A text in two parts.

ghost use Rattle.std.specs.Prelude.{◌≡◌, ◌==◌, position};
ghost use Rattle.desk_http.specs.Parts.{parts_at};

fn first_place(text: &[u8], byte: u8) -> Option<usize>
    ensures { result ≡ position (λ c. c == byte) text.now }
{
    text.iter().position(|c| *c == byte)
}

/// What stands before the first such byte, and what stands behind it: nothing where there is none.
pub(crate) fn parts_at(text: &[u8], byte: u8) -> (&[u8], &[u8])
    ensures { (result.0.now, result.1.now) ≡ parts_at byte text.now }
{
    match first_place(text, byte) {
        Some(at) => (&text[..at], &text[at + 1..]),
        None => (text, &[]),
    }
}
