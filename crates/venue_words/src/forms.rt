//! How prices and symbols are spelled, as texts.

ghost use Rattle.std.specs.Prelude.{◌≡◌};
ghost use Rattle.venue_words.specs.Forms.{one_byte, price_of_decimals, price_of_text, symbol_of_text};

use dialect::{PriceShape, SymbolShape};

/// Prices of at least so many decimals, 1 to 4.
pub(crate) fn price_of_decimals(decimals: u64) -> Option<PriceShape>
    ensures { result ≡ price_of_decimals decimals }
{
    match decimals {
        1 => Some(PriceShape::Least { more: 0 }),
        2 => Some(PriceShape::Least { more: 1 }),
        3 => Some(PriceShape::Least { more: 2 }),
        4 => Some(PriceShape::Four),
        _ => None,
    }
}

/// Prices as a text names them.
pub(crate) fn price_of_text(text: &str) -> Option<PriceShape>
    ensures { result ≡ price_of_text text.now }
{
    match text {
        "short" => Some(PriceShape::Short),
        "1" => Some(PriceShape::Least { more: 0 }),
        "2" => Some(PriceShape::Least { more: 1 }),
        "3" => Some(PriceShape::Least { more: 2 }),
        "4" => Some(PriceShape::Four),
        _ => None,
    }
}

/// The one byte of a text.
fn one_byte(text: &[u8]) -> Option<SymbolShape>
    ensures { result ≡ one_byte text.now }
{
    match text {
        [separator] => Some(SymbolShape::Joined {
            separator: *separator,
        }),
        _ => None,
    }
}

/// Symbols as a text names them.
pub(crate) fn symbol_of_text(text: &str) -> Option<SymbolShape>
    ensures { result ≡ symbol_of_text text.now }
{
    match text {
        "dot" => Some(SymbolShape::Joined { separator: b'.' }),
        "slash" => Some(SymbolShape::Joined { separator: b'/' }),
        "55+65" => Some(SymbolShape::Parted),
        _ => one_byte(text.as_bytes()),
    }
}
