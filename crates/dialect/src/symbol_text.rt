//! A symbol in one text: the root and, where there is one, the suffix behind a separator.

ghost use Rattle.std.specs.Prelude.{◌≡◌};
ghost use Rattle.leg.specs.Symbol.{joined_text};
ghost use Rattle.dialect.specs.Fields.{required_as};
ghost use Rattle.dialect.specs.JoinedSymbol.{joined_symbol_of};

use crate::fault::DialectFault;
use crate::field_value::required;
use crate::split::split_round;
use crate::tag::SYMBOL;
use arrayvec::ArrayVec;
use fix_tags::AppFields;
use leg::Symbol;

/// The greatest length of a symbol: a root of 6 letters, a separator and 3 letters.
const MAX_LEN: usize = 10;

/// Reads a root of 1 to 6 letters A to Z and, behind the first separator, a suffix of 1 to 3.
#[inline(always)]
#[tactic(auto, unfolding(crate::specs::JoinedSymbol::joined_symbol_of))]
fn read_joined_symbol(separator: u8, text: &[u8]) -> Option<Symbol>
    ensures { result ≡ joined_symbol_of separator text.now }
{
    match split_round(text, separator) {
        None => Symbol::new(text, &[]).ok(),
        Some((_, [])) => None,
        Some((root, suffix)) => Symbol::new(root, suffix).ok(),
    }
}

/// Reads a symbol in the one field Symbol (55).
#[inline(always)]
pub(crate) fn joined_symbol_in(
    separator: u8,
    fields: &AppFields<'_>,
) -> Result<Symbol, DialectFault>
    ensures { result ≡ required_as (joined_symbol_of separator) fields.now 55 }
{
    let text = required(fields, SYMBOL)?;
    read_joined_symbol(separator, text).ok_or(DialectFault::Bad(SYMBOL))
}

/// Reads a symbol as `BRK.B`, or `IBM` where it has no suffix.
pub fn read_symbol(text: &[u8]) -> Option<Symbol>
    ensures { result ≡ joined_symbol_of 46 text.now }
{
    read_joined_symbol(b'.', text)
}

/// The root and, where there is one, the suffix behind the separator.
pub(crate) fn joined_symbol_text(separator: u8, symbol: &Symbol) -> ArrayVec<u8, MAX_LEN>
    ensures { result.items ≡ joined_text separator symbol.now }
{
    let mut text = ArrayVec::new();
    text.try_extend_from_slice(symbol.root()).unwrap();
    let suffix = symbol.suffix();
    if !suffix.is_empty() {
        text.push(separator);
        text.try_extend_from_slice(suffix).unwrap();
    }
    text
}
