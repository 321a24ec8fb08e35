//! The symbol of a security: a root and, where there is one, a suffix.

ghost use Rattle.std.specs.Prelude.{⊤, ◌≡◌, Some};
ghost use Rattle.std.specs.Bool.{OnTrue};
ghost use Rattle.std.specs.List.{All, list_all};
ghost use Rattle.leg.specs.Symbol.{IsLetter, IsRoot, IsSuffix, is_letter, is_root, is_suffix, symbol_of, symbol_text};

use crate::LegFault;
use arrayvec::ArrayVec;
use std::alloc::AllocError;
use std::marker::Model;
use std::{fmt, str};

/// The most letters of a root.
const MAX_ROOT: usize = 6;

/// The most letters of a suffix.
const MAX_SUFFIX: usize = 3;

/// The symbol of a security, as `BRK` with the suffix `B`: Symbol (55) and SymbolSfx (65) of FIX 4.4 Volume 4. The
/// root is 1 to 6 letters A to Z, and the suffix 0 to 3.
#[derive(Debug, PartialEq, Eq, Drop)]
pub struct Symbol {
    root: ArrayVec<u8, MAX_ROOT>,
    suffix: ArrayVec<u8, MAX_SUFFIX>,
}

impl Model for Symbol {
    ghost use Rattle.leg.specs.Symbol.{SymbolParts, IsSymbol};

    ghost Value = { SymbolParts };

    ghost view = { λ s. record { root = s.root.items; suffix = s.suffix.items } };

    ghost invariant = { λ s. IsSymbol (record { root = s.root.items; suffix = s.suffix.items }) };

    ghost inverse = { λ parts. record {
      root = record { items = parts.root };
      suffix = record { items = parts.suffix };
    } };
}

impl Symbol {
    ghost use Rattle.leg.specs.Symbol.{IsSymbol};

    /// L01 unless the root is 1 to 6 letters A to Z and the suffix 0 to 3.
    pub fn new(root: &[u8], suffix: &[u8]) -> Result<Symbol, LegFault>
        ensures { result ≡ symbol_of root.now suffix.now }
    {
        if !is_root(root) || !is_suffix(suffix) {
            return Err(LegFault::BadSymbol);
        }
        Ok(Symbol {
            root: ArrayVec::try_from(root).unwrap(),
            suffix: ArrayVec::try_from(suffix).unwrap(),
        })
    }

    /// The root, 1 to 6 letters.
    pub fn root(&self) -> &[u8]
        ensures value { result.now ≡ self.now.root }
        ensures in_range { IsSymbol self.now }
    {
        self.root.as_slice()
    }

    /// The suffix, empty where the symbol has none.
    pub fn suffix(&self) -> &[u8]
        ensures value { result.now ≡ self.now.suffix }
        ensures in_range { IsSymbol self.now }
    {
        self.suffix.as_slice()
    }
}

fn is_root(text: &[u8]) -> bool
    ensures value { result ≡ is_root text.now }
    ensures meaning { OnTrue result (IsRoot text.now) }
{
    1 <= text.len() && text.len() <= MAX_ROOT && are_letters(text)
}

fn is_suffix(text: &[u8]) -> bool
    ensures value { result ≡ is_suffix text.now }
    ensures meaning { OnTrue result (IsSuffix text.now) }
{
    text.len() <= MAX_SUFFIX && are_letters(text)
}

fn are_letters(text: &[u8]) -> bool
    ensures value { result ≡ list_all is_letter text.now }
    ensures meaning { OnTrue result (All IsLetter text.now) }
{
    text.iter().all(|c| c.is_ascii_uppercase())
}

// Letters are text.
#[tactic(auto, using(crate::proofs::Letters::utf8_of_letters))]
fn text_of(letters: &[u8]) -> &str
    requires { All IsLetter letters.now }
    ensures { result.now ≡ letters.now }
{
    str::from_utf8(letters).unwrap()
}

/// A clone takes no memory and doesn't fail: it is the same symbol.
impl Clone for Symbol {
    ghost is_clone = { λ symbol copy. copy ≡ symbol };

    ghost is_infallible = { λ _. ⊤ };

    fn clone(&self) -> Result<Symbol, AllocError> {
        Ok(Symbol {
            root: self.root.clone()?,
            suffix: self.suffix.clone()?,
        })
    }
}

impl fmt::Display for Symbol {
    ghost output = { λ symbol. Some (symbol_text symbol) };

    fn fmt<W: fmt::Write>(&self, f: &mut fmt::Formatter<W>) -> fmt::Result {
        let root = text_of(self.root());
        let suffix = text_of(self.suffix());
        if suffix.is_empty() {
            write!(f, "{root}")
        } else {
            write!(f, "{root}.{suffix}")
        }
    }
}
