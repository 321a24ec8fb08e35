//! Any of the dialects, where it is known only when the program runs which one it is.

ghost use Rattle.std.specs.Prelude.{◌≡◌};
ghost use Rattle.dialect.specs.DialectName.{dialect_named};

use crate::coded::Coded;
use crate::fault::DialectFault;
use crate::plain::Plain;
use crate::spelling::{IdText, Spelling};
use crate::split4::Split4;
use fix_tags::{AppFields, PriceText};
use fix_text::{FieldRef, FieldSink};
use leg::{LegId, Symbol};
use std::alloc::{AllocError, Global};

/// One of the dialects, each of which spells an order as the type of its name does.
#[derive(Clone, Copy, Debug, PartialEq, Eq)]
pub enum AnyDialect {
    Plain,
    Split4,
    Coded,
}

impl AnyDialect {
    /// The dialect of a name: `plain`, `split` or `coded`.
    pub fn named(name: &str) -> Option<AnyDialect>
        ensures { result ≡ dialect_named name.now }
    {
        match name {
            "plain" => Some(AnyDialect::Plain),
            "split" => Some(AnyDialect::Split4),
            "coded" => Some(AnyDialect::Coded),
            _ => None,
        }
    }
}

impl Spelling for AnyDialect {
    ghost use Rattle.dialect.specs.Any.{any_spelling};
    ghost use Rattle.dialect.specs.Lemmas.AnyLaws.{any_is_spelling};

    ghost spelling = { any_spelling };

    fn id_text(&self, id: &LegId) -> IdText {
        match self {
            AnyDialect::Plain => Plain.id_text(id),
            AnyDialect::Split4 => Split4.id_text(id),
            AnyDialect::Coded => Coded.id_text(id),
        }
    }

    fn read_id(&self, text: &[u8]) -> Option<LegId> {
        match self {
            AnyDialect::Plain => Plain.read_id(text),
            AnyDialect::Split4 => Split4.read_id(text),
            AnyDialect::Coded => Coded.read_id(text),
        }
    }

    fn mark(&self) -> FieldRef<'_> {
        match self {
            AnyDialect::Plain => Plain.mark(),
            AnyDialect::Split4 => Split4.mark(),
            AnyDialect::Coded => Coded.mark(),
        }
    }

    fn is_marked(&self, fields: &AppFields<'_>) -> bool {
        match self {
            AnyDialect::Plain => Plain.is_marked(fields),
            AnyDialect::Split4 => Split4.is_marked(fields),
            AnyDialect::Coded => Coded.is_marked(fields),
        }
    }

    fn price_text(&self, price: u64) -> PriceText {
        match self {
            AnyDialect::Plain => Plain.price_text(price),
            AnyDialect::Split4 => Split4.price_text(price),
            AnyDialect::Coded => Coded.price_text(price),
        }
    }

    fn push_symbol<F: FieldSink>(
        &self,
        alloc: Global,
        symbol: &Symbol,
        fields: &mut F,
    ) -> Result<(), AllocError> {
        match self {
            AnyDialect::Plain => Plain.push_symbol(alloc, symbol, fields),
            AnyDialect::Split4 => Split4.push_symbol(alloc, symbol, fields),
            AnyDialect::Coded => Coded.push_symbol(alloc, symbol, fields),
        }
    }

    fn extra_len(&self) -> usize {
        match self {
            AnyDialect::Plain => Plain.extra_len(),
            AnyDialect::Split4 => Split4.extra_len(),
            AnyDialect::Coded => Coded.extra_len(),
        }
    }

    fn push_extra<F: FieldSink>(&self, alloc: Global, fields: &mut F) -> Result<(), AllocError> {
        match self {
            AnyDialect::Plain => Plain.push_extra(alloc, fields),
            AnyDialect::Split4 => Split4.push_extra(alloc, fields),
            AnyDialect::Coded => Coded.push_extra(alloc, fields),
        }
    }

    fn read_symbol(&self, fields: &AppFields<'_>) -> Result<Symbol, DialectFault> {
        match self {
            AnyDialect::Plain => Plain.read_symbol(fields),
            AnyDialect::Split4 => Split4.read_symbol(fields),
            AnyDialect::Coded => Coded.read_symbol(fields),
        }
    }

    ghost is_spelling = { any_is_spelling };
}
