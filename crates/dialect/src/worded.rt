//! The dialect of a table.

use crate::accepted::{are_extra, is_id_shape, is_mark, is_price_shape, is_symbol_shape};
use crate::fault::DialectFault;
use crate::field_value::is_value;
use crate::mark::has_among;
use crate::shaped;
use crate::spelling::{IdText, Spelling};
use crate::words::Words;
use fix_tags::{AppFields, PriceText};
use fix_text::{FieldRef, FieldSink};
use leg::{LegId, Symbol};
use std::alloc::{AllocError, Global};
use std::marker::Model;

/// The dialect of a table that is taken.
#[derive(Debug, Drop)]
pub struct Worded {
    words: Words,
}

impl Model for Worded {
    ghost use Rattle.std.specs.Prelude.{◌≡◌, true};
    ghost use Rattle.dialect.specs.declared.words.Words.{Words};
    ghost use Rattle.dialect.specs.Words.{is_words};

    ghost Value = { Words };

    ghost view = { λ worded. worded.words };

    ghost invariant = { λ worded. is_words worded.words ≡ true };

    ghost inverse = { λ words. record { words = words } };
}

impl Worded {
    ghost use Rattle.std.specs.Prelude.{◌≡◌, Some, None, if◌then◌else◌};
    ghost use Rattle.dialect.specs.Words.{is_words};

    /// The dialect of a table, or none where the table isn't taken.
    #[tactic(auto, unfolding(crate::specs::Words::is_words))]
    pub fn new(words: Words) -> Option<Worded>
        ensures { result ≡ (if is_words words then Some words else None) }
    {
        let mark = FieldRef::new(words.mark_tag, words.mark_value.as_slice());
        let taken = is_id_shape(&words.id)
            && is_mark(&mark)
            && is_symbol_shape(&words.symbol)
            && is_price_shape(words.price)
            && are_extra(words.mark_tag, words.extra.as_slice());
        if taken { Some(Worded { words }) } else { None }
    }
}

impl Spelling for Worded {
    ghost use Rattle.dialect.specs.Words.{worded};
    ghost use Rattle.dialect.specs.Lemmas.WordedLaws.{worded_is_spelling};

    ghost spelling = { worded };

    fn id_text(&self, id: &LegId) -> IdText {
        shaped::id_text(&self.words.id, id)
    }

    fn read_id(&self, text: &[u8]) -> Option<LegId> {
        shaped::read_id(&self.words.id, text)
    }

    fn mark(&self) -> FieldRef<'_> {
        FieldRef::new(self.words.mark_tag, self.words.mark_value.as_slice())
    }

    fn is_marked(&self, fields: &AppFields<'_>) -> bool {
        let value = self.words.mark_value.as_slice();
        if self.words.mark_among {
            has_among(fields, self.words.mark_tag, value)
        } else {
            is_value(fields, self.words.mark_tag, value)
        }
    }

    fn price_text(&self, price: u64) -> PriceText {
        shaped::price_text(self.words.price, price)
    }

    fn push_symbol<F: FieldSink>(
        &self,
        alloc: Global,
        symbol: &Symbol,
        fields: &mut F,
    ) -> Result<(), AllocError> {
        shaped::push_symbol(&self.words.symbol, alloc, symbol, fields)
    }

    fn extra_len(&self) -> usize {
        self.words.extra.len()
    }

    fn push_extra<F: FieldSink>(&self, alloc: Global, fields: &mut F) -> Result<(), AllocError> {
        shaped::push_extra(alloc, self.words.extra.as_slice(), fields)
    }

    fn read_symbol(&self, fields: &AppFields<'_>) -> Result<Symbol, DialectFault> {
        shaped::read_symbol(&self.words.symbol, fields)
    }

    ghost is_spelling = { worded_is_spelling };
}
