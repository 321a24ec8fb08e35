//! The dialect of a venue.

use dialect::{Coded, DialectFault, IdText, Plain, Spelling, Split4, Worded};
use fix_tags::{AppFields, PriceText};
use fix_text::{FieldRef, FieldSink};
use leg::{LegId, Symbol};
use std::alloc::{AllocError, Global};

/// A dialect that a venue of a desk's file has: one of those with a name, or that of a table.
#[derive(Debug, Drop)]
pub enum VenueDialect {
    Plain,
    Split4,
    Coded,
    Worded(Worded),
}

impl Spelling for VenueDialect {
    ghost use Rattle.venue_words.specs.Dialect.{venue_spelling};
    ghost use Rattle.venue_words.specs.Lemmas.VenueLaws.{venue_is_spelling};

    ghost spelling = { venue_spelling };

    fn id_text(&self, id: &LegId) -> IdText {
        match self {
            VenueDialect::Plain => Plain.id_text(id),
            VenueDialect::Split4 => Split4.id_text(id),
            VenueDialect::Coded => Coded.id_text(id),
            VenueDialect::Worded(table) => table.id_text(id),
        }
    }

    fn read_id(&self, text: &[u8]) -> Option<LegId> {
        match self {
            VenueDialect::Plain => Plain.read_id(text),
            VenueDialect::Split4 => Split4.read_id(text),
            VenueDialect::Coded => Coded.read_id(text),
            VenueDialect::Worded(table) => table.read_id(text),
        }
    }

    fn mark(&self) -> FieldRef<'_> {
        match self {
            VenueDialect::Plain => Plain.mark(),
            VenueDialect::Split4 => Split4.mark(),
            VenueDialect::Coded => Coded.mark(),
            VenueDialect::Worded(table) => table.mark(),
        }
    }

    fn is_marked(&self, fields: &AppFields<'_>) -> bool {
        match self {
            VenueDialect::Plain => Plain.is_marked(fields),
            VenueDialect::Split4 => Split4.is_marked(fields),
            VenueDialect::Coded => Coded.is_marked(fields),
            VenueDialect::Worded(table) => table.is_marked(fields),
        }
    }

    fn price_text(&self, price: u64) -> PriceText {
        match self {
            VenueDialect::Plain => Plain.price_text(price),
            VenueDialect::Split4 => Split4.price_text(price),
            VenueDialect::Coded => Coded.price_text(price),
            VenueDialect::Worded(table) => table.price_text(price),
        }
    }

    fn push_symbol<F: FieldSink>(
        &self,
        alloc: Global,
        symbol: &Symbol,
        fields: &mut F,
    ) -> Result<(), AllocError> {
        match self {
            VenueDialect::Plain => Plain.push_symbol(alloc, symbol, fields),
            VenueDialect::Split4 => Split4.push_symbol(alloc, symbol, fields),
            VenueDialect::Coded => Coded.push_symbol(alloc, symbol, fields),
            VenueDialect::Worded(table) => table.push_symbol(alloc, symbol, fields),
        }
    }

    fn extra_len(&self) -> usize {
        match self {
            VenueDialect::Plain => Plain.extra_len(),
            VenueDialect::Split4 => Split4.extra_len(),
            VenueDialect::Coded => Coded.extra_len(),
            VenueDialect::Worded(table) => table.extra_len(),
        }
    }

    fn push_extra<F: FieldSink>(&self, alloc: Global, fields: &mut F) -> Result<(), AllocError> {
        match self {
            VenueDialect::Plain => Plain.push_extra(alloc, fields),
            VenueDialect::Split4 => Split4.push_extra(alloc, fields),
            VenueDialect::Coded => Coded.push_extra(alloc, fields),
            VenueDialect::Worded(table) => table.push_extra(alloc, fields),
        }
    }

    fn read_symbol(&self, fields: &AppFields<'_>) -> Result<Symbol, DialectFault> {
        match self {
            VenueDialect::Plain => Plain.read_symbol(fields),
            VenueDialect::Split4 => Split4.read_symbol(fields),
            VenueDialect::Coded => Coded.read_symbol(fields),
            VenueDialect::Worded(table) => table.read_symbol(fields),
        }
    }

    ghost is_spelling = { venue_is_spelling };
}
