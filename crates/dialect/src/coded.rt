//! The dialect Coded.

ghost use Rattle.std.specs.Prelude.{◌≡◌, IfOk};
ghost use Rattle.dialect.specs.Coded.{coded_id_text, coded_id_of};

use crate::digits::append_digits;
use crate::fault::DialectFault;
use crate::field_value::is_value;
use crate::fixed_id::{PLACE_DIGITS, read_fixed_id};
use crate::push::push_short;
use crate::spelling::{IdText, Spelling};
use crate::symbol_text::{joined_symbol_in, joined_symbol_text};
use crate::tag::{SWEEP_LEG, SYMBOL};
use fix_tags::{AppFields, PriceText, price_four_text};
use fix_text::{FieldRef, FieldSink};
use leg::{LegId, Symbol};
use std::alloc::{AllocError, Global};

/// Numbers of legs in hexadecimal digits: ClOrdID (11) as `000000000000000c03`, Price (44) as `10.2500`, and Symbol
/// (55) with its suffix behind a slash, as `BRK/B`. The mark of a leg of a sweep is the venue's own field 9001, `Y`.
#[derive(Clone, Copy, Debug, PartialEq, Eq)]
pub struct Coded;

/// The digits of a leg's number are hexadecimal.
const BASE: u64 = 16;

/// How many digits a sweep's number has.
const SWEEP_DIGITS: usize = 16;

/// The value of field 9001 on a leg of a sweep.
const YES: &[u8] = b"Y";

/// What stands before the suffix of a symbol.
const SLASH: u8 = b'/';

#[tactic(auto, unfolding(crate::specs::Coded::coded_id_text))]
fn id_text(id: &LegId) -> IdText
    ensures { result.items ≡ coded_id_text id.now }
{
    let mut text = IdText::new();
    append_digits(BASE, SWEEP_DIGITS, id.sweep(), &mut text);
    append_digits(BASE, PLACE_DIGITS, u64::from(id.place()), &mut text);
    text
}

/// Reads the sweep's number from the first 16 bytes and the place from the others.
#[tactic(auto, unfolding(crate::specs::Coded::coded_id_of))]
fn read_id(text: &[u8]) -> Option<LegId>
    ensures { result ≡ coded_id_of text.now }
{
    let (sweep, place) = text.split_at_checked(SWEEP_DIGITS)?;
    read_fixed_id(BASE, SWEEP_DIGITS, sweep, place)
}

impl Spelling for Coded {
    ghost use Rattle.dialect.specs.Coded.{coded};
    ghost use Rattle.dialect.specs.Lemmas.CodedLaws.{coded_is_spelling};

    ghost spelling = { λ _. coded };

    fn id_text(&self, id: &LegId) -> IdText {
        id_text(id)
    }

    fn read_id(&self, text: &[u8]) -> Option<LegId> {
        read_id(text)
    }

    fn mark(&self) -> FieldRef<'_> {
        FieldRef::new(SWEEP_LEG, YES)
    }

    fn is_marked(&self, fields: &AppFields<'_>) -> bool {
        is_value(fields, SWEEP_LEG, YES)
    }

    fn price_text(&self, price: u64) -> PriceText {
        price_four_text(price)
    }

    fn push_symbol<F: FieldSink>(
        &self,
        alloc: Global,
        symbol: &Symbol,
        fields: &mut F,
    ) -> Result<(), AllocError> {
        push_short(
            alloc,
            SYMBOL,
            joined_symbol_text(SLASH, symbol).as_slice(),
            fields,
        )
    }

    fn extra_len(&self) -> usize {
        0
    }

    fn push_extra<F: FieldSink>(&self, _alloc: Global, _fields: &mut F) -> Result<(), AllocError> {
        Ok(())
    }

    fn read_symbol(&self, fields: &AppFields<'_>) -> Result<Symbol, DialectFault> {
        joined_symbol_in(SLASH, fields)
    }

    ghost is_spelling = { λ _. coded_is_spelling };
}
