//! The dialect Plain.

use crate::fault::DialectFault;
use crate::mark::{INTERMARKET_SWEEP, has_instruction};
use crate::plain_id::{plain_id_text, read_plain_id};
use crate::push::push_short;
use crate::spelling::{IdText, Spelling};
use crate::symbol_text::{joined_symbol_in, joined_symbol_text};
use crate::tag::{EXEC_INST, SYMBOL};
use fix_tags::{AppFields, PriceText, price_short_text};
use fix_text::{FieldRef, FieldSink};
use leg::{LegId, Symbol};
use std::alloc::{AllocError, Global};

/// Each value in its shortest form: ClOrdID (11) as `S12L3`, Price (44) as `10.25`, and Symbol (55) with its suffix
/// behind a point, as `BRK.B`. The mark of a leg of a sweep is ExecInst (18) `f`.
#[derive(Clone, Copy, Debug, PartialEq, Eq)]
pub struct Plain;

/// What stands before the suffix of a symbol.
const POINT: u8 = b'.';

impl Spelling for Plain {
    ghost use Rattle.dialect.specs.Plain.{plain};
    ghost use Rattle.dialect.specs.Lemmas.PlainLaws.{plain_is_spelling};

    ghost spelling = { λ _. plain };

    #[inline(always)]
    fn id_text(&self, id: &LegId) -> IdText {
        plain_id_text(id)
    }

    #[inline(always)]
    fn read_id(&self, text: &[u8]) -> Option<LegId> {
        read_plain_id(text)
    }

    fn mark(&self) -> FieldRef<'_> {
        FieldRef::new(EXEC_INST, INTERMARKET_SWEEP)
    }

    fn is_marked(&self, fields: &AppFields<'_>) -> bool {
        has_instruction(fields, INTERMARKET_SWEEP)
    }

    fn price_text(&self, price: u64) -> PriceText {
        price_short_text(price)
    }

    fn push_symbol<F: FieldSink>(
        &self,
        alloc: Global,
        symbol: &Symbol,
        fields: &mut F,
    ) -> Result<(), AllocError> {
        push_short(
            alloc,
            SYMBOL,
            joined_symbol_text(POINT, symbol).as_slice(),
            fields,
        )
    }

    fn extra_len(&self) -> usize {
        0
    }

    fn push_extra<F: FieldSink>(&self, _alloc: Global, _fields: &mut F) -> Result<(), AllocError> {
        Ok(())
    }

    fn read_symbol(&self, fields: &AppFields<'_>) -> Result<Symbol, DialectFault> {
        joined_symbol_in(POINT, fields)
    }

    ghost is_spelling = { λ _. plain_is_spelling };
}
