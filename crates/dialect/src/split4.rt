//! The dialect Split4.

ghost use Rattle.std.specs.Prelude.{◌≡◌};
ghost use Rattle.dialect.specs.Fields.{required_as};
ghost use Rattle.dialect.specs.Split4.{split4_id_text, split4_id_of, root_of, with_suffix, split4_symbol_in};

use crate::digits::append_digits;
use crate::fault::DialectFault;
use crate::field_value::required;
use crate::fixed_id::{PLACE_DIGITS, read_fixed_id};
use crate::mark::{INTERMARKET_SWEEP, has_instruction};
use crate::push::push_short;
use crate::spelling::{IdText, Spelling};
use crate::split::split_round;
use crate::tag::{EXEC_INST, SYMBOL, SYMBOL_SFX};
use fix_tags::{AppFields, PriceText, price_four_text};
use fix_text::{FieldRef, FieldSink};
use leg::{LegId, Symbol};
use std::alloc::{AllocError, Global};

/// Numbers in full and a symbol in two fields: ClOrdID (11) as `000000000012-03`, Price (44) as `10.2500`, and the
/// root of a symbol in Symbol (55), its suffix, where it has one, in SymbolSfx (65). The mark of a leg of a sweep is
/// ExecInst (18) `f`.
#[derive(Clone, Copy, Debug, PartialEq, Eq)]
pub struct Split4;

/// The digits of a leg's number are decimal.
const BASE: u64 = 10;

/// How many digits a sweep's number has.
const SWEEP_DIGITS: usize = 12;

/// What stands between a sweep's number and a place.
const DASH: u8 = b'-';

#[tactic(auto, unfolding(crate::specs::Split4::split4_id_text))]
fn id_text(id: &LegId) -> IdText
    ensures { result.items ≡ split4_id_text id.now }
{
    let mut text = IdText::new();
    append_digits(BASE, SWEEP_DIGITS, id.sweep(), &mut text);
    text.push(DASH);
    append_digits(BASE, PLACE_DIGITS, u64::from(id.place()), &mut text);
    text
}

/// Reads the two numbers round the first dash.
#[tactic(auto, unfolding(crate::specs::Split4::split4_id_of))]
fn read_id(text: &[u8]) -> Option<LegId>
    ensures { result ≡ split4_id_of text.now }
{
    let (sweep, place) = split_round(text, DASH)?;
    read_fixed_id(BASE, SWEEP_DIGITS, sweep, place)
}

/// Reads Symbol (55) as a root, with no suffix.
fn root_in(fields: &AppFields<'_>) -> Result<Symbol, DialectFault>
    ensures { result ≡ required_as root_of fields.now 55 }
{
    let text = required(fields, SYMBOL)?;
    Symbol::new(text, &[]).map_err(|_| DialectFault::Bad(SYMBOL))
}

/// Reads SymbolSfx (65), where it is there, as the suffix of a symbol.
#[tactic(auto, unfolding(crate::specs::Split4::split4_symbol_in))]
fn read_symbol(fields: &AppFields<'_>) -> Result<Symbol, DialectFault>
    ensures { result ≡ split4_symbol_in fields.now }
{
    let symbol = root_in(fields)?;
    match fields.get(SYMBOL_SFX) {
        None => Ok(symbol),
        Some([]) => Err(DialectFault::Bad(SYMBOL_SFX)),
        Some(suffix) => {
            Symbol::new(symbol.root(), suffix).map_err(|_| DialectFault::Bad(SYMBOL_SFX))
        }
    }
}

impl Spelling for Split4 {
    ghost use Rattle.dialect.specs.Split4.{split4};
    ghost use Rattle.dialect.specs.Lemmas.Split4Laws.{split4_is_spelling};

    ghost spelling = { λ _. split4 };

    fn id_text(&self, id: &LegId) -> IdText {
        id_text(id)
    }

    fn read_id(&self, text: &[u8]) -> Option<LegId> {
        read_id(text)
    }

    fn mark(&self) -> FieldRef<'_> {
        FieldRef::new(EXEC_INST, INTERMARKET_SWEEP)
    }

    fn is_marked(&self, fields: &AppFields<'_>) -> bool {
        has_instruction(fields, INTERMARKET_SWEEP)
    }

    fn price_text(&self, price: u64) -> PriceText {
        price_four_text(price)
    }

    fn push_symbol<F: FieldSink>(
        &self,
        alloc: Global,
        symbol: &Symbol,
        fields: &mut F,
    ) -> Result<(), AllocError> {
        push_short(alloc, SYMBOL, symbol.root(), fields)?;
        let suffix = symbol.suffix();
        if suffix.is_empty() {
            Ok(())
        } else {
            push_short(alloc, SYMBOL_SFX, suffix, fields)
        }
    }

    fn extra_len(&self) -> usize {
        0
    }

    fn push_extra<F: FieldSink>(&self, _alloc: Global, _fields: &mut F) -> Result<(), AllocError> {
        Ok(())
    }

    fn read_symbol(&self, fields: &AppFields<'_>) -> Result<Symbol, DialectFault> {
        read_symbol(fields)
    }

    ghost is_spelling = { λ _. split4_is_spelling };
}
