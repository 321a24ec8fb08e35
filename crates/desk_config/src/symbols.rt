//! The symbols that may be ordered.

ghost use Rattle.std.specs.Prelude.{◌≡◌, ◌<◌, ◌≤◌, [], length, option_and_then, option_map, IfOk};
ghost use Rattle.desk_config.specs.Symbols.{AnswersSymbols, next_symbol, symbol_at, symbol_items, symbols_at};
ghost use Rattle.desk_config.specs.Symbols.{symbols_from, symbols_of};
ghost use Rattle.desk_config.specs.Venues.{result_map};
ghost use Rattle.toml.specs.View.{array_view, view};

use crate::fault::{ConfigFault, Fault, KeyFault};
use crate::found::Found;
use crate::key::Key;
use crate::place::Place;
use dialect::read_symbol;
use leg::Symbol;
use std::alloc::Global;
use toml::Value;
use toml::value::Array;

/// The most symbols.
const MAX_SYMBOLS: usize = 256;

fn symbol_at(value: &Value) -> Option<Symbol>
    ensures { result ≡ symbol_at (view value.now) }
{
    read_symbol(value.as_str()?.as_bytes())
}

/// What the next value of `symbols` says.
#[tactic(auto, unfolding(crate::specs::Symbols::next_symbol))]
fn next_symbol(earlier: &[Symbol], value: &Value) -> Result<Symbol, KeyFault>
    requires { length earlier.now < 256 }
    ensures { result ≡ next_symbol earlier.now (view value.now) }
{
    match symbol_at(value) {
        Some(symbol) => Ok(symbol),
        None => Err(KeyFault {
            place: Place::Limits,
            fault: Fault::Symbol {
                number: earlier.len() + 1,
                found: Found::of(value),
            },
        }),
    }
}

/// The value of `symbols`, where `[limits]` has it.
fn symbols_at(file: &Value) -> Option<&Value>
    ensures { option_map (λ value. view value.now) result ≡ symbols_at (view file.now) }
{
    file.get("limits")?.get(Key::Symbols.name())
}

/// The values of `symbols`, 1 to 256.
#[tactic(auto, using(crate::proofs::Views::items_count_view), unfolding(crate::specs::Symbols::symbol_items))]
fn symbol_items(value: &Value) -> Result<&Array, Fault>
    ensures value { symbol_items (view value.now) ≡ (result_map (λ items. array_view items.now) result) }
    ensures few { IfOk result (λ items. length items.now.items ≤ 256) }
{
    match value.as_array() {
        Some(items) if !items.is_empty() && items.len() <= MAX_SYMBOLS => Ok(items),
        _ => Err(Fault::Bad {
            key: Key::Symbols,
            found: Found::of(value),
        }),
    }
}

/// What the values of `symbols` say.
#[tactic(auto, using(crate::proofs::SymbolsRead::symbol_steps), unfolding(crate::specs::Symbols::symbols_from))]
fn each_symbol(alloc: Global, values: &Array) -> Result<Vec<Symbol>, ConfigFault>
    requires { length values.now.items ≤ 256 }
    ensures { AnswersSymbols (symbols_from [] (array_view values.now)) result }
{
    let mut symbols = Vec::new(alloc);
    for value in values {
        match next_symbol(symbols.as_slice(), value) {
            Ok(symbol) => symbols.push(symbol)?,
            Err(fault) => return Err(ConfigFault::Key(fault)),
        }
    }
    Ok(symbols)
}

/// What `symbols` says.
#[tactic(auto, unfolding(crate::specs::Symbols::symbols_of))]
pub(crate) fn read_symbols(alloc: Global, file: &Value) -> Result<Vec<Symbol>, ConfigFault>
    ensures { AnswersSymbols (symbols_of (view file.now)) result }
{
    let Some(value) = symbols_at(file) else {
        return Ok(Vec::new(alloc));
    };
    match symbol_items(value) {
        Ok(values) => each_symbol(alloc, values),
        Err(fault) => Err(ConfigFault::Key(KeyFault {
            place: Place::Limits,
            fault,
        })),
    }
}
