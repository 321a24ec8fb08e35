//! What fields are pushed to: a list of them, or the body of a frame that is being written.

use crate::field::Field;
use std::alloc::{AllocError, Global};

/// What takes fields, one behind the other.
pub trait FieldSink {
    ghost use Rattle.std.specs.Prelude.{◌≡◌, ◌+◌, ◌<◌, ◌≤◌, ◌++◌, ℕ, List, [], ◌∷◌, OnErr, length};
    ghost use Rattle.fix_text.specs.Tagged.{Tagged};
    ghost use Rattle.fix_text.specs.Sink.{Pushes};

    // New is old with these fields behind it.
    ghost Takes: { Self → Self → List Tagged → Type 0 };

    // The most bytes of a value that certainly wants no memory of its own, and how many more fields with such values
    // want none.
    ghost short: { ℕ };

    ghost room: { Self → ℕ };

    /// Takes a field with a copy of this value.
    fn push_field(&mut self, alloc: Global, tag: u32, value: &[u8]) -> Result<(), AllocError>
        ensures pushed { Pushes Takes (record { tag = tag; value = value.now } ∷ []) self.old self.new result }
        ensures left { room self.old ≤ room self.new + 1 }
        ensures full { length value.now ≤ short → OnErr result (room self.old < 1) };

    // A number, a flag, a time stamp and a price are short.
    ghost takes_short: { 24 ≤ short };

    // It may take no field.
    ghost takes_none: { (s : Self) → Takes s s [] };

    // Fields that are taken after others stand behind them.
    ghost takes_more: { (a b c : Self) (xs ys : List Tagged) → Takes a b xs → Takes b c ys → Takes a c (xs ++ ys) };
}

impl FieldSink for Vec<Field> {
    ghost use Rattle.std.specs.Prelude.{◌≡◌, ◌-◌, ◌++◌, List, vec_len, vec_capacity};
    ghost use Rattle.fix_text.specs.Lemmas.SinkLaws.{list_takes_short, list_takes_none, list_takes_more};

    ghost Takes = { λ old new fields. new.items ≡ old.items ++ fields };

    ghost short = { 24 };

    ghost room = { λ list. vec_capacity list - vec_len list };

    fn push_field(&mut self, alloc: Global, tag: u32, value: &[u8]) -> Result<(), AllocError> {
        let field = Field::from_slice(alloc, tag, value)?;
        self.push(field)?;
        Ok(())
    }

    ghost takes_short = { list_takes_short };

    ghost takes_none = { λ s. list_takes_none s.items };

    ghost takes_more = { λ a b c xs ys first then. list_takes_more a.items b.items c.items xs ys first then };
}
