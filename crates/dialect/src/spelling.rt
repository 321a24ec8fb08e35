//! What differs between dialects.

use crate::fault::DialectFault;
use arrayvec::ArrayVec;
use fix_tags::{AppFields, PriceText};
use fix_text::{FieldRef, FieldSink};
use leg::{LegId, Symbol};
use std::alloc::{AllocError, Global};

/// The most bytes of the text of a leg's number.
const MAX_ID_TEXT: usize = 24;

/// The text of a leg's number.
pub type IdText = ArrayVec<u8, MAX_ID_TEXT>;

/// How a venue spells a leg's number, the mark of a sweep, a price and a symbol: all that differs between dialects.
/// The rest of an order and of a report, and every law, is proved once of any spelling. Each value is so short that a
/// field takes no memory.
pub trait Spelling {
    ghost use Rattle.std.specs.Prelude.{◌≡◌, ◌+◌, ◌<◌, ◌≤◌, List, length, OnErr};
    ghost use Rattle.fix_text.specs.Sink.{Pushes};
    ghost use Rattle.fix_text.specs.Tagged.{Tagged};
    ghost use Rattle.dialect.specs.Spelling.{SpellingParts, IsSpelling};

    ghost spelling: { Self → SpellingParts };

    /// The value of ClOrdID (11), which says which leg of which sweep an order is.
    fn id_text(&self, id: &LegId) -> IdText
        ensures value { result.items ≡ (spelling self.now).id_text id.now };

    /// Reads the value of ClOrdID (11). `None` where it isn't exactly what is written for a leg.
    fn read_id(&self, text: &[u8]) -> Option<LegId>
        ensures value { result ≡ (spelling self.now).id_of text.now };

    /// The field that marks a leg of a sweep.
    fn mark(&self) -> FieldRef<'_>
        ensures value { result ≡ (spelling self.now).mark }
        ensures short { length result.value ≤ 24 };

    /// Whether fields carry the mark of a leg of a sweep.
    fn is_marked(&self, fields: &AppFields<'_>) -> bool
        ensures value { result ≡ (spelling self.now).is_marked fields.now };

    /// The value of Price (44), of a price in ten-thousandths of a dollar.
    fn price_text(&self, price: u64) -> PriceText
        ensures value { result.items ≡ (spelling self.now).price_text price }
        ensures short { length result.items ≤ 24 };

    /// Pushes the fields of a symbol: Symbol (55) and, where the venue parts it and there is a suffix, SymbolSfx (65).
    /// It wants memory only where there is no room for two more fields.
    fn push_symbol<F: FieldSink>(
        &self,
        alloc: Global,
        symbol: &Symbol,
        fields: &mut F,
    ) -> Result<(), AllocError>
        ensures pushed { Pushes F.Takes ((spelling self.now).symbol_fields symbol.now) fields.old fields.new result }
        ensures left { F.room fields.old ≤ F.room fields.new + 2 }
        ensures full { OnErr result (F.room fields.old < 2) };

    /// Reads a symbol from its fields, or answers the first fault.
    fn read_symbol(&self, fields: &AppFields<'_>) -> Result<Symbol, DialectFault>
        ensures value { result ≡ (spelling self.now).symbol_in fields.now };

    /// How many fields every order carries besides, sixteen at most.
    fn extra_len(&self) -> usize
        ensures value { result ≡ length (spelling self.now).extra };

    /// Pushes the fields that every order carries besides. It wants memory only where there is no room for them.
    fn push_extra<F: FieldSink>(&self, alloc: Global, fields: &mut F) -> Result<(), AllocError>
        ensures pushed { Pushes F.Takes (spelling self.now).extra fields.old fields.new result }
        ensures full { OnErr result (F.room fields.old < length (spelling self.now).extra) };

    // What is written is read back, and can be written.
    ghost is_spelling: { (d : Self) → IsSpelling (spelling d) };
}
