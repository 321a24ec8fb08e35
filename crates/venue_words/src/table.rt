//! A table of a venue's words.

ghost use Rattle.std.specs.Prelude.{◌≡◌, ◌+◌, ◌≤◌, ◌++◌, length};
ghost use Rattle.arrayvec.specs.ArrayVec.{array_vec_len};
ghost use Rattle.venue_words.specs.Table.{is_table, preset_words, taken};
ghost use Rattle.venue_words.specs.Builds.{field_or, fields_fault, is_shared, mark_fault, marked, with_decimals};
ghost use Rattle.venue_words.specs.Builds.{with_field, with_id, with_mark, with_price, with_price_text, with_symbol};

use crate::example::shape_of;
use crate::fault::FieldFault;
use crate::field::read_field;
use crate::forms::{price_of_decimals, price_of_text, symbol_of_text};
use crate::preset::words_of;
use crate::shown::{EXEC_INST, is_shown};
use arrayvec::ArrayVec;
use dialect::{AnyDialect, Extra, MAX_EXTRA, PriceShape, Worded, Words};
use std::marker::Model;

/// A table: how a venue spells a leg's number, the mark of a sweep, a price and a symbol, and which fields each of its
/// orders carries besides.
#[derive(Debug, Drop)]
pub struct WordTable {
    words: Words,
}

impl Model for WordTable {
    ghost use Rattle.std.specs.Prelude.{◌≡◌, true};
    ghost use Rattle.dialect.specs.declared.words.Words.{Words};
    ghost use Rattle.venue_words.specs.Table.{is_table};

    ghost Value = { Words };

    ghost view = { λ table. table.words };

    ghost invariant = { λ table. is_table table.words ≡ true };

    ghost inverse = { λ words. record { words = words } };
}

/// A field once more.
fn copied_field(field: &Extra) -> Extra
    ensures { result ≡ field.now }
{
    Extra {
        tag: field.tag,
        value: field.value.clone().unwrap(),
    }
}

/// Adds fields once more.
fn add_copies(fields: &[Extra], copies: &mut ArrayVec<Extra, MAX_EXTRA>)
    requires { array_vec_len copies.old + length fields.now ≤ 16 }
    ensures { copies.new.items ≡ copies.old.items ++ fields.now }
{
    match fields {
        [] => {}
        [first, rest @ ..] => {
            copies.push(copied_field(first));
            add_copies(rest, copies);
        }
    }
}

/// A table once more.
fn copied(words: &Words) -> Words
    ensures { result ≡ words.now }
{
    let mut extra = ArrayVec::new();
    add_copies(words.extra.as_slice(), &mut extra);
    Words {
        id: words.id,
        mark_tag: words.mark_tag,
        mark_value: words.mark_value.clone().unwrap(),
        mark_among: words.mark_among,
        price: words.price,
        symbol: words.symbol,
        extra,
    }
}

/// Whether a tag is one that all orders have.
fn is_shared(tag: u32) -> bool
    ensures { result ≡ is_shared tag }
{
    matches!(tag, 11 | 38 | 40 | 44 | 54 | 55 | 65 | 59 | 60)
}

/// The words with this mark.
fn marked(words: &Words, mark: Extra) -> Words
    ensures { result ≡ marked words.now mark }
{
    let mut words = copied(words);
    words.mark_tag = mark.tag;
    words.mark_value = mark.value;
    words.mark_among = mark.tag == EXEC_INST;
    words
}

/// Why a field of this tag isn't taken as a mark.
fn mark_fault(tag: u32) -> FieldFault
    ensures { result ≡ mark_fault tag }
{
    if is_shared(tag) {
        FieldFault::InOrder
    } else {
        FieldFault::Spaced
    }
}

/// Why one more field of this tag isn't taken.
#[tactic(auto, unfolding(crate::specs::Builds::fields_fault))]
fn fields_fault(words: &Words, tag: u32) -> FieldFault
    ensures { result ≡ fields_fault words.now tag }
{
    if is_shared(tag) {
        FieldFault::InOrder
    } else if tag == words.mark_tag {
        FieldFault::OfMark
    } else {
        FieldFault::Twice
    }
}

/// A table with one more field that every order carries.
fn extended(words: &Words, field: Extra) -> Result<WordTable, FieldFault>
    ensures { result ≡ field_or words.now field }
{
    let fault = fields_fault(words, field.tag);
    let mut words = copied(words);
    if words.extra.is_full() {
        return Err(FieldFault::TooMany);
    }
    words.extra.push(field);
    match WordTable::new(words) {
        Some(table) => Ok(table),
        None => Err(fault),
    }
}

impl WordTable {
    /// A table that is taken, or none.
    #[tactic(auto, unfolding(crate::specs::Table::is_table))]
    fn new(words: Words) -> Option<WordTable>
        ensures { result ≡ taken words }
    {
        if Worded::new(copied(&words)).is_some() && is_shown(&words) {
            Some(WordTable { words })
        } else {
            None
        }
    }

    /// The table of a dialect.
    #[tactic(auto, using(crate::proofs::Presets::preset_is_table))]
    pub fn preset(dialect: AnyDialect) -> WordTable
        ensures { result ≡ preset_words dialect }
    {
        WordTable {
            words: words_of(dialect),
        }
    }

    /// The table with the shape of a leg's number that this text is an example of: the number of leg 3 of sweep 12, as
    /// `S12L3` or `000000000012-03`.
    #[tactic(auto, unfolding(crate::specs::Builds::with_id))]
    pub fn with_id(&self, text: &[u8]) -> Option<WordTable>
        ensures { result ≡ with_id self.now text.now }
    {
        let id = shape_of(text)?;
        let mut words = copied(&self.words);
        words.id = id;
        WordTable::new(words)
    }

    fn with_price_shape(&self, price: PriceShape) -> Option<WordTable>
        ensures { result ≡ with_price self.now price }
    {
        let mut words = copied(&self.words);
        words.price = price;
        WordTable::new(words)
    }

    /// The table with prices as this text names them: `short`, or how many decimals they have at least.
    #[tactic(auto, unfolding(crate::specs::Builds::with_price_text))]
    pub fn with_price(&self, text: &str) -> Option<WordTable>
        ensures { result ≡ with_price_text self.now text.now }
    {
        self.with_price_shape(price_of_text(text)?)
    }

    /// The table with prices of at least so many decimals, 1 to 4.
    #[tactic(auto, unfolding(crate::specs::Builds::with_decimals))]
    pub fn with_decimals(&self, decimals: u64) -> Option<WordTable>
        ensures { result ≡ with_decimals self.now decimals }
    {
        self.with_price_shape(price_of_decimals(decimals)?)
    }

    /// The table with symbols as this text names them: what stands before a suffix, one of the bytes from 33 to 47,
    /// `dot` or `slash`; or `55+65`.
    #[tactic(auto, unfolding(crate::specs::Builds::with_symbol))]
    pub fn with_symbol(&self, text: &str) -> Option<WordTable>
        ensures { result ≡ with_symbol self.now text.now }
    {
        let symbol = symbol_of_text(text)?;
        let mut words = copied(&self.words);
        words.symbol = symbol;
        WordTable::new(words)
    }

    /// The table with the mark that this text is, as `18=f`. In ExecInst (18) it stands among other instructions, in
    /// any other field alone.
    #[tactic(auto, unfolding(crate::specs::Builds::with_mark))]
    pub fn with_mark(&self, text: &[u8]) -> Result<WordTable, FieldFault>
        ensures { result ≡ with_mark self.now text.now }
    {
        let mark = read_field(text)?;
        let tag = mark.tag;
        match WordTable::new(marked(&self.words, mark)) {
            Some(table) => Ok(table),
            None => Err(mark_fault(tag)),
        }
    }

    /// The table with one more field that every order carries, as `528=P`.
    #[tactic(auto, unfolding(crate::specs::Builds::with_field))]
    pub fn with_field(&self, text: &[u8]) -> Result<WordTable, FieldFault>
        ensures { result ≡ with_field self.now text.now }
    {
        extended(&self.words, read_field(text)?)
    }

    /// What it says.
    pub fn words(&self) -> &Words
        ensures { result.now ≡ self.now }
    {
        &self.words
    }

    /// The dialect that it is.
    #[tactic(auto, using(crate::proofs::Presets::is_taken))]
    pub fn dialect(&self) -> Worded
        ensures { result ≡ self.now }
    {
        Worded::new(copied(&self.words)).unwrap()
    }
}
