//! How a venue spells an order, as data: what a table of the desk's file says.

use arrayvec::ArrayVec;

/// How a leg's number is spelled.
#[derive(Clone, Copy, Debug, PartialEq, Eq)]
pub enum IdShape {
    /// `S12L3`.
    Short,
    /// The sweep's number in digits of a base, this many, a separator, and the place in two.
    Parted {
        base: u64,
        width: usize,
        separator: u8,
    },
    /// The same, with nothing between the two.
    Joined {
        base: u64,
        width: usize,
    },
}

/// How a price is spelled.
#[derive(Clone, Copy, Debug, PartialEq, Eq)]
pub enum PriceShape {
    /// `10.25`.
    Short,
    /// `10.2500`.
    Four,
    /// One decimal at least, or these and one: `10.00` and `10.2501` where it is one.
    Least { more: usize },
}

/// How a symbol is spelled.
#[derive(Clone, Copy, Debug, PartialEq, Eq)]
pub enum SymbolShape {
    /// The suffix behind a separator, in Symbol (55).
    Joined { separator: u8 },
    /// The suffix in SymbolSfx (65).
    Parted,
}

/// The value of a mark.
pub type MarkValue = ArrayVec<u8, 24>;

/// A field that every order carries besides.
#[derive(Debug, Default, Drop)]
pub struct Extra {
    pub tag: u32,
    pub value: MarkValue,
}

/// The most of them.
pub const MAX_EXTRA: usize = 16;

/// A table.
#[derive(Debug, Drop)]
pub struct Words {
    pub id: IdShape,
    pub mark_tag: u32,
    pub mark_value: MarkValue,
    /// Whether the mark is one of the values of its field, which spaces part.
    pub mark_among: bool,
    pub price: PriceShape,
    pub symbol: SymbolShape,
    pub extra: ArrayVec<Extra, MAX_EXTRA>,
}
