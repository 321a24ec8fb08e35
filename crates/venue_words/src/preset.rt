//! The dialects as tables.

ghost use Rattle.std.specs.Prelude.{◌≡◌, ◌≤◌, length};
ghost use Rattle.venue_words.specs.Table.{preset_words};

use crate::shown::EXEC_INST;
use arrayvec::ArrayVec;
use dialect::{AnyDialect, IdShape, MarkValue, PriceShape, SymbolShape, Words};

/// A leg of a sweep, as Coded marks it: a venue's own field.
const SWEEP_LEG: u32 = 9001;

fn value_of(text: &[u8]) -> MarkValue
    requires { length text.now ≤ 24 }
    ensures { result.items ≡ text.now }
{
    MarkValue::try_from(text).unwrap()
}

/// What the table of a dialect says.
pub(crate) fn words_of(dialect: AnyDialect) -> Words
    ensures { result ≡ preset_words dialect }
{
    match dialect {
        AnyDialect::Plain => Words {
            id: IdShape::Short,
            mark_tag: EXEC_INST,
            mark_value: value_of(b"f"),
            mark_among: true,
            price: PriceShape::Short,
            symbol: SymbolShape::Joined { separator: b'.' },
            extra: ArrayVec::new(),
        },
        AnyDialect::Split4 => Words {
            id: IdShape::Parted {
                base: 10,
                width: 12,
                separator: b'-',
            },
            mark_tag: EXEC_INST,
            mark_value: value_of(b"f"),
            mark_among: true,
            price: PriceShape::Four,
            symbol: SymbolShape::Parted,
            extra: ArrayVec::new(),
        },
        AnyDialect::Coded => Words {
            id: IdShape::Joined {
                base: 16,
                width: 16,
            },
            mark_tag: SWEEP_LEG,
            mark_value: value_of(b"Y"),
            mark_among: false,
            price: PriceShape::Four,
            symbol: SymbolShape::Joined { separator: b'/' },
            extra: ArrayVec::new(),
        },
    }
}
