//! The shape of a leg's number, by an example.

ghost use Rattle.std.specs.Prelude.{◌≡◌};
ghost use Rattle.venue_words.specs.Example.{first_spelt, shape_of, spells};

use crate::preset::words_of;
use dialect::{AnyDialect, IdShape, Spelling, Worded};
use leg::LegId;

/// The leg whose number an example is: leg 3 of sweep 12.
const SWEEP: u64 = 12;

const PLACE: u8 = 3;

/// The leg whose number an example is.
pub(crate) fn example_leg() -> LegId
    ensures { result ≡ record { sweep = 12; place = 3 } }
{
    LegId::new(SWEEP, PLACE)
}

/// Whether a shape that is taken has this example.
#[tactic(auto, using(crate::proofs::Examples::spelt, crate::proofs::Examples::not_spelt))]
fn spells(shape: IdShape, text: &[u8]) -> bool
    ensures { result ≡ spells shape text.now }
{
    let mut words = words_of(AnyDialect::Plain);
    words.id = shape;
    match Worded::new(words) {
        Some(dialect) => dialect.id_text(&example_leg()).as_slice() == text,
        None => false,
    }
}

fn first_spelt(text: &[u8], shapes: &[IdShape]) -> Option<IdShape>
    ensures { result ≡ first_spelt text.now shapes.now }
{
    match shapes {
        [] => None,
        [first, rest @ ..] => {
            if spells(*first, text) {
                Some(*first)
            } else {
                first_spelt(text, rest)
            }
        }
    }
}

/// The shape that has this example: `S12L3`, or the sweep's number in decimal or hexadecimal digits and the place in
/// two of them, with a separator between the two or none.
pub(crate) fn shape_of(text: &[u8]) -> Option<IdShape>
    ensures { result ≡ shape_of text.now }
{
    let parted = text.len().saturating_sub(3);
    let joined = text.len().saturating_sub(2);
    let separator = *text.get(parted)?;
    let shapes = [
        IdShape::Short,
        IdShape::Parted {
            base: 10,
            width: parted,
            separator,
        },
        IdShape::Parted {
            base: 16,
            width: parted,
            separator,
        },
        IdShape::Joined {
            base: 10,
            width: joined,
        },
        IdShape::Joined {
            base: 16,
            width: joined,
        },
    ];
    first_spelt(text, &shapes)
}
