//! The fields of a frame, one after the other.
ghost use Rattle.fix_text.specs.Placing.{AreWithin};

use crate::field::FieldRef;
use crate::place::Place;

/// An iterator over the fields of a frame, which lends them for as long as the frame's own lender does.
#[derive(Debug, Drop)]
pub struct FrameFields<'a> {
    pub(crate) text: &'a [u8],
    pub(crate) places: &'a [Place],
    ghost within: { AreWithin text.now places.now },
}

impl<'a> Iterator for FrameFields<'a> {
    ghost use Rattle.std.specs.Iterator.{YieldsFirst, item_count};
    ghost use Rattle.fix_text.specs.FrameFields.{fields_left};

    type Item = FieldRef<'a>;

    ghost next_gives = { YieldsFirst fields_left };

    ghost remaining = { item_count fields_left };

    fn next(&mut self) -> Option<FieldRef<'a>> {
        let (place, others) = self.places.split_first()?;
        self.places = others;
        Some(FieldRef::new(place.tag, &self.text[place.start..place.end]))
    }
}
