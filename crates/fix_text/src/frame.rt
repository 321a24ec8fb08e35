//! A frame: fields that are lent from the text in which they lie.
ghost use Rattle.std.specs.Prelude.{◌≡◌, ◌<◌, ◌==◌, false, Some, length, slice_get, IfOk, IfSome, IsOkUnless, OnErr, vec_capacity};
ghost use Rattle.std.specs.Option.{option_map};
ghost use Rattle.fix_text.specs.Tagged.{value_of, left_after};
ghost use Rattle.fix_text.specs.Reading.{fields_of};
ghost use Rattle.fix_text.specs.Placing.{AreMore, AreWithin, fields_at};
ghost use Rattle.fix_text.specs.Text.{holds_soh};

use crate::field::FieldRef;
use crate::fields::place_fields;
use crate::frame_fields::FrameFields;
use crate::place::Place;
use crate::reader_fault::ReaderFault;

/// The fields of a text, lent with it: those between BodyLength (9) and CheckSum (10) of a valid frame, if a
/// `FrameReader` gave it. It owns nothing.
#[derive(Clone, Copy, Debug)]
pub struct Frame<'a> {
    text: &'a [u8],
    places: &'a [Place],
    ghost within: { AreWithin text.now places.now },
}

impl<'a> Frame<'a> {
    ghost use Rattle.fix_text.specs.FrameFields.{fields_in, fields_left};

    /// A frame of any text that is nothing but fields, with `places` as the room for where they lie; what it held is
    /// dropped. The only refusal is out of memory, which comes only where the text is more fields than `places` has
    /// room for.
    pub fn read(
        text: &'a [u8],
        places: &'a mut Vec<Place>,
    ) -> Result<Option<Frame<'a>>, ReaderFault>
        ensures fields { IfOk result (λ frame. option_map fields_in frame ≡ fields_of text.entry.now) }
        ensures refusal { IsOkUnless result ReaderFault.OutOfMemory }
        ensures full { OnErr result (AreMore (vec_capacity places.old) (fields_of text.entry.now)) }
    {
        match place_fields(text, places) {
            Ok(true) => Ok(Some(Frame::of_places(text, places.as_slice()))),
            Ok(false) => Ok(None),
            Err(fault) => Err(fault),
        }
    }

    /// The frame of these places of a text.
    pub(crate) fn of_places(text: &'a [u8], places: &'a [Place]) -> Frame<'a>
        requires { AreWithin text.now places.now }
        ensures { fields_in result ≡ fields_at text.entry.now places.entry.now }
    {
        Frame { text, places }
    }

    /// The number of fields.
    pub fn len(&self) -> usize
        ensures { result ≡ length (fields_in self.now) }
    {
        self.places.len()
    }

    /// Whether there is no field, which isn't so of a frame that a `FrameReader` gave.
    pub fn is_empty(&self) -> bool
        ensures { result ≡ (length (fields_in self.now) == 0) }
    {
        self.places.is_empty()
    }

    /// The fields, in order.
    pub fn iter(&self) -> FrameFields<'a>
        ensures { fields_left result ≡ fields_in self.now }
    {
        FrameFields {
            text: self.text,
            places: self.places,
        }
    }

    /// The field at an index, which counts from 0, lent for as long as the frame's own lender lends it.
    pub fn field(&self, index: usize) -> FieldRef<'a>
        requires { index < length (fields_in self.now) }
        ensures { slice_get (fields_in self.now) index ≡ Some result }
    {
        let place = self.places[index];
        FieldRef::new(place.tag, &self.text[place.start..place.end])
    }

    /// The value of the first field of this tag.
    pub fn get(&self, tag: u32) -> Option<&'a [u8]>
        ensures value { option_map (λ value. value.now) result ≡ value_of (fields_in self.now) tag }
        ensures no_soh { IfSome result (λ value. holds_soh value.now ≡ false) }
    {
        for place in self.places {
            if place.tag == tag {
                return Some(&self.text[place.start..place.end]);
            }
        }
        None
    }

    /// The value of the first field of this tag, as `get` gives it. If that is the first field of all, it is passed: so
    /// a caller that asks for the tags in the order in which they stand looks at each field once.
    #[inline]
    pub fn take(&mut self, tag: u32) -> Option<&'a [u8]>
        ensures value { option_map (λ value. value.now) result ≡ value_of (fields_in self.old) tag }
        ensures left { fields_in self.new ≡ left_after tag (fields_in self.old) }
        ensures no_soh { IfSome result (λ value. holds_soh value.now ≡ false) }
    {
        match self.places {
            [place, others @ ..] if place.tag == tag => {
                self.places = others;
                Some(&self.text[place.start..place.end])
            }
            _ => self.get(tag),
        }
    }
}
