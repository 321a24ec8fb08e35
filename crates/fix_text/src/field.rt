//! A field: a tag with its value, owned or lent. Contracts see both as one `Tagged`.
ghost use Rattle.std.specs.Prelude.{◌≡◌, ◌≤◌, length, IfOk, IsOk};
ghost use Rattle.std.specs.Option.{option_map};
ghost use Rattle.fix_text.specs.Tagged.{value_of};

use smallvec::SmallVec;
use std::alloc::{AllocError, Global};
use std::marker::Model;

/// The most bytes of a value that lies in its field: as many as the longest time stamp or number has, and some more.
const INLINE_LEN: usize = 24;

/// A field that owns its value. One of up to 24 bytes lies in the field itself.
#[derive(Debug, Drop)]
pub struct Field {
    tag: u32,
    value: SmallVec<u8, INLINE_LEN>,
}

impl Model for Field {
    ghost use Rattle.fix_text.specs.Tagged.{Tagged};

    ghost Value = { Tagged };

    ghost view = { λ field. record { tag = field.tag; value = field.value.items } };
}

impl Field {
    /// A field of this value. It takes no memory.
    pub fn new(tag: u32, value: Vec<u8>) -> Field
        ensures { result ≡ record { tag = tag; value = value.items } }
    {
        Field {
            tag,
            value: SmallVec::from_vec(value),
        }
    }

    /// A field with a copy of this value. It takes memory only for a value of more than 24 bytes.
    pub fn from_slice(alloc: Global, tag: u32, value: &[u8]) -> Result<Field, AllocError>
        ensures ok { IfOk result (λ field. field ≡ record { tag = tag; value = value.now }) }
        ensures short { length value.now ≤ 24 → IsOk result }
    {
        let value = SmallVec::from_slice(alloc, value)?;
        Ok(Field { tag, value })
    }

    /// The tag.
    pub fn tag(&self) -> u32
        ensures { result ≡ self.now.tag }
    {
        self.tag
    }

    /// The bytes of the value.
    pub fn value(&self) -> &[u8]
        ensures { result.now ≡ self.now.value }
    {
        self.value.as_slice()
    }
}

/// A field whose value is lent, as by a frame's reader.
#[derive(Debug, Drop)]
pub struct FieldRef<'a> {
    tag: u32,
    value: &'a [u8],
}

impl<'a> Model for FieldRef<'a> {
    ghost use Rattle.fix_text.specs.Tagged.{Tagged};

    ghost Value = { Tagged };

    ghost view = { λ field. record { tag = field.tag; value = field.value.now } };
}

impl<'a> FieldRef<'a> {
    /// A field of this value. It takes no memory.
    pub fn new(tag: u32, value: &'a [u8]) -> FieldRef<'a>
        ensures { result ≡ record { tag = tag; value = value.entry.now } }
    {
        FieldRef { tag, value }
    }

    /// The tag.
    pub fn tag(&self) -> u32
        ensures { result ≡ self.now.tag }
    {
        self.tag
    }

    /// The value, lent for as long as the field's own lender lends it.
    pub fn value(&self) -> &'a [u8]
        ensures { result.now ≡ self.now.value }
    {
        self.value
    }
}

/// What can be written as a field: a tag with its value, however they are kept.
pub trait Lend {
    ghost use Rattle.fix_text.specs.Tagged.{Tagged};

    ghost tagged: { Self → Tagged };

    /// The field, with its value lent.
    fn lend(&self) -> FieldRef<'_>
        ensures { result ≡ tagged self.now };
}

impl Lend for Field {
    ghost tagged = { λ field. field };

    fn lend(&self) -> FieldRef<'_> {
        FieldRef::new(self.tag, self.value.as_slice())
    }
}

impl Lend for FieldRef<'_> {
    ghost tagged = { λ field. field };

    fn lend(&self) -> FieldRef<'_> {
        FieldRef::new(self.tag, self.value)
    }
}

/// The value of the first field of this tag.
pub fn first(fields: &[Field], tag: u32) -> Option<&[u8]>
    ensures { option_map (λ value. value.now) result ≡ value_of fields.now tag }
{
    for field in fields {
        if field.tag() == tag {
            return Some(field.value());
        }
    }
    None
}

/// The value of the first field of this tag, lent for as long as the field's own lender lends it.
pub fn first_ref<'a>(fields: &[FieldRef<'a>], tag: u32) -> Option<&'a [u8]>
    ensures { option_map (λ value. value.now) result ≡ value_of fields.now tag }
{
    for field in fields {
        if field.tag() == tag {
            return Some(field.value());
        }
    }
    None
}
