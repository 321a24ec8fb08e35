//! Fields that a venue wants beside those that the session writes itself.

ghost use Rattle.std.specs.Prelude.{◌≡◌, ◌≤◌, true, length};
ghost use Rattle.std.specs.List.{list_all};
ghost use Rattle.venue_words.specs.Dress.{are_apart, are_beside, dress_or, fault_among, fault_in, has_tag, header_fault};
ghost use Rattle.venue_words.specs.Dress.{is_dress, is_header_field, is_logon_field, is_logon_tag, is_own_logon_tag};
ghost use Rattle.venue_words.specs.Dress.{is_venue_header_tag, logon_fault, no_dress, with_header, with_logon};

use crate::data_tag::{is_data_tag, is_session_tag};
use crate::fault::FieldFault;
use crate::field::{FieldText, read_pair};
use crate::preset::words_of;
use crate::words::VenueWords;
use arrayvec::ArrayVec;
use dialect::{Extra, Words};
use std::marker::Model;

/// The most fields that a header or a Logon takes.
pub const MAX_DRESS: usize = 8;

/// Fields of a header or a Logon.
pub type DressFields = ArrayVec<Extra, MAX_DRESS>;

/// What messages for a venue carry beside what the session writes itself: fields of every header, and fields of the
/// Logon alone. No tag is there twice.
#[derive(Debug, Drop)]
pub struct Dress {
    header: DressFields,
    logon: DressFields,
}

impl Model for Dress {
    ghost use Rattle.std.specs.Prelude.{◌≡◌, true};
    ghost use Rattle.venue_words.specs.Dress.{DressParts, is_dress};

    ghost Value = { DressParts };

    ghost view = { λ dress. record { header = dress.header.items; logon = dress.logon.items } };

    ghost invariant = { λ dress. is_dress (record { header = dress.header.items; logon = dress.logon.items }) ≡ true };

    ghost inverse = { λ parts. record {
      header = record { items = parts.header };
      logon = record { items = parts.logon };
    } };
}

/// Whether a header takes a field of this tag from a venue.
fn is_venue_header_tag(tag: u32) -> bool
    ensures { result ≡ is_venue_header_tag tag }
{
    tag >= 5000 || matches!(tag, 50 | 57 | 115 | 116 | 128 | 129 | 142 | 143 | 144 | 145)
}

/// The password of a Logon.
const PASSWORD: u32 = 554;

/// Whether the session itself writes a field of this tag into a Logon.
fn is_own_logon_tag(tag: u32) -> bool
    ensures { result ≡ is_own_logon_tag tag }
{
    matches!(tag, 98 | 108 | 141 | 789)
}

/// Whether a Logon takes a field of this tag from a venue.
fn is_logon_tag(tag: u32) -> bool
    ensures { result ≡ is_logon_tag tag }
{
    !is_session_tag(tag) && !is_data_tag(tag) && !is_own_logon_tag(tag) && tag != PASSWORD
}

fn is_header_field(field: &Extra) -> bool
    ensures { result ≡ is_header_field field.now }
{
    is_venue_header_tag(field.tag) && FieldText::new(field.value.as_slice()).is_some()
}

fn is_logon_field(field: &Extra) -> bool
    ensures { result ≡ is_logon_field field.now }
{
    is_logon_tag(field.tag) && FieldText::new(field.value.as_slice()).is_some()
}

/// Whether one of the fields has this tag.
pub(crate) fn has_tag(fields: &[Extra], tag: u32) -> bool
    ensures { result ≡ has_tag fields.now tag }
{
    fields.iter().any(|field| field.tag == tag)
}

/// Whether no two of the fields have one tag.
fn are_apart(fields: &[Extra]) -> bool
    ensures { result ≡ are_apart fields.now }
{
    match fields {
        [] => true,
        [first, rest @ ..] => !has_tag(rest, first.tag) && are_apart(rest),
    }
}

fn are_header_fields(fields: &[Extra]) -> bool
    ensures { result ≡ list_all is_header_field fields.now }
{
    fields.iter().all(is_header_field)
}

fn are_logon_fields(fields: &[Extra]) -> bool
    ensures { result ≡ list_all is_logon_field fields.now }
{
    fields.iter().all(is_logon_field)
}

/// Whether none of the fields of a Logon has the tag of one of a header.
fn are_beside(header: &[Extra], logon: &[Extra]) -> bool
    ensures { result ≡ are_beside header.now logon.now }
{
    logon.iter().all(|field| !has_tag(header, field.tag))
}

/// Whether a venue can want these fields.
#[tactic(auto, unfolding(crate::specs::Dress::is_dress))]
fn is_dress(header: &[Extra], logon: &[Extra]) -> bool
    ensures { result ≡ is_dress (record { header = header.now; logon = logon.now }) }
{
    are_header_fields(header)
        && are_logon_fields(logon)
        && are_apart(header)
        && are_apart(logon)
        && are_beside(header, logon)
}

/// What an order carries already, if it carries a field of this tag.
fn fault_in(words: &Words, tag: u32) -> Option<FieldFault>
    ensures { result ≡ fault_in words.now tag }
{
    if tag == words.mark_tag {
        Some(FieldFault::OfMark)
    } else if has_tag(words.extra.as_slice(), tag) {
        Some(FieldFault::OfOrder)
    } else {
        None
    }
}

/// What an order that a venue spells so carries already, if it carries a field of this tag.
fn fault_among(words: &VenueWords, tag: u32) -> Option<FieldFault>
    ensures { result ≡ fault_among words.now tag }
{
    match words {
        VenueWords::Preset(dialect) => fault_in(&words_of(*dialect), tag),
        VenueWords::Table(table) => fault_in(table.words(), tag),
    }
}

/// Why no header takes one more field of this tag.
fn header_fault(tag: u32) -> FieldFault
    ensures { result ≡ header_fault tag }
{
    if is_venue_header_tag(tag) {
        FieldFault::Twice
    } else {
        FieldFault::NoHeader
    }
}

/// Why no Logon takes one more field of this tag.
fn logon_fault(tag: u32) -> FieldFault
    ensures { result ≡ logon_fault tag }
{
    if is_session_tag(tag) {
        FieldFault::OfSession
    } else if is_data_tag(tag) {
        FieldFault::OfData
    } else if is_own_logon_tag(tag) {
        FieldFault::OfLogon
    } else if tag == PASSWORD {
        FieldFault::OfPassword
    } else {
        FieldFault::Twice
    }
}

/// These fields, where a venue can want them.
fn dress_or(fault: FieldFault, header: DressFields, logon: DressFields) -> Result<Dress, FieldFault>
    ensures { result ≡ dress_or fault (record { header = header.items; logon = logon.items }) }
{
    if is_dress(header.as_slice(), logon.as_slice()) {
        Ok(Dress { header, logon })
    } else {
        Err(fault)
    }
}

impl Dress {
    /// Nothing besides.
    #[tactic(auto, unfolding(crate::specs::Dress::is_dress))]
    pub fn none() -> Dress
        ensures { result ≡ no_dress }
    {
        Dress {
            header: ArrayVec::new(),
            logon: ArrayVec::new(),
        }
    }

    /// With one more field of every header, as `50=TRADER1`, for a venue that spells its orders so: of a tag that
    /// isn't its mark's and that no field of `order` has.
    #[tactic(auto, unfolding(crate::specs::Dress::with_header))]
    pub fn with_header(self, words: &VenueWords, text: &[u8]) -> Result<Dress, FieldFault>
        ensures { result ≡ with_header self words.now text.now }
    {
        let Some(field) = read_pair(text) else {
            return Err(FieldFault::NoField);
        };
        if let Some(fault) = fault_among(words, field.tag) {
            return Err(fault);
        }
        let fault = header_fault(field.tag);
        let Dress { mut header, logon } = self;
        if header.is_full() {
            return Err(FieldFault::Full);
        }
        header.push(field);
        dress_or(fault, header, logon)
    }

    /// With one more field of the Logon, as `553=DESK`.
    #[tactic(auto, unfolding(crate::specs::Dress::with_logon))]
    pub fn with_logon(self, text: &[u8]) -> Result<Dress, FieldFault>
        ensures { result ≡ with_logon self text.now }
    {
        let Some(field) = read_pair(text) else {
            return Err(FieldFault::NoField);
        };
        let fault = logon_fault(field.tag);
        let Dress { header, mut logon } = self;
        if logon.is_full() {
            return Err(FieldFault::Full);
        }
        logon.push(field);
        dress_or(fault, header, logon)
    }

    /// Fields of every header: of the tags 50, 57, 115, 116, 128, 129, 142 to 145 and those from 5000 on.
    pub fn header(&self) -> &[Extra]
        ensures value { result.now ≡ self.now.header }
        ensures few { length result.now ≤ 8 }
        ensures valid { is_dress self.now ≡ true }
    {
        self.header.as_slice()
    }

    /// Fields of the Logon alone.
    pub fn logon(&self) -> &[Extra]
        ensures value { result.now ≡ self.now.logon }
        ensures few { length result.now ≤ 8 }
        ensures valid { is_dress self.now ≡ true }
    {
        self.logon.as_slice()
    }
}
