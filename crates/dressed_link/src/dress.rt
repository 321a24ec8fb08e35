//! What a venue's messages carry beside.

ghost use Rattle.std.specs.Prelude.{◌≡◌, ◌+◌, ◌≤◌, ◌++◌, None, Err, length, take, drop, IfOk, IfSome, IsOkUnless, IsSomeAnd, OnOk, OnErr};
ghost use Rattle.std.specs.Option.{option_map};
ghost use Rattle.fix_text.specs.FrameFields.{fields_in};
ghost use Rattle.fix_text.specs.Reading.{next_read};
ghost use Rattle.fix_text.specs.Tagged.{value_of};
ghost use Rattle.dressed_link.specs.Dressing.{dress_of, dressed_fields, header_size, is_bare, is_logon_kind};
ghost use Rattle.dressed_link.specs.Fronts.{dressed_front};

use crate::dress_fault::DressFault;
use crate::secret::Secret;
use fix_tags::is_header_tag;
use fix_text::{Field, FieldSink, Frame, FrameReader, write_frame};
use std::alloc::{AllocError, Global};
use std::marker::Model;

/// MsgType.
const MSG_TYPE: u32 = 35;

/// Password.
const PASSWORD: u32 = 554;

/// Fields behind the header of each message, and behind those of a Logon, the password last.
#[derive(Drop)]
pub struct Dress {
    header: Vec<Field>,
    logon: Vec<Field>,
    secret: Option<Secret>,
}

impl Model for Dress {
    ghost use Rattle.fix_tags.specs.Dress.{Dress as DressParts};
    ghost use Rattle.dressed_link.specs.Dressing.{dress_of};

    ghost Value = { DressParts };

    ghost view = { λ dress. dress_of dress.header.items dress.logon.items dress.secret };
}

/// How many fields the header of a message has.
fn header_size(frame: &Frame<'_>) -> usize
    ensures value { result ≡ header_size (fields_in frame.now) }
    ensures within { result ≤ length (fields_in frame.now) }
{
    for index in 0..frame.len() {
        if !is_header_tag(frame.field(index).tag()) {
            return index;
        }
    }
    frame.len()
}

/// Whether a message is a Logon.
fn is_logon(frame: &Frame<'_>) -> bool
    ensures { result ≡ is_logon_kind (value_of (fields_in frame.now) 35) }
{
    match frame.get(MSG_TYPE) {
        Some([kind]) => *kind == b'A',
        _ => false,
    }
}

/// Pushes the fields of a frame from one place up to another.
fn push_own(
    alloc: Global,
    frame: &Frame<'_>,
    from: usize,
    to: usize,
    fields: &mut Vec<Field>,
) -> Result<(), AllocError>
    requires order { from ≤ to }
    requires within { to ≤ length (fields_in frame.now) }
    ensures { OnOk result (fields.new.items ≡ fields.old.items ++ drop from (take to (fields_in frame.now))) }
{
    for index in from..to {
        let field = frame.field(index);
        fields.push_field(alloc, field.tag(), field.value())?;
    }
    Ok(())
}

/// Pushes copies of these fields.
fn push_copies(alloc: Global, copied: &[Field], fields: &mut Vec<Field>) -> Result<(), AllocError>
    ensures { OnOk result (fields.new.items ≡ fields.old.items ++ copied.now) }
{
    for field in copied {
        fields.push_field(alloc, field.tag(), field.value())?;
    }
    Ok(())
}

impl Dress {
    /// These fields, and this password.
    pub fn new(header: Vec<Field>, logon: Vec<Field>, secret: Option<Secret>) -> Dress
        ensures { result ≡ dress_of header.items logon.items secret }
    {
        Dress {
            header,
            logon,
            secret,
        }
    }

    /// Whether it changes no message.
    pub fn is_bare(&self) -> bool
        ensures { result ≡ is_bare self.now }
    {
        self.header.is_empty() && self.logon.is_empty() && self.secret.is_none()
    }

    /// Pushes what stands behind the fields of a Logon.
    fn push_logon(&self, alloc: Global, fields: &mut Vec<Field>) -> Result<(), AllocError>
        ensures { OnOk result (fields.new.items ≡ fields.old.items ++ self.now.logon) }
    {
        push_copies(alloc, self.logon.as_slice(), fields)?;
        match &self.secret {
            Some(secret) => fields.push_field(alloc, PASSWORD, secret.as_bytes()),
            None => Ok(()),
        }
    }

    /// The fields of a message, dressed.
    fn fields_on(&self, alloc: Global, frame: &Frame<'_>) -> Result<Vec<Field>, AllocError>
        ensures { IfOk result (λ fields. fields.items ≡ dressed_fields self.now (fields_in frame.now)) }
    {
        let size = header_size(frame);
        let mut fields = Vec::new(alloc);
        push_own(alloc, frame, 0, size, &mut fields)?;
        push_copies(alloc, self.header.as_slice(), &mut fields)?;
        push_own(alloc, frame, size, frame.len(), &mut fields)?;
        if is_logon(frame) {
            self.push_logon(alloc, &mut fields)?;
        }
        Ok(fields)
    }

    /// The fields of the next frame, dressed.
    fn next_fields(
        &self,
        alloc: Global,
        reader: &mut FrameReader,
    ) -> Result<Option<Vec<Field>>, DressFault>
        ensures fields { IfOk result (λ found. option_map (λ fields. fields.items) found
            ≡ option_map (dressed_fields self.now) (next_read reader.old).frame) }
        ensures reader { IfOk result (λ _. reader.new ≡ (next_read reader.old).stream) }
        ensures shorter { IfOk result (λ found. IfSome found (λ _.
            length (next_read reader.old).stream.rest ≤ length reader.old.rest)) }
        ensures memory { IsOkUnless result DressFault.OutOfMemory }
    {
        match reader.next()? {
            Some(frame) => {
                let fields = self.fields_on(alloc, &frame)?;
                Ok(Some(fields))
            }
            None => Ok(None),
        }
    }

    /// Appends the frame at the front of some bytes, dressed, and says how many of these bytes it was. A refusal leaves
    /// `out` as it was.
    pub(crate) fn put_on(
        &self,
        alloc: Global,
        bytes: &[u8],
        out: &mut Vec<u8>,
    ) -> Result<usize, DressFault>
        ensures ok { IfOk result (λ count. IsSomeAnd (dressed_front self.now bytes.now) (λ dressed.
            (count + length dressed.rest ≡ length bytes.now) × (out.new.items ≡ out.old.items ++ dressed.text))) }
        ensures err { OnErr result (out.new.items ≡ out.old.items) }
        ensures refused { result ≡ Err DressFault.NoFrame → dressed_front self.now bytes.now ≡ None }
    {
        let mut reader = FrameReader::new(alloc);
        reader.feed(bytes)?;
        let Some(fields) = self.next_fields(alloc, &mut reader)? else {
            return Err(DressFault::NoFrame);
        };
        if reader.skipped() != 0 || reader.garbled() != 0 {
            return Err(DressFault::NoFrame);
        }
        let left = reader.waiting();
        write_frame(fields.as_slice(), out)?;
        Ok(bytes.len() - left)
    }
}
