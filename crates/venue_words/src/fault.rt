//! Why a field isn't taken.

ghost use Rattle.std.specs.Prelude.{Some};
ghost use Rattle.venue_words.specs.Field.{field_fault_text};

use std::fmt;

/// Why a field isn't taken: as the mark of a table, as one that every order carries, or as one of a header or a Logon.
#[derive(Clone, Copy, Debug, PartialEq, Eq)]
pub enum FieldFault {
    /// It isn't `TAG=VALUE`, with a tag from 1 to 999999 and 1 to 24 printable characters.
    NoField,
    /// The session writes a field of this tag itself.
    OfSession,
    /// A field of this tag may hold any byte, or says how long such a field is.
    OfData,
    /// Every order has the tag already.
    InOrder,
    /// It is the mark's tag.
    OfMark,
    /// An earlier field has the tag.
    Twice,
    /// Sixteen are there already.
    TooMany,
    /// The mark's value has a space.
    Spaced,
    /// Eight are there already.
    Full,
    /// No header takes the tag from a venue.
    NoHeader,
    /// A field of `order` has the tag.
    OfOrder,
    /// The Logon has the tag already.
    OfLogon,
    /// It is the password's tag.
    OfPassword,
}

impl fmt::Display for FieldFault {
    ghost output = { λ fault. Some (field_fault_text fault) };

    fn fmt<W: fmt::Write>(&self, f: &mut fmt::Formatter<W>) -> fmt::Result {
        match self {
            FieldFault::NoField => write!(
                f,
                "it has to be TAG=VALUE, a tag from 1 to 999999 and 1 to 24 printable characters"
            ),
            FieldFault::OfSession => write!(f, "its tag is one that the session writes itself"),
            FieldFault::OfData => write!(f, "its tag is one of data"),
            FieldFault::InOrder => write!(f, "every order has its tag already"),
            FieldFault::OfMark => write!(f, "its tag is the mark's"),
            FieldFault::Twice => write!(f, "an earlier field has its tag"),
            FieldFault::TooMany => write!(f, "an order takes 16 at most"),
            FieldFault::Spaced => write!(f, "its value has a space"),
            FieldFault::Full => write!(f, "a header or a Logon takes 8 at most"),
            FieldFault::NoHeader => write!(
                f,
                "its tag has to be 50, 57, 115, 116, 128, 129, 142 to 145, or 5000 or more"
            ),
            FieldFault::OfOrder => write!(f, "a field of order has its tag"),
            FieldFault::OfLogon => write!(f, "the Logon has its tag already"),
            FieldFault::OfPassword => write!(f, "its tag is the password's: name a password_file"),
        }
    }
}
