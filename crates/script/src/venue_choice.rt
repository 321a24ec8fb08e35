//! How a venue of a script is spoken to.

ghost use Rattle.std.specs.Prelude.{◌≡◌};
ghost use Rattle.schedule.specs.Script.{venue_of_parts};
ghost use Rattle.text_pieces.specs.Pieces.{pieces};

use crate::dialect_name::dialect_named;
use dialect::AnyDialect;
use std::marker::Model;
use text_pieces::Pieces;

/// A venue's dialect, and whether its Logons say which number is expected next: NextExpectedMsgSeqNum (789) of a Logon,
/// FIX 4.4 Volume 2.
#[derive(Clone, Copy)]
pub(crate) struct VenueChoice {
    dialect: AnyDialect,
    next: bool,
}

impl Model for VenueChoice {
    ghost use Rattle.schedule.specs.Script.{ScriptVenue};

    ghost Value = { ScriptVenue };

    ghost view = { λ v. record { dialect = v.dialect; next = v.next } };

    ghost inverse = { λ v. record { dialect = v.dialect; next = v.next } };
}

impl Default for VenueChoice {
    fn default() -> VenueChoice {
        VenueChoice {
            dialect: AnyDialect::Plain,
            next: false,
        }
    }
}

impl VenueChoice {
    pub(crate) fn dialect(&self) -> AnyDialect
        ensures { result ≡ self.now.dialect }
    {
        self.dialect
    }

    pub(crate) fn next(&self) -> bool
        ensures { result ≡ self.now.next }
    {
        self.next
    }

    /// The venue of a dialect's name, which may have `+789` behind it.
    pub(crate) fn named(word: &[u8]) -> Option<VenueChoice>
        ensures { result ≡ venue_of_parts (pieces 43 word.now) }
    {
        let mut parts = Pieces::new(b'+', word);
        let name = parts.next()?;
        let next = match (parts.next(), parts.next()) {
            (None, _) => false,
            (Some(b"789"), None) => true,
            _ => return None,
        };
        let dialect = dialect_named(name)?;
        Some(VenueChoice { dialect, next })
    }
}
