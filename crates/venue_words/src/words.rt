//! The words of a venue.

ghost use Rattle.std.specs.Prelude.{◌≡◌};
ghost use Rattle.venue_words.specs.Dialect.{dialect_of, preset_dialect};

use crate::table::WordTable;
use crate::venue_dialect::VenueDialect;
use dialect::AnyDialect;

/// How a venue spells its orders: as one of the dialects, or by a table.
#[derive(Debug, Drop)]
pub enum VenueWords {
    Preset(AnyDialect),
    Table(WordTable),
}

fn preset_dialect(dialect: AnyDialect) -> VenueDialect
    ensures { result ≡ preset_dialect dialect }
{
    match dialect {
        AnyDialect::Plain => VenueDialect::Plain,
        AnyDialect::Split4 => VenueDialect::Split4,
        AnyDialect::Coded => VenueDialect::Coded,
    }
}

impl VenueWords {
    /// The dialect that writes and reads them.
    pub fn dialect(&self) -> VenueDialect
        ensures { result ≡ dialect_of self.now }
    {
        match self {
            VenueWords::Preset(dialect) => preset_dialect(*dialect),
            VenueWords::Table(table) => VenueDialect::Worded(table.dialect()),
        }
    }
}
