//! The logs of a day's venues.

ghost use Rattle.std.specs.Prelude.{◌≡◌, false, ◌||◌, [], ◌∷◌, ◌++◌, map, OnOk};
ghost use Rattle.check_command.specs.PathName.{place_line, place_path};

use day_check::{CheckedLog, LinePlace};
use day_rules::{Place, VenueDay};
use std::alloc::{AllocError, Global};

/// The logs that were checked, in the order in which they were read; of a day they are kept, each called after its
/// venue.
#[derive(Drop)]
pub(crate) struct Day<'a> {
    pub paths: Vec<&'a str>,
    pub venues: Vec<VenueDay>,
    /// Whether a rule is broken in one of the logs, or one isn't what the session writes where that is asked for.
    pub is_broken: bool,
}

impl<'a> Day<'a> {
    pub(crate) fn new(alloc: Global) -> Day<'a>
        ensures paths { result.paths.items ≡ [] }
        ensures venues { result.venues.items ≡ [] }
        ensures is_broken { result.is_broken ≡ false }
    {
        Day {
            paths: Vec::new(alloc),
            venues: Vec::new(alloc),
            is_broken: false,
        }
    }

    /// Notes whether a log is broken.
    pub(crate) fn note(&mut self, is_broken: bool)
        ensures { self.new ≡ record self.old { is_broken = self.old.is_broken || is_broken } }
    {
        self.is_broken = self.is_broken || is_broken;
    }

    /// One more log, which was read from this path.
    pub(crate) fn push(&mut self, path: &'a str, log: CheckedLog) -> Result<(), AllocError>
        ensures venues { OnOk result (self.new.venues.items ≡ self.old.venues.items ++ log.day ∷ []) }
        ensures paths { OnOk result (self.new.paths.items ≡ self.old.paths.items ++ path.entry ∷ []) }
        ensures is_broken { self.new.is_broken ≡ self.old.is_broken }
    {
        self.paths.push(path)?;
        self.venues.push(log.day)?;
        Ok(())
    }

    /// A line at a place, where the log of the desk's lines has this path.
    pub(crate) fn line_place<'b>(&'b self, desk: &'b str, place: Place) -> LinePlace<'b>
        ensures path { result.path.now ≡ place_path (map (λ path. path.now) self.now.paths.items) desk.entry.now place }
        ensures line { result.line ≡ place_line place }
    {
        let (path, line) = match place {
            Place::OfDesk(line) => (desk, line),
            Place::OfVenue(venue, line) => match self.paths.get(venue) {
                Some(path) => (*path, line),
                None => (desk, line),
            },
        };
        LinePlace { path, line }
    }
}
