//! What ends a connection, at either end.

ghost use Rattle.std.specs.Prelude.{◌≡◌, ◌<◌, length};
ghost use Rattle.schedule.specs.declared.event.Event.TheVariants as event;
ghost use Rattle.schedule.specs.Happening.{happens};

use super::World;
use dialect::Dialect;
use leg::VenueId;

impl<D: Dialect + Drop> World<D> {
    /// The session's end of the connection breaks.
    pub(crate) fn break_off(&mut self, venue: VenueId)
        requires { venue < length self.old.venues }
        ensures { self.new ≡ happens self.old (event.Break venue) }
    {
        self.venues[usize::from(venue.number())].break_off();
    }

    /// The exchange's end of the connection breaks.
    pub(crate) fn drop_connection(&mut self, venue: VenueId)
        requires { venue < length self.old.venues }
        ensures { self.new ≡ happens self.old (event.ExchangeBreak venue) }
    {
        self.venues[usize::from(venue.number())].drop_connection();
    }

    /// The gate is shut, and the session given up.
    pub(crate) fn abandon(&mut self, venue: VenueId)
        requires { venue < length self.old.venues }
        ensures { self.new ≡ happens self.old (event.Abandon venue) }
    {
        self.desk.shut(venue);
        self.venues[usize::from(venue.number())].abandon();
    }
}
