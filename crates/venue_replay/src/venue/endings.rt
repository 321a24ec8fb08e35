//! What ends the connection of a venue, at either end.

ghost use Rattle.std.specs.Prelude.{◌≡◌};
ghost use Rattle.session_core.specs.Calling.{broken, abandon};
ghost use Rattle.exchange_core.specs.Exchange.{drop_connection};

use super::Venue;
use dialect::Dialect;

impl<D: Dialect + Drop> Venue<D> {
    /// The session's end of the connection is gone.
    pub fn break_off(&mut self)
        ensures { self.new ≡ record self.old { session = broken self.old.session } }
    {
        self.session.broken();
    }

    /// The session is given up.
    pub fn abandon(&mut self)
        ensures { self.new ≡ record self.old { session = abandon self.old.session } }
    {
        self.session.abandon();
    }

    /// The exchange's end of the connection is gone.
    pub fn drop_connection(&mut self)
        ensures { self.new ≡ record self.old { exchange = drop_connection self.old.exchange } }
    {
        self.exchange.drop_connection();
    }
}
