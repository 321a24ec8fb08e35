//! What tells the moment.

ghost use Rattle.std.specs.Prelude.{◌≡◌};

use fix_tags::Stamp;

/// Tells the moment as a stamp in UTC. A clock may go back: nothing is said of one stamp and the next.
pub trait Clock {
    ghost use Rattle.fix_tags.specs.Stamp.{StampParts};

    // the stamp that the clock told last
    ghost last: { Self → StampParts };

    /// The moment, or the last stamp again where the clock can't tell it.
    fn now(&mut self) -> Stamp
        ensures { result ≡ last self.new };

    /// The milliseconds since some moment, to tell how much time has passed between two answers. No answer is less than
    /// one before, as long as the system's clock can be read; it is 0 where it can't.
    fn millis(&self) -> u64;
}
