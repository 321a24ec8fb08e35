//! What a worker needs of a connection.

ghost use Rattle.std.specs.Prelude.{◌≡◌, length, take, IfOk, MatchResult};
ghost use Rattle.link.specs.Traffic.{Tells, Dials, Takes, Gives, Stays};
ghost use Rattle.link.specs.Counts.{Fits, IsSomeOf, Rises};

use crate::got::Got;
use crate::link_fault::LinkFault;
use std::time::Duration;

/// A connection that may be dialled again. It counts its faults.
///
/// For contracts a link may tell its traffic: the bytes that went over each of its connections. None of these clauses
/// says that a byte arrives.
pub trait Link: Drop {
    ghost use Rattle.std.specs.Prelude.{Option, List, ℕ};
    ghost use Rattle.link.specs.Traffic.{Traffic};

    // the traffic of each connection, the last dialled first; a link that tells none claims nothing
    ghost wire: { Self → Option (List Traffic) };

    // the faults that it counted
    ghost fault_count: { Self → ℕ };

    /// Begins a new connection, and gives up the one before.
    fn dial(&mut self) -> Result<(), LinkFault>
        ensures wire { MatchResult result (λ _. Tells (wire self.old) (wire self.new) Dials)
            (λ _. Tells (wire self.old) (wire self.new) Stays) }
        ensures faults { Rises result (fault_count self.old) (fault_count self.new) };

    /// Reads what is there, as far as the buffer goes. It never waits.
    fn read(&mut self, buf: &mut [u8]) -> Result<Got, LinkFault>
        ensures bound { IfOk result (λ got. Fits got (length buf.new)) }
        ensures wire { MatchResult result (λ got. Tells (wire self.old) (wire self.new) (Gives got buf.new))
            (λ _. Tells (wire self.old) (wire self.new) Stays) }
        ensures faults { Rises result (fault_count self.old) (fault_count self.new) };

    /// Is told that a message was found in the bytes that the link gave, behind which so many of them are left.
    fn heard(&mut self, left: usize)
        ensures wire { Tells (wire self.old) (wire self.new) Stays }
        ensures faults { fault_count self.new ≡ fault_count self.old };

    /// Is told that the session over the connection came up.
    fn came_up(&mut self)
        ensures wire { wire self.new ≡ wire self.old }
        ensures faults { fault_count self.new ≡ fault_count self.old };

    /// Writes the first of these bytes, and answers how many: one at least, unless there are none.
    fn write(&mut self, bytes: &[u8]) -> Result<usize, LinkFault>
        ensures bound { IfOk result (λ n. IsSomeOf n (length bytes.now)) }
        ensures wire { MatchResult result (λ n. Tells (wire self.old) (wire self.new) (Takes (take n bytes.now)))
            (λ _. Tells (wire self.old) (wire self.new) Stays) }
        ensures faults { Rises result (fault_count self.old) (fault_count self.new) };

    /// Waits until a byte may be there to read, the bell is rung, or this long has passed; where a ring was left behind
    /// it doesn't wait. It may return sooner.
    fn rest(&mut self, most: Duration)
        ensures wire { Tells (wire self.old) (wire self.new) Stays }
        ensures faults { fault_count self.new ≡ fault_count self.old };

    /// Ends the connection, if there is one. Whatever it answers, there is none afterwards.
    fn shut(&mut self) -> Result<(), LinkFault>
        ensures wire { Tells (wire self.old) (wire self.new) Stays }
        ensures faults { Rises result (fault_count self.old) (fault_count self.new) };

    /// How many calls failed, up to the greatest number of its type.
    fn faults(&self) -> u64
        ensures { result ≡ fault_count self.now };
}
