//! Writing all of some bytes.

ghost use Rattle.std.specs.Prelude.{MatchResult};
ghost use Rattle.link.specs.Traffic.{Tells, Takes, TakesPart};
ghost use Rattle.link.specs.Counts.{Rises};

use crate::link::Link;
use crate::link_fault::LinkFault;

/// Writes all the bytes, by as many writes as it takes. Where a write fails, the link took those before it.
pub fn write_whole<L: Link>(link: &mut L, bytes: &[u8]) -> Result<(), LinkFault>
    ensures wire { MatchResult result (λ _. Tells (L.wire link.old) (L.wire link.new) (Takes bytes.now))
        (λ _. Tells (L.wire link.old) (L.wire link.new) (TakesPart bytes.now)) }
    ensures faults { Rises result (L.fault_count link.old) (L.fault_count link.new) }
{
    let mut rest = bytes;
    while !rest.is_empty() {
        let taken = link.write(rest)?;
        rest = rest.split_at(taken).1;
    }
    Ok(())
}
