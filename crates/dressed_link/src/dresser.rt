//! Dresses what is written over a link, and keeps what the link hasn't taken yet.

ghost use Rattle.std.specs.Prelude.{◌≡◌, ◌≤◌, ◌++◌, ℕ, List, [], length, drop, take, vec_len, IfOk, MatchResult, Some, true, false};
ghost use Rattle.std.proofs.Props.{props};
ghost use Rattle.link.specs.Told.{is_begun};
ghost use Rattle.link.specs.Counts.{Fits, IsSomeOf, Rises};
ghost use Rattle.link.specs.Traffic.{Tells, Dials, Takes, Gives, Stays};
ghost use Rattle.dressed_link.specs.Passing.{told_over};

use crate::dress::Dress;
use crate::told::Told;
use link::{Got, Link, LinkFault};
use std::alloc::Global;

/// What dresses the frames that are written over a link. Each frame is taken whole: its dressed text is pending until
/// the link below has taken it, and is written before anything else. A break loses what is pending.
#[derive(Drop)]
pub(crate) struct Dresser {
    alloc: Global,
    dress: Dress,
    pending: Vec<u8>,
    // Whether there is a connection.
    is_up: bool,
    faults: u64,
    told: Told,
    ghost begun: { is_up ≡ true → is_begun told.traffic ≡ true } by { Prim.hlevel props },
}

/// Lets go of the first bytes.
fn drop_front(bytes: &mut Vec<u8>, count: usize)
    requires { count ≤ vec_len bytes.old }
    ensures { bytes.new.items ≡ drop count bytes.old.items }
{
    let left = bytes.len() - count;
    bytes.copy_within(count.., 0);
    bytes.truncate(left);
}

/// Writes what is pending, in order. At a fault the rest of it stays pending.
fn flush<K: Link>(link: &mut K, pending: &mut Vec<u8>) -> Result<(), LinkFault>
    ensures gone { (gone : List ℕ) × (pending.old.items ≡ gone ++ pending.new.items)
        × Tells (K.wire link.old) (K.wire link.new) (Takes gone) }
    ensures empty { IfOk result (λ _. pending.new.items ≡ []) }
    ensures faults { Rises result (K.fault_count link.old) (K.fault_count link.new) }
{
    while !pending.is_empty() {
        let count = link.write(pending.as_slice())?;
        drop_front(pending, count);
    }
    Ok(())
}

impl Dresser {
    ghost use Rattle.dressed_link.specs.Links.{Carries, IsWrittenOr, all_faults};

    /// Nothing was dialled yet.
    pub(crate) fn new(alloc: Global, dress: Dress) -> Dresser
        ensures dress { result.dress ≡ dress }
        ensures pending { result.pending.items ≡ [] }
        ensures down { result.is_up ≡ false }
        ensures told { result.told.traffic ≡ [] }
        ensures faults { result.faults ≡ 0 }
    {
        Dresser {
            alloc,
            dress,
            pending: Vec::new(alloc),
            is_up: false,
            faults: 0,
            told: Told::new(),
        }
    }

    /// Whether bytes are yet to be written.
    pub(crate) fn is_pending(&self) -> bool {
        !self.pending.is_empty()
    }

    /// How many calls failed here, and not at the link below.
    pub(crate) fn faults(&self) -> u64
        ensures { result ≡ self.now.faults }
    {
        self.faults
    }

    /// Begins a new connection. What was pending is lost.
    pub(crate) fn dial<K: Link>(&mut self, link: &mut K) -> Result<(), LinkFault>
        ensures carries { Carries (Some self.old) (K.wire link.old) → Carries (Some self.new) (K.wire link.new) }
        ensures dress { self.new.dress ≡ self.old.dress }
        ensures wire { MatchResult result
            (λ _. Tells (told_over self.old.told.traffic (K.wire link.old))
            (told_over self.new.told.traffic (K.wire link.new)) Dials)
            (λ _. Tells (told_over self.old.told.traffic (K.wire link.old))
            (told_over self.new.told.traffic (K.wire link.new)) Stays) }
        ensures faults { Rises result (all_faults self.old (K.fault_count link.old))
            (all_faults self.new (K.fault_count link.new)) }
    {
        self.is_up = false;
        self.pending.clear();
        link.dial()?;
        self.told = self.told.dialled();
        self.is_up = true;
        Ok(())
    }

    /// Reads, once all that is pending was written. Without a connection nothing comes.
    pub(crate) fn read<K: Link>(&mut self, link: &mut K, buf: &mut [u8]) -> Result<Got, LinkFault>
        ensures carries { Carries (Some self.old) (K.wire link.old) → Carries (Some self.new) (K.wire link.new) }
        ensures dress { self.new.dress ≡ self.old.dress }
        ensures bound { IfOk result (λ got. Fits got (length buf.new)) }
        ensures wire { MatchResult result
            (λ got. Tells (told_over self.old.told.traffic (K.wire link.old))
            (told_over self.new.told.traffic (K.wire link.new)) (Gives got buf.new))
            (λ _. Tells (told_over self.old.told.traffic (K.wire link.old))
            (told_over self.new.told.traffic (K.wire link.new)) Stays) }
        ensures faults { Rises result (all_faults self.old (K.fault_count link.old))
            (all_faults self.new (K.fault_count link.new)) }
    {
        if !self.is_up {
            return Ok(Got::End);
        }
        flush(link, &mut self.pending)?;
        let got = link.read(buf)?;
        if let Got::Bytes(count) = got {
            self.told = self.told.gave(buf.split_at(count).0);
        }
        Ok(got)
    }

    /// Takes the frame at the front of some bytes, once all that is pending was written, and writes it dressed. Bytes
    /// that don't begin with a valid frame are refused. A fault of the link below behind that comes of the next call.
    pub(crate) fn write<K: Link>(&mut self, link: &mut K, bytes: &[u8]) -> Result<usize, LinkFault>
        ensures carries { Carries (Some self.old) (K.wire link.old) → Carries (Some self.new) (K.wire link.new) }
        ensures dress { self.new.dress ≡ self.old.dress }
        ensures bound { IfOk result (λ count. IsSomeOf count (length bytes.now)) }
        ensures wire { MatchResult result
            (λ count. Tells (told_over self.old.told.traffic (K.wire link.old))
            (told_over self.new.told.traffic (K.wire link.new)) (Takes (take count bytes.now)))
            (λ _. Tells (told_over self.old.told.traffic (K.wire link.old))
            (told_over self.new.told.traffic (K.wire link.new)) Stays) }
        ensures faults { Rises result (all_faults self.old (K.fault_count link.old))
            (all_faults self.new (K.fault_count link.new)) }
        ensures written { IfOk result (λ _. IsWrittenOr self.new.pending.items (K.fault_count link.old)
            (K.fault_count link.new)) }
    {
        if !self.is_up {
            return Err(LinkFault::counted(&mut self.faults));
        }
        flush(link, &mut self.pending)?;
        let Ok(count) = self.dress.put_on(self.alloc, bytes, &mut self.pending) else {
            return Err(LinkFault::counted(&mut self.faults));
        };
        self.told = self.told.wrote(bytes.split_at(count).0);
        let _ = flush(link, &mut self.pending);
        Ok(count)
    }

    /// Ends the connection. What is pending is lost.
    pub(crate) fn shut<K: Link>(&mut self, link: &mut K) -> Result<(), LinkFault>
        ensures carries { Carries (Some self.old) (K.wire link.old) → Carries (Some self.new) (K.wire link.new) }
        ensures dress { self.new.dress ≡ self.old.dress }
        ensures wire { Tells (told_over self.old.told.traffic (K.wire link.old))
            (told_over self.new.told.traffic (K.wire link.new)) Stays }
        ensures faults { Rises result (all_faults self.old (K.fault_count link.old))
            (all_faults self.new (K.fault_count link.new)) }
    {
        self.is_up = false;
        self.pending.clear();
        link.shut()
    }
}
