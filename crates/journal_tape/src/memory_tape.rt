//! A tape in memory.

ghost use Rattle.std.specs.Prelude.{◌≡◌, ◌⊎◌, ◌+◌, ◌≤◌, [], ◌∷◌, ◌++◌, length, take, drop, IfOk, OnOk, OnErr};
ghost use Rattle.std.proofs.Common.{inl};
ghost use Rattle.journal_tape.specs.Tape.{zeros};
ghost use Rattle.journal_tape.specs.Past.{HadBeen, only_bytes};

use crate::tape::{Tape, TapeFault};
use std::alloc::{AllocError, Global};

/// A tape in memory, whose calls are done at once. It keeps each content that it had.
#[derive(Drop)]
pub struct MemoryTape {
    alloc: Global,
    bytes: Vec<u8>,
    past: Vec<Vec<u8>>,
}

impl MemoryTape {
    ghost use Rattle.journal_tape.specs.MemoryTape.{memory_bytes};

    /// A tape with these bytes.
    pub fn new(alloc: Global, bytes: Vec<u8>) -> MemoryTape
        ensures { memory_bytes result ≡ bytes.items }
    {
        MemoryTape {
            alloc,
            bytes,
            past: Vec::new(alloc),
        }
    }

    /// A tape of so many zeros.
    pub fn zeros(alloc: Global, room: usize) -> Result<MemoryTape, AllocError>
        ensures { IfOk result (λ tape. memory_bytes tape ≡ zeros room) }
    {
        Ok(MemoryTape::new(alloc, zeros(alloc, room)?))
    }

    /// Its bytes.
    pub fn bytes(&self) -> &[u8]
        ensures { result.now ≡ memory_bytes self.now }
    {
        &self.bytes
    }
}

/// So many zeros.
#[tactic(auto, using(crate::proofs::Texts::zeros_more))]
fn zeros(alloc: Global, count: usize) -> Result<Vec<u8>, AllocError>
    ensures { IfOk result (λ bytes. bytes.items ≡ zeros count) }
{
    let mut bytes = Vec::new(alloc);
    for i in 0..count {
        let _place = i;
        bytes.push(0)?;
    }
    Ok(bytes)
}

/// Puts other bytes in the place of those that are there, which it keeps.
fn replace(
    alloc: Global,
    bytes: &mut Vec<u8>,
    past: &mut Vec<Vec<u8>>,
    next: Vec<u8>,
) -> Result<(), AllocError>
    ensures ok { OnOk result (bytes.new.items ≡ next.items) }
    ensures err { OnErr result (bytes.new.items ≡ bytes.old.items) }
    ensures past { OnOk result ((v : _) × (v.items ≡ bytes.old.items) × (past.new.items ≡ past.old.items ++ v ∷ [])) }
    ensures past_err { OnErr result (past.new.items ≡ past.old.items) }
{
    past.push(bytes.to_vec(alloc)?)?;
    *bytes = next;
    Ok(())
}

/// The bytes with others written over them.
fn written(alloc: Global, old: &[u8], at: usize, bytes: &[u8]) -> Result<Vec<u8>, AllocError>
    requires { at + length bytes.now ≤ length old.now }
    ensures { IfOk result (λ next. next.items
        ≡ take at old.now ++ bytes.now ++ drop (at + length bytes.now) old.now) }
{
    let mut next = old[..at].to_vec(alloc)?;
    next.extend_from_slice(bytes)?;
    next.extend_from_slice(&old[at + bytes.len()..])?;
    Ok(next)
}

impl Tape for MemoryTape {
    ghost seen = { λ m. m.bytes.items };

    ghost may_leave = { λ m c. c ≡ m.bytes.items };

    ghost moment = { λ m. length m.past.items };

    ghost left_since = { λ m t c. (c ≡ m.bytes.items) ⊎ HadBeen (drop t m.past.items) c };

    ghost counts_now = { λ m t c le now. inl now };

    ghost only_now = { λ m c left. only_bytes m.past.items m.bytes.items c left };

    fn write_at(&mut self, at: usize, bytes: &[u8]) -> Result<(), TapeFault> {
        let Ok(next) = written(self.alloc, &self.bytes, at, bytes) else {
            return Err(TapeFault::Failed);
        };
        match replace(self.alloc, &mut self.bytes, &mut self.past, next) {
            Ok(()) => Ok(()),
            Err(_) => Err(TapeFault::Failed),
        }
    }

    fn sync(&mut self) -> Result<(), TapeFault> {
        Ok(())
    }
}
