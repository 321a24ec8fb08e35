//! A link in memory.

ghost use Rattle.std.specs.Prelude.{◌≡◌, ◌≤◌, [], length};
ghost use Rattle.exchange_core.specs.Exchange.{new_exchange};

use crate::acceptor::Acceptor;
use crate::memory_plan::MemoryPlan;
use crate::recording::Recording;
use clock::Clock;
use dialect::Dialect;
use exchange_core::Exchange;
use fix_tags::Config;
use link::{Got, Link, LinkFault};
use std::alloc::Global;
use std::time::Duration;

/// A link in memory round an exchange, which takes each byte as it is written. The link tells its bytes, and carries
/// them as it is planned. A call also fails where memory is refused.
#[derive(Drop)]
pub struct MemoryLink<D: Dialect, C: Clock> {
    plan: MemoryPlan,
    acceptor: Acceptor<D, C>,
    recording: Recording,
    // How many calls were made.
    calls: u64,
}

impl<D: Dialect, C: Clock> MemoryLink<D, C> {
    /// A link that isn't dialled yet, to an exchange before anything came. It takes no memory.
    pub fn new(
        alloc: Global,
        dialect: D,
        clock: C,
        config: Config,
        plan: MemoryPlan,
    ) -> MemoryLink<D, C>
        ensures exchange { result.acceptor.engine.exchange ≡ new_exchange config }
        ensures recording { result.recording ≡ record { traffic = []; faults = 0 } }
    {
        MemoryLink {
            plan,
            acceptor: Acceptor::new(alloc, dialect, clock, config, plan.exchange),
            recording: Recording::new(alloc),
            calls: 0,
        }
    }

    /// The exchange as it is.
    pub fn exchange(&self) -> &Exchange
        ensures { result.now ≡ self.now.acceptor.engine.exchange }
    {
        self.acceptor.exchange()
    }

    /// Puts what comes next at the front of a buffer, and says how many bytes.
    fn put_next(&self, buf: &mut [u8]) -> usize
        ensures { result ≤ length buf.new }
    {
        match self.plan.noise {
            None => self.acceptor.copy_waiting(self.plan.most_read, buf),
            Some(byte) => {
                let count = buf.len().min(self.plan.most_read);
                buf[..count].fill(byte);
                count
            }
        }
    }
}

/// Counts a call, and says whether it is the one that fails.
fn counted(calls: &mut u64, fails_at: u64) -> bool {
    *calls = calls.saturating_add(1);
    *calls == fails_at
}

impl<D: Dialect + Drop, C: Clock + Drop> Link for MemoryLink<D, C> {
    ghost use Rattle.std.specs.Prelude.{Some};

    ghost wire = { λ link. Some link.recording.traffic };

    ghost fault_count = { λ link. link.recording.faults };

    fn dial(&mut self) -> Result<(), LinkFault> {
        self.acceptor.disconnect();
        if counted(&mut self.calls, self.plan.fails_at) {
            return Err(self.recording.fault());
        }
        self.recording.dialled()?;
        self.acceptor.connect();
        Ok(())
    }

    fn read(&mut self, buf: &mut [u8]) -> Result<Got, LinkFault> {
        if counted(&mut self.calls, self.plan.fails_at) {
            return Err(self.recording.fault());
        }
        if !self.acceptor.is_connected() {
            return Ok(Got::End);
        }
        let count = self.put_next(buf);
        if count == 0 {
            return Ok(Got::Nothing);
        }
        self.recording.gave(buf.split_at(count).0)?;
        self.acceptor.pass(count);
        Ok(Got::Bytes(count))
    }

    fn heard(&mut self, _left: usize) {}

    fn came_up(&mut self) {}

    fn write(&mut self, bytes: &[u8]) -> Result<usize, LinkFault> {
        if counted(&mut self.calls, self.plan.fails_at) || !self.acceptor.is_connected() {
            return Err(self.recording.fault());
        }
        let count = bytes.len().min(self.plan.most_written.max(1));
        let taken = bytes.split_at(count).0;
        match self.acceptor.receive(taken) {
            Ok(()) => {}
            Err(_) => return Err(self.recording.fault()),
        }
        self.recording.wrote(taken)?;
        Ok(count)
    }

    // The exchange has answered already: whatever comes is there to read.
    fn rest(&mut self, _most: Duration) {}

    fn shut(&mut self) -> Result<(), LinkFault> {
        self.acceptor.disconnect();
        if counted(&mut self.calls, self.plan.fails_at) {
            return Err(self.recording.fault());
        }
        Ok(())
    }

    fn faults(&self) -> u64 {
        self.recording.faults()
    }
}
