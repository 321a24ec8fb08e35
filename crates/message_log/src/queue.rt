//! The lines that wait to be written, and how many were kept and lost.

ghost use Rattle.std.specs.Prelude.{◌≡◌, ◌+◌};
ghost use Rattle.std.specs.Option.{option_map};
ghost use Rattle.message_log.specs.Queue.{AddsUp, Puts, empty_queue, has_count, has_room, one_lost, settled, taken};

use crate::lost::Lost;
use std::alloc::Global;
use std::marker::Model;
use std::mem;

/// The lines of one log, in order, between the thread that puts them and the one that writes them, and the counts of
/// them: each line that is put waits, or is kept, or is lost. A line waits until its batch is settled, also while the
/// batch is being written. The counts stop at the greatest number of 64 bits.
#[derive(Debug, Drop)]
pub struct LogQueue {
    alloc: Global,
    lines: Vec<u8>,
    room: usize,
    queued: u64,
    in_hand: u64,
    kept: u64,
    lost: u64,
    put: u64,
}

impl Model for LogQueue {
    ghost use Rattle.message_log.specs.Queue.{IsQueue, QueueParts};

    ghost Value = { QueueParts };

    ghost view = { λ q. record {
      lines = q.lines.items;
      room = q.room;
      queued = q.queued;
      in_hand = q.in_hand;
      kept = q.kept;
      lost = q.lost;
      put = q.put;
    } };

    ghost invariant = { λ q. IsQueue (record {
      lines = q.lines.items;
      room = q.room;
      queued = q.queued;
      in_hand = q.in_hand;
      kept = q.kept;
      lost = q.lost;
      put = q.put;
    }) };
}

impl LogQueue {
    ghost use Rattle.message_log.specs.Queue.{AddsUp};

    /// A queue of no lines, for at most `room` bytes of them.
    pub fn new(alloc: Global, room: usize) -> LogQueue
        ensures { result ≡ empty_queue room }
    {
        LogQueue {
            alloc,
            lines: Vec::new(alloc),
            room,
            queued: 0,
            in_hand: 0,
            kept: 0,
            lost: 0,
            put: 0,
        }
    }

    /// Whether one more message can be counted.
    fn has_count(&self) -> bool
        ensures { result ≡ has_count self.now }
    {
        self.put < u64::MAX
    }

    /// Whether there is room for a line and for its count.
    fn has_room(&self, line: &[u8]) -> bool
        ensures { result ≡ has_room line.now self.now }
    {
        self.has_count() && line.len() <= self.room - self.lines.len()
    }

    /// Puts a line behind those that wait. Where there is no room or no memory for it, it is lost, and counted so.
    pub fn put(&mut self, line: &[u8]) -> Result<(), Lost>
        ensures { Puts line.now self.old result self.new }
    {
        if !self.has_room(line) {
            self.lose();
            return Err(Lost::NoRoom);
        }
        if self.lines.extend_from_slice(line).is_err() {
            self.lose();
            return Err(Lost::OutOfMemory);
        }
        self.put += 1;
        self.queued += 1;
        Ok(())
    }

    /// Counts a message for whose line there was no memory.
    pub fn lose(&mut self)
        ensures { self.new ≡ one_lost self.old }
    {
        if self.has_count() {
            self.put += 1;
            self.lost += 1;
        }
    }

    /// Hands over the lines that wait, in order; none where there is none, or where those that were handed over before
    /// aren't settled yet.
    pub fn take(&mut self) -> Option<Vec<u8>>
        ensures { (option_map (λ lines. lines.items) result, self.new) ≡ taken self.old }
    {
        if self.queued == 0 || self.in_hand > 0 {
            return None;
        }
        self.in_hand = self.queued;
        self.queued = 0;
        Some(mem::replace(&mut self.lines, Vec::new(self.alloc)))
    }

    /// Counts the lines that were handed over as kept where they were written, else as lost.
    pub fn settle(&mut self, is_written: bool)
        ensures { self.new ≡ settled is_written self.old }
    {
        if is_written {
            self.kept += self.in_hand;
        } else {
            self.lost += self.in_hand;
        }
        self.in_hand = 0;
    }

    /// How many messages are kept in the log.
    pub fn kept(&self) -> u64
        ensures value { result ≡ self.now.kept }
        ensures adds_up { AddsUp self.now }
    {
        self.kept
    }

    /// How many were lost: for want of room or memory, or because a write failed, which may have written some of them.
    pub fn lost(&self) -> u64
        ensures value { result ≡ self.now.lost }
        ensures adds_up { AddsUp self.now }
    {
        self.lost
    }

    /// How many wait. Kept, lost and waiting add up to all that were put.
    pub fn waiting(&self) -> u64
        ensures value { result ≡ self.now.queued + self.now.in_hand }
        ensures adds_up { self.now.kept + self.now.lost + result ≡ self.now.put }
    {
        self.queued + self.in_hand
    }

    /// How many were put.
    pub fn put_count(&self) -> u64
        ensures value { result ≡ self.now.put }
        ensures adds_up { AddsUp self.now }
    {
        self.put
    }
}
