//! A replay script.

ghost use Rattle.std.specs.Prelude.{◌≡◌, IfOk, Ok};
ghost use Rattle.schedule.specs.Script.{with_events};
ghost use Rattle.script.specs.Limits.{IsWithinLimits};
ghost use Rattle.script.specs.Parts.{parts_of};

use crate::head::Head;
use crate::parts::Parts;
use dialect::AnyDialect;
use schedule::Event;
use std::alloc::{AllocError, Global};
use std::marker::Model;

/// The events of a world, and what the world is made with.
#[derive(Debug, Drop)]
pub struct Script {
    max_number: u64,
    dialects: Vec<AnyDialect>,
    next: Vec<bool>,
    events: Vec<Event>,
}

impl Model for Script {
    ghost use Rattle.schedule.specs.Script.{ScriptParts};
    ghost use Rattle.script.specs.Limits.{IsWithinLimits};

    ghost Value = { ScriptParts };

    ghost view = { λ s. record {
      max_number = s.max_number;
      dialects = s.dialects.items;
      next = s.next.items;
      events = s.events.items;
    } };

    ghost invariant = { λ s. IsWithinLimits (record {
      max_number = s.max_number;
      dialects = s.dialects.items;
      next = s.next.items;
      events = s.events.items;
    }) };
}

impl Script {
    pub(crate) fn new(alloc: Global, head: &Head, events: Vec<Event>) -> Result<Script, AllocError>
        ensures { IfOk result (λ script. Ok script ≡ with_events head.now (Ok events.items)) }
    {
        Ok(Script {
            max_number: head.max_number(),
            dialects: head.dialects(alloc)?,
            next: head.next(alloc)?,
            events,
        })
    }

    /// The number that no message of a session has, 16 to 999,999,999.
    pub fn max_number(&self) -> u64
        ensures { result ≡ self.now.max_number }
    {
        self.max_number
    }

    /// The dialect of each venue. There are 1 to 16.
    pub fn dialects(&self) -> &[AnyDialect]
        ensures { result.now ≡ self.now.dialects }
    {
        self.dialects.as_slice()
    }

    /// Of each venue, whether its Logons say which number is expected next: NextExpectedMsgSeqNum (789) of a Logon, FIX
    /// 4.4 Volume 2.
    pub fn next(&self) -> &[bool]
        ensures { result.now ≡ self.now.next }
    {
        self.next.as_slice()
    }

    /// The events, in order.
    pub fn events(&self) -> &[Event]
        ensures { result.now ≡ self.now.events }
    {
        self.events.as_slice()
    }

    /// The script in its parts, which a world is made of and runs. It takes no memory.
    pub fn into_parts(self) -> Parts
        ensures parts { parts_of result ≡ self }
        ensures limits { IsWithinLimits (parts_of result) }
    {
        Parts {
            max_number: self.max_number,
            dialects: self.dialects,
            next: self.next,
            events: self.events,
        }
    }
}
