//! What notes the messages of a link.

ghost use Rattle.std.specs.Prelude.{◌≡◌, ◌≤◌, Some, [], length, IfNone, OnSome};
ghost use Rattle.day_log.specs.Messages.{after_end, after_hearing, after_read, after_taking};

use crate::frame_head::has_type;
use crate::order_times::moment;
use crate::split::last_message;
use crate::traffic::Traffic;
use crate::venue_log::VenueLog;
use crate::way::{Noting, Way};
use change_count::ChangeCount;
use clock::Clock;
use message_log::Direction;
use std::alloc::Global;
use std::sync::{Arc, Wait};
use std::time;

/// How many times the worker comes back to its link until it has done and told all that the end of a connection or a
/// refused dial asks for: it does part of that in its next turn.
const LATER: u8 = 2;

/// MsgType (35) of an order (FIX 4.4 Volume 4, NewOrderSingle).
const ORDER: &[u8; 5] = b"35=D\x01";

/// Notes what goes over a link: it counts it, and puts a line for each message into a log, if one is kept. Where the
/// log's lock is held it waits; the other one that takes it, the thread that writes, holds it for a moment only. Where
/// no log is kept it looks at the headers of messages alone, and keeps no byte but those of a Logout.
#[derive(Drop)]
pub struct Recorder<'a, R: Wait + time::Clock, C: Clock + Drop> {
    rt: &'a R,
    clock: C,
    traffic: Arc<Traffic, Global>,
    log: Option<Arc<VenueLog, Global>>,
    sent: Way,
    received: Way,
    // Where it tells that the worker did something, if somewhere.
    news: Option<Arc<ChangeCount, Global>>,
    // How many times it is still told that the worker comes back to its link, behind what it did last.
    untold: u8,
}

impl<'a, R: Wait + time::Clock, C: Clock + Drop> Recorder<'a, R, C> {
    /// Nothing went over the link yet. Without a log, what goes over it is counted, and no line is made.
    pub fn new(
        rt: &'a R,
        clock: C,
        traffic: Arc<Traffic, Global>,
        log: Option<Arc<VenueLog, Global>>,
    ) -> Recorder<'a, R, C> {
        Recorder {
            rt,
            clock,
            traffic,
            log,
            sent: Way::new(),
            received: Way::new(),
            news: None,
            untold: 0,
        }
    }

    /// From now on it tells there that the worker did something.
    pub fn tell_on(&mut self, news: Arc<ChangeCount, Global>) {
        self.news = Some(news);
    }

    /// The worker comes back to its link. What it did for what it heard last, and has told others, is news.
    pub(crate) fn came_back(&mut self) {
        if self.untold == 0 {
            return;
        }
        self.untold -= 1;
        if let Some(news) = &self.news {
            news.tell();
        }
    }

    /// A new connection began.
    pub(crate) fn dialled(&mut self)
        ensures received { OnSome self.old.log (self.new.received ≡ after_end self.old.received) }
        ensures sent { self.new.sent ≡ record self.old.sent { kept = Some [] } }
    {
        self.traffic.count_connection();
        self.ended();
    }

    /// The connection ended. The messages that came and weren't heard are noted; what was under way is none.
    pub(crate) fn ended(&mut self)
        ensures received { OnSome self.old.log (self.new.received ≡ after_end self.old.received) }
        ensures unlogged { IfNone self.old.log (self.new.received ≡ record self.old.received { kept = Some [] }) }
        ensures sent { self.new.sent ≡ record self.old.sent { kept = Some [] } }
    {
        self.untold = LATER;
        self.sent.pass(0);
        match &self.log {
            Some(log) => {
                let stamp = self.clock.now();
                let noting = Noting {
                    rt: self.rt,
                    log,
                    stamp: &stamp,
                    direction: Direction::Received,
                };
                self.received.ended(&noting);
            }
            None => self.received.pass(0),
        }
    }

    /// No connection could be had.
    pub(crate) fn refused(&mut self) {
        self.traffic.count_refused_dial();
        self.untold = LATER;
    }

    /// The link was given these bytes to write, and took so many of them.
    pub(crate) fn sent(&mut self, bytes: &[u8], count: usize)
        requires { count ≤ length bytes.now }
        ensures sent { OnSome self.old.log (self.new.sent ≡ after_taking self.old.sent bytes.now count) }
        ensures unlogged { IfNone self.old.log (self.new.sent ≡ self.old.sent) }
        ensures received { self.new.received ≡ self.old.received }
    {
        if count == 0 {
            return;
        }
        let (taken, left) = bytes.split_at(count);
        let is_whole = left.is_empty();
        self.untold = self.untold.max(1);
        self.time_order(taken);
        self.traffic.count_sent(count as u64);
        if is_whole {
            self.traffic.count_message_sent();
        }
        if let Some(log) = &self.log {
            let stamp = self.clock.now();
            let noting = Noting {
                rt: self.rt,
                log,
                stamp: &stamp,
                direction: Direction::Sent,
            };
            self.sent.wrote(&noting, taken, is_whole);
        }
    }

    /// Counts how long an order waited whose first bytes these are, if they are.
    fn time_order(&self, bytes: &[u8]) {
        let times = self.traffic.order_times();
        if times.is_waiting() && has_type(bytes, ORDER) {
            times.written(moment(self.rt));
        }
    }

    /// The link gave these bytes.
    pub(crate) fn received(&mut self, bytes: &[u8])
        ensures received { OnSome self.old.log (self.new.received ≡ after_read self.old.received bytes.now) }
        ensures unlogged { IfNone self.old.log (self.new.received.noted ≡ self.old.received.noted) }
        ensures sent { self.new.sent ≡ self.old.sent }
    {
        self.traffic.count_received(bytes.len() as u64);
        if self.log.is_some() {
            self.received.read(bytes);
        } else {
            self.received.read_unlogged(bytes);
        }
    }

    /// The session heard a message in these bytes, behind which so many of them are left.
    pub(crate) fn heard(&mut self, left: usize)
        ensures received { OnSome self.old.log (self.new.received ≡ after_hearing self.old.received left) }
        ensures unlogged { IfNone self.old.log (self.new.received.noted ≡ self.old.received.noted) }
        ensures sent { self.new.sent ≡ self.old.sent }
    {
        self.untold = self.untold.max(1);
        self.traffic.count_message_received();
        if let Some(bytes) = self.received.front(left) {
            let text = self.traffic.logout_text();
            text.hear(self.rt, last_message(bytes));
        }
        match &self.log {
            Some(log) => {
                let stamp = self.clock.now();
                let noting = Noting {
                    rt: self.rt,
                    log,
                    stamp: &stamp,
                    direction: Direction::Received,
                };
                self.received.heard(&noting, left);
            }
            None => self.received.pass(left),
        }
    }
}
