//! How the two ends stand, as far as the messages show it.

ghost use Rattle.std.specs.Prelude.{◌≡◌};
ghost use Rattle.log_rules.specs.Standing.{after, allowed, asked_after, counted_after, counted_filled, heart_after};
ghost use Rattle.log_rules.specs.Standing.{is_due, is_late, is_logged_out_after, is_peer_out_after, is_up_after};
ghost use Rattle.log_rules.specs.Standing.{last_after, logon_after, new_standing, awaited_above, awaited_after};
ghost use Rattle.log_rules.specs.Standing.{passed_after, phase_after, request_after, resets_after, says_next_after};
ghost use Rattle.log_rules.specs.Standing.{seen_after, settled_after, settles, unless_answered, unless_filled};
ghost use Rattle.log_rules.specs.Standing.{was_reached, wrote_at_after};

use crate::entry::Entry;
use crate::moment::Moment;
use crate::says::Says;
use message_log::Direction;

/// The longest heartbeat interval that is looked at, a day, in seconds.
const LONGEST: u64 = 86_400;

/// How far the two ends are with a connection.
#[derive(Clone, Copy, Debug, PartialEq, Eq)]
pub enum Phase {
    /// No Logon was sent yet.
    Down,
    /// The session's Logon isn't answered yet.
    LoggingOn,
    LoggedOn,
}

/// A resend request of the session: its own number, and the first one that it asks for.
#[derive(Clone, Copy, Debug, PartialEq, Eq)]
pub struct Request {
    pub number: u64,
    pub begin: u64,
}

/// How the two ends stand. What is said of a connection is of the present one, which the session's last Logon began.
#[derive(Clone, Copy, Debug)]
pub struct Standing {
    pub phase: Phase,
    /// Whether a fence of the connection was answered, so that no order of an older one is in doubt.
    pub is_up: bool,
    /// Whether the session logged out in the connection.
    pub is_logged_out: bool,
    /// Whether the exchange logged out in the connection.
    pub is_peer_out: bool,
    /// The heartbeat interval in seconds, and 0 for none.
    pub heart: u64,
    /// When the session wrote last, or was last found to be late.
    pub wrote_at: Option<Moment>,
    /// The number of the session's Logon.
    pub logon: u64,
    /// The session's last number.
    pub last: Option<u64>,
    /// The number of the last fence that was answered: each order below it is settled.
    pub settled: u64,
    /// The greatest number of the session that the exchange is known to have passed.
    pub passed: u64,
    /// From which number the exchange asked for messages again before the connection was up.
    pub asked: Option<u64>,
    /// From which number it asked for messages again and got none yet.
    pub awaited: Option<u64>,
    /// Whether the session's Logon says which number it expects next (789).
    pub says_next: bool,
    /// Whether the session's Logon resets the numbers (141=Y).
    pub resets: bool,
    /// The last number of the exchange that is counted.
    pub counted: Option<u64>,
    /// The greatest number of the exchange that came.
    pub seen: u64,
    /// The last resend request of the connection that isn't answered yet.
    pub request: Option<Request>,
}

impl Standing {
    /// Before any message.
    pub fn new() -> Standing
        ensures { result ≡ new_standing }
    {
        Standing {
            phase: Phase::Down,
            is_up: false,
            is_logged_out: false,
            is_peer_out: false,
            heart: 0,
            wrote_at: None,
            logon: 0,
            last: None,
            settled: 0,
            passed: 0,
            asked: None,
            awaited: None,
            says_next: false,
            resets: false,
            counted: None,
            seen: 0,
            request: None,
        }
    }

    /// Whether the session has sent a message of this number.
    pub fn was_sent(&self, number: u64) -> bool
        ensures { result ≡ was_reached self.now.last number }
    {
        match self.last {
            Some(last) => number <= last,
            None => false,
        }
    }

    /// Whether the answer to this fence settles what is below it: the fence is one of the connection.
    pub fn settles(&self, fence: u64) -> bool
        ensures { result ≡ settles self.now fence }
    {
        self.logon < fence && self.was_sent(fence)
    }

    /// Whether a message of the exchange has the number that is counted next.
    pub fn is_due(&self, number: u64) -> bool
        ensures { result ≡ is_due self.now.counted number }
    {
        match self.counted {
            Some(counted) => counted < number && number - counted == 1,
            None => true,
        }
    }

    /// Whether a message of the exchange with this number is counted.
    pub fn was_counted(&self, number: u64) -> bool
        ensures { result ≡ was_reached self.now.counted number }
    {
        match self.counted {
            Some(counted) => number <= counted,
            None => false,
        }
    }

    /// How many milliseconds the session may be silent: the interval and a fifth of it for the way, and a second.
    fn allowed(&self) -> u64
        ensures { result ≡ allowed self.now.heart }
    {
        1200 * self.heart.min(LONGEST) + 1000
    }

    /// Whether the session was silent for too long at this moment.
    pub fn is_late(&self, moment: Moment) -> bool
        ensures { result ≡ is_late self.now moment }
    {
        match self.wrote_at {
            Some(wrote_at) => 0 < self.heart && self.allowed() < wrote_at.until(moment),
            None => false,
        }
    }

    fn phase_after(&self, entry: &Entry<'_>) -> Phase
        ensures { result ≡ phase_after self.now.phase entry.now.direction entry.now.says }
    {
        match (entry.direction, &entry.says) {
            (Direction::Sent, Says::Logon { .. }) => Phase::LoggingOn,
            (Direction::Received, Says::Logon { .. }) => Phase::LoggedOn,
            _ => self.phase,
        }
    }

    fn is_up_after(&self, entry: &Entry<'_>) -> bool
        ensures { result ≡ is_up_after self.now entry.now.direction entry.now.says }
    {
        match (entry.direction, &entry.says) {
            (Direction::Sent, Says::Logon { .. }) => false,
            (Direction::Received, Says::Answer { fence }) => self.is_up || self.settles(*fence),
            _ => self.is_up,
        }
    }

    fn is_logged_out_after(&self, entry: &Entry<'_>) -> bool
        ensures { result ≡ is_logged_out_after self.now.is_logged_out entry.now.direction entry.now.says }
    {
        match (entry.direction, &entry.says) {
            (Direction::Sent, Says::Logon { .. }) => false,
            (Direction::Sent, Says::Logout) => true,
            _ => self.is_logged_out,
        }
    }

    fn is_peer_out_after(&self, entry: &Entry<'_>) -> bool
        ensures { result ≡ is_peer_out_after self.now.is_peer_out entry.now.direction entry.now.says }
    {
        match (entry.direction, &entry.says) {
            (Direction::Sent, Says::Logon { .. }) => false,
            (Direction::Received, Says::Logout) => true,
            _ => self.is_peer_out,
        }
    }

    fn heart_after(&self, entry: &Entry<'_>) -> u64
        ensures { result ≡ heart_after self.now.heart entry.now.direction entry.now.says }
    {
        match (entry.direction, &entry.says) {
            (Direction::Sent, Says::Logon { heart, .. }) => *heart,
            _ => self.heart,
        }
    }

    fn wrote_at_after(&self, entry: &Entry<'_>) -> Option<Moment>
        ensures { result ≡ wrote_at_after self.now entry.now.direction entry.now.moment }
    {
        if entry.direction == Direction::Sent || self.is_late(entry.moment) {
            return Some(entry.moment);
        }
        self.wrote_at
    }

    fn logon_after(&self, entry: &Entry<'_>) -> u64
        ensures { result ≡ logon_after self.now.logon entry.now }
    {
        match (entry.direction, &entry.says) {
            (Direction::Sent, Says::Logon { .. }) => entry.number,
            _ => self.logon,
        }
    }

    /// A message that may have been sent before has an old number.
    fn last_after(&self, entry: &Entry<'_>) -> Option<u64>
        ensures { result ≡ last_after self.now.last entry.now }
    {
        if entry.poss_dup {
            return self.last;
        }
        match (entry.direction, &entry.says) {
            (Direction::Received, _) => self.last,
            (Direction::Sent, Says::Reset { new_number }) => Some(new_number.saturating_sub(1)),
            (Direction::Sent, _) => Some(entry.number),
        }
    }

    fn settled_after(&self, entry: &Entry<'_>) -> u64
        ensures { result ≡ settled_after self.now entry.now.direction entry.now.says }
    {
        match (entry.direction, &entry.says) {
            (Direction::Sent, Says::Logon { reset, .. }) if *reset => 0,
            (Direction::Received, Says::Answer { fence }) if self.settles(*fence) => {
                self.settled.max(*fence)
            }
            _ => self.settled,
        }
    }

    /// A message of the exchange that answers one of the session, or names what it expects next, tells what it passed;
    /// and so does a report, which is on the order of this number.
    fn passed_after(&self, order: Option<u64>, entry: &Entry<'_>) -> u64
        ensures { result ≡ passed_after self.now order entry.now.direction entry.now.says }
    {
        match (entry.direction, &entry.says) {
            (Direction::Sent, Says::Logon { reset, .. }) if *reset => 0,
            (Direction::Received, Says::Answer { fence }) if self.settles(*fence) => {
                self.passed.max(*fence)
            }
            (Direction::Received, Says::ResendRequest { begin, .. }) if self.was_sent(*begin) => {
                self.passed.max(begin.saturating_sub(1))
            }
            (Direction::Received, Says::Report(_)) => self.passed.max(order.unwrap_or(0)),
            _ => self.passed,
        }
    }

    fn asked_after(&self, entry: &Entry<'_>) -> Option<u64>
        ensures { result ≡ asked_after self.now entry.now.direction entry.now.says }
    {
        match (entry.direction, &entry.says) {
            (Direction::Sent, Says::Logon { .. }) => None,
            (Direction::Received, Says::Logon { next, .. }) if self.says_next => *next,
            (Direction::Received, Says::ResendRequest { begin, .. }) if !self.is_up => Some(*begin),
            _ => self.asked,
        }
    }

    fn awaited_after(&self, entry: &Entry<'_>) -> Option<u64>
        ensures { result ≡ awaited_after self.now.awaited entry.now }
    {
        match (entry.direction, &entry.says) {
            (Direction::Sent, Says::Logon { .. }) => None,
            (Direction::Received, Says::ResendRequest { begin, .. }) => Some(*begin),
            (Direction::Sent, _) if entry.poss_dup => self.awaited_above(entry.number),
            _ => self.awaited,
        }
    }

    /// What is asked for again once a message of this number was sent again.
    fn awaited_above(&self, number: u64) -> Option<u64>
        ensures { result ≡ awaited_above self.now.awaited number }
    {
        self.awaited.filter(|begin| *begin < number)
    }

    fn says_next_after(&self, entry: &Entry<'_>) -> bool
        ensures { result ≡ says_next_after self.now.says_next entry.now.direction entry.now.says }
    {
        match (entry.direction, &entry.says) {
            (Direction::Sent, Says::Logon { next, .. }) => next.is_some(),
            _ => self.says_next,
        }
    }

    fn resets_after(&self, entry: &Entry<'_>) -> bool
        ensures { result ≡ resets_after self.now.resets entry.now.direction entry.now.says }
    {
        match (entry.direction, &entry.says) {
            (Direction::Sent, Says::Logon { reset, .. }) => *reset,
            _ => self.resets,
        }
    }

    fn seen_after(&self, entry: &Entry<'_>) -> u64
        ensures { result ≡ seen_after self.now.seen entry.now }
    {
        match (entry.direction, &entry.says) {
            (Direction::Sent, _) => self.seen,
            (Direction::Received, Says::Logon { reset, .. }) if *reset && entry.number == 1 => 1,
            (Direction::Received, _) => self.seen.max(entry.number),
        }
    }

    /// What is counted once a gap fill of this number came: it leads on where its number is due, or below, and never
    /// back.
    fn counted_filled(&self, number: u64, new_number: u64) -> Option<u64>
        ensures { result ≡ counted_filled self.now.counted number new_number }
    {
        let last = new_number.saturating_sub(1);
        match self.counted {
            None => Some(last),
            Some(counted) if number <= counted || number - counted == 1 => Some(counted.max(last)),
            Some(counted) => Some(counted),
        }
    }

    fn counted_after(&self, entry: &Entry<'_>) -> Option<u64>
        ensures { result ≡ counted_after self.now.counted entry.now }
    {
        match (entry.direction, &entry.says) {
            (Direction::Sent, _) => self.counted,
            (Direction::Received, Says::Logon { reset, .. }) if *reset && entry.number == 1 => Some(
                1,
            ),
            (Direction::Received, Says::Reset { new_number }) => Some(new_number.saturating_sub(1)),
            (Direction::Received, Says::GapFill { new_number }) => {
                self.counted_filled(entry.number, *new_number)
            }
            (Direction::Received, _) if !self.is_due(entry.number) => self.counted,
            (Direction::Received, _) => Some(entry.number),
        }
    }

    /// The resend request that isn't answered, unless a gap fill passes over its own number.
    fn unless_filled(&self, number: u64, new_number: u64) -> Option<Request>
        ensures { result ≡ unless_filled self.now.request number new_number }
    {
        self.request.filter(|request| !(number <= request.number && request.number < new_number))
    }

    /// The resend request that isn't answered, unless a message of the exchange has a number that it asks for, or one
    /// below.
    fn unless_answered(&self, number: u64) -> Option<Request>
        ensures { result ≡ unless_answered self.now.request number }
    {
        self.request.filter(|request| number > request.begin)
    }

    fn request_after(&self, entry: &Entry<'_>) -> Option<Request>
        ensures { result ≡ request_after self.now.request entry.now }
    {
        match (entry.direction, &entry.says) {
            (Direction::Sent, Says::Logon { .. }) => None,
            (Direction::Sent, Says::ResendRequest { begin, .. }) if !entry.poss_dup => Some(
                Request {
                    number: entry.number,
                    begin: *begin,
                },
            ),
            (Direction::Sent, Says::GapFill { new_number }) => {
                self.unless_filled(entry.number, *new_number)
            }
            (Direction::Sent, _) => self.request,
            (Direction::Received, _) => self.unless_answered(entry.number),
        }
    }

    /// How they stand after a message; a report is on the order of this number.
    pub fn after(&self, order: Option<u64>, entry: &Entry<'_>) -> Standing
        ensures { result ≡ after self.now order entry.now }
    {
        Standing {
            phase: self.phase_after(entry),
            is_up: self.is_up_after(entry),
            is_logged_out: self.is_logged_out_after(entry),
            is_peer_out: self.is_peer_out_after(entry),
            heart: self.heart_after(entry),
            wrote_at: self.wrote_at_after(entry),
            logon: self.logon_after(entry),
            last: self.last_after(entry),
            settled: self.settled_after(entry),
            passed: self.passed_after(order, entry),
            asked: self.asked_after(entry),
            awaited: self.awaited_after(entry),
            says_next: self.says_next_after(entry),
            resets: self.resets_after(entry),
            counted: self.counted_after(entry),
            seen: self.seen_after(entry),
            request: self.request_after(entry),
        }
    }
}
