//! One who follows the day.

use crate::client::UNREAD_MILLIS;
use crate::outgoing::Outgoing;
use std::alloc::AllocError;
use std::io;
use std::net::TcpStream;
use std::time::Duration;

/// How many bytes may wait for one who follows the day. Behind these the client is let go.
const MOST_WAITING: usize = 1024 * 1024;

/// While so many wait, no executions are told: they are told behind them.
const MUCH_WAITING: usize = 128 * 1024;

/// A client that follows the day from now on, with what it is still to be sent.
#[derive(Drop)]
pub(crate) struct Newcomer {
    pub stream: TcpStream,
    pub outgoing: Outgoing,
    /// Behind which execution, where it names one.
    pub after: Option<u64>,
}

/// One who follows the day, over a stream whose writes don't wait.
#[derive(Drop)]
pub(crate) struct Listener {
    stream: TcpStream,
    outgoing: Outgoing,
    /// The number of the last execution that it was told, or behind which it began.
    pub cursor: u64,
    /// When it took bytes last, or had none to take.
    moved: Duration,
}

impl Listener {
    /// One who follows the day behind an execution, from now on.
    pub fn new(newcomer: Newcomer, cursor: u64, now: Duration) -> Listener {
        let Newcomer {
            stream,
            outgoing,
            ..
        } = newcomer;
        Listener {
            stream,
            outgoing,
            cursor,
            moved: now,
        }
    }

    /// Whether so much waits that executions are told later.
    pub fn is_slow(&self) -> bool {
        self.outgoing.len() >= MUCH_WAITING
    }

    /// Whether all that it was told is sent.
    pub fn is_done(&self) -> bool {
        self.outgoing.is_empty()
    }

    /// Tells it a text. The only refusal is out of memory.
    pub fn tell(&mut self, text: &str) -> Result<(), AllocError> {
        self.outgoing.bytes.extend_from_slice(text.as_bytes())
    }

    /// Sends what it takes, and says whether it is still to be told: not where it is gone, has taken nothing for five
    /// seconds, or too much waits for it.
    pub fn send(&mut self, now: Duration) -> bool {
        let sent: io::Result<bool> = self.outgoing.send(&mut self.stream);
        match sent {
            Ok(has_sent) => {
                if has_sent || self.outgoing.is_empty() {
                    self.moved = now;
                }
                self.outgoing.len() <= MOST_WAITING
                    && now.saturating_sub(self.moved) < Duration::from_millis(UNREAD_MILLIS)
            }
            Err(_) => false,
        }
    }

    /// Its stream.
    pub fn into_stream(self) -> TcpStream {
        self.stream
    }
}
