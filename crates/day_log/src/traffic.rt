//! What went over the link of a venue.

use crate::logout_text::LogoutText;
use crate::order_times::OrderTimes;
use std::sync::atomic::{AtomicU64, Ordering};

/// What went over the link of a venue since the day began, in numbers that one thread counts and others read. Each of
/// them may be read while the next is counted, so they need not be of one moment. And what the venue said as it logged
/// out.
#[derive(Drop)]
pub struct Traffic {
    messages_sent: AtomicU64,
    messages_received: AtomicU64,
    bytes_sent: AtomicU64,
    bytes_received: AtomicU64,
    connections: AtomicU64,
    refused_dials: AtomicU64,
    order_times: OrderTimes,
    logout_text: LogoutText,
}

impl Traffic {
    /// Nothing went over the link yet.
    pub fn new() -> Traffic {
        Traffic {
            messages_sent: AtomicU64::new(0),
            messages_received: AtomicU64::new(0),
            bytes_sent: AtomicU64::new(0),
            bytes_received: AtomicU64::new(0),
            connections: AtomicU64::new(0),
            refused_dials: AtomicU64::new(0),
            order_times: OrderTimes::new(),
            logout_text: LogoutText::new(),
        }
    }

    /// How many messages the link took whole.
    pub fn messages_sent(&self) -> u64 {
        self.messages_sent.load(Ordering::SeqCst)
    }

    /// How many messages the session heard in the bytes that it gave: a garbled one isn't counted.
    pub fn messages_received(&self) -> u64 {
        self.messages_received.load(Ordering::SeqCst)
    }

    /// How many bytes it took.
    pub fn bytes_sent(&self) -> u64 {
        self.bytes_sent.load(Ordering::SeqCst)
    }

    /// How many bytes it gave.
    pub fn bytes_received(&self) -> u64 {
        self.bytes_received.load(Ordering::SeqCst)
    }

    /// How many dials were answered.
    pub fn connections(&self) -> u64 {
        self.connections.load(Ordering::SeqCst)
    }

    /// How many dials failed.
    pub fn refused_dials(&self) -> u64 {
        self.refused_dials.load(Ordering::SeqCst)
    }

    /// How long its orders waited to be written.
    pub fn order_times(&self) -> &OrderTimes {
        &self.order_times
    }

    /// What the venue said as it logged out.
    pub fn logout_text(&self) -> &LogoutText {
        &self.logout_text
    }

    /// Counts a dial that was answered.
    pub(crate) fn count_connection(&self) {
        self.connections.fetch_add(1, Ordering::SeqCst);
    }

    /// Counts a dial that failed.
    pub(crate) fn count_refused_dial(&self) {
        self.refused_dials.fetch_add(1, Ordering::SeqCst);
    }

    /// Counts bytes that the link took.
    pub(crate) fn count_sent(&self, bytes: u64) {
        self.bytes_sent.fetch_add(bytes, Ordering::SeqCst);
    }

    /// Counts a message that it took whole.
    pub(crate) fn count_message_sent(&self) {
        self.messages_sent.fetch_add(1, Ordering::SeqCst);
    }

    /// Counts bytes that it gave.
    pub(crate) fn count_received(&self, bytes: u64) {
        self.bytes_received.fetch_add(bytes, Ordering::SeqCst);
    }

    /// Counts a message that was heard.
    pub(crate) fn count_message_received(&self) {
        self.messages_received.fetch_add(1, Ordering::SeqCst);
    }
}
