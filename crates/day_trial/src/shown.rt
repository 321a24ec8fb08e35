//! Links that may be looked at, and behind which an exchange may be.

use crate::Script;
use clock::StoppedClock;
use dialect::Plain;
use exchange_core::Exchange;
use exchange_sim::MemoryLink;
use link::{Link, TcpLink};
use std::net::Net;
use std::time::Clock;

/// A link that may be looked at.
pub trait Shown: Link {
    /// The exchange behind it, if it can be looked at.
    fn exchange(&self) -> Option<&Exchange>;

    /// What went over it, as lines, if it keeps that.
    fn text(&self) -> &str;
}

impl Shown for MemoryLink<Plain, StoppedClock> {
    fn exchange(&self) -> Option<&Exchange> {
        Some(self.exchange())
    }

    fn text(&self) -> &str {
        ""
    }
}

impl Shown for Script {
    fn exchange(&self) -> Option<&Exchange> {
        None
    }

    fn text(&self) -> &str {
        self.text()
    }
}

impl<'a, N: Net + Clock> Shown for TcpLink<'a, N> {
    fn exchange(&self) -> Option<&Exchange> {
        None
    }

    fn text(&self) -> &str {
        ""
    }
}
