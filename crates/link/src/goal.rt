//! Where a link dials.

ghost use Rattle.std.specs.Prelude.{◌≡◌};
ghost use Rattle.link.specs.Goals.{next_turn};

use crate::host::Host;
use std::net::SocketAddr;

/// Where a link dials.
#[derive(Drop)]
pub enum Goal {
    /// This address.
    At(SocketAddr),
    /// These hosts, one a dial: each is looked up when its turn comes. Behind the last comes the first again.
    Hosts(Vec<Host>),
}

impl Goal {
    /// Whose turn it is behind a host's, by its place. At an address it is always 0.
    pub(crate) fn turn_behind(&self, turn: usize) -> usize
        ensures { result ≡ next_turn self.now turn }
    {
        match self {
            Goal::At(_) => 0,
            Goal::Hosts(hosts) => {
                if turn < hosts.len().saturating_sub(1) {
                    turn + 1
                } else {
                    0
                }
            }
        }
    }
}
