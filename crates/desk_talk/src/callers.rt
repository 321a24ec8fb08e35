//! What the callers of a day share beside its floor.

use crate::open_sweeps::OpenSweeps;
use exec_collector::{Accounts, Collector};
use readiness::Wakeup;
use std::alloc::{AllocError, Global};
use std::sync::{Arc, Mutex, Wait};

/// How many connections may be there at once.
pub const MOST_CONNECTIONS: usize = 32;

/// A connection on which lines are taken.
#[derive(Drop)]
struct Connection {
    /// What ends its wait for a line.
    wakeup: Arc<Wakeup, Global>,
    /// Whether it is told what changes.
    follows: bool,
}

/// What the callers of a day share beside its floor: the sweeps that have open shares, and the connections.
#[derive(Drop)]
pub struct Callers {
    alloc: Global,
    /// Whether connections may come.
    pub(crate) listens: bool,
    open: Mutex<OpenSweeps>,
    // Each at the place by which it is known; none at a place that is free.
    connections: Mutex<Vec<Option<Connection>>>,
}

impl Callers {
    /// Of a day before its first line, to which connections may come or not.
    pub fn new(alloc: Global, listens: bool) -> Callers {
        Callers {
            alloc,
            listens,
            open: Mutex::new(OpenSweeps::new(alloc)),
            connections: Mutex::new(Vec::new(alloc)),
        }
    }

    /// Looks which sweeps have open shares, so that `status` never looks at a whole day. What memory is wanted for is
    /// looked at later.
    pub fn look<M: Accounts>(&self, rt: &impl Wait, collector: &Collector<M>) {
        let _ = self.open.lock(rt).look(rt, collector);
    }

    /// The numbers of the sweeps that have open shares now, in order. The only refusal is out of memory.
    pub(crate) fn open_sweeps<M: Accounts>(
        &self,
        rt: &impl Wait,
        collector: &Collector<M>,
    ) -> Result<Vec<u64>, AllocError> {
        let mut open = self.open.lock(rt);
        open.look(rt, collector)?;
        let mut numbers = Vec::new(self.alloc);
        for number in open.numbers() {
            numbers.push(*number)?;
        }
        Ok(numbers)
    }

    /// A connection comes, and gets a place by which it is known; none where so many are there as may be.
    pub fn enter(
        &self,
        rt: &impl Wait,
        wakeup: Arc<Wakeup, Global>,
    ) -> Result<Option<usize>, AllocError> {
        let mut connections = self.connections.lock(rt);
        let connection = Some(Connection {
            wakeup,
            follows: false,
        });
        let count = connections.len();
        for (place, found) in connections.iter_mut().enumerate() {
            if found.is_none() {
                *found = connection;
                return Ok(Some(place));
            }
        }
        if count >= MOST_CONNECTIONS {
            return Ok(None);
        }
        connections.push(connection)?;
        Ok(Some(count))
    }

    /// The connection at a place is told what changes from now on.
    pub(crate) fn follow(&self, rt: &impl Wait, place: usize) {
        if let Some(Some(connection)) = self.connections.lock(rt).get_mut(place) {
            connection.follows = true;
        }
    }

    /// The connection at a place is gone.
    pub fn leave(&self, rt: &impl Wait, place: usize) {
        if let Some(found) = self.connections.lock(rt).get_mut(place) {
            *found = None;
        }
    }

    /// Whether a connection is told what changes.
    pub(crate) fn are_followed(&self, rt: &impl Wait) -> bool {
        self.connections
            .lock(rt)
            .iter()
            .flatten()
            .any(|connection| connection.follows)
    }

    /// Those connections that are told what changes are to look what did.
    pub(crate) fn ring_followers(&self, rt: &impl Wait) {
        for connection in self.connections.lock(rt).iter().flatten() {
            if connection.follows {
                connection.wakeup.ring();
            }
        }
    }

    /// Each connection is to look how the day stands.
    pub fn ring_all(&self, rt: &impl Wait) {
        for connection in self.connections.lock(rt).iter().flatten() {
            connection.wakeup.ring();
        }
    }
}
