//! Workers that dial exchanges outside, and their bells.

use crate::WireLoad;
use clock::UtcClock;
use dialect::Plain;
use exec_collector::Accounts;
use link::{Bell, Poller, TcpLink};
use release_lock::Run;
use session_worker::{Pace, Worker};
use std::alloc::Global;
use std::net::{Net, SocketAddr};
use std::sync::Arc;
use std::time::Clock;
use trial::{MAX_NUMBER, Post, TrialFault, near_end};

/// A worker over loopback, on the system's clock.
pub type WireWorker<'a, R, L, M> = Worker<Plain, TcpLink<'a, R>, UtcClock<'a, R>, L, M>;

/// A worker for each post, in order, and the bell of each.
#[derive(Drop)]
pub struct Workers<'a, R: Net + Clock, L: Run, M: Accounts> {
    pub workers: Vec<WireWorker<'a, R, L, M>>,
    pub bells: Vec<Arc<Bell, Global>>,
}

impl<'a, R: Net + Clock, L: Run, M: Accounts> Workers<'a, R, L, M> {
    /// The workers of these posts.
    pub fn new(
        rt: &'a R,
        alloc: Global,
        posts: Vec<Post<L, M>>,
        load: WireLoad,
    ) -> Result<Workers<'a, R, L, M>, TrialFault> {
        let mut all = Workers {
            workers: Vec::new(alloc),
            bells: Vec::new(alloc),
        };
        for post in posts {
            all.add(rt, alloc, post, load)?;
        }
        Ok(all)
    }

    /// Adds the worker of the next post.
    fn add(
        &mut self,
        rt: &'a R,
        alloc: Global,
        post: Post<L, M>,
        load: WireLoad,
    ) -> Result<(), TrialFault> {
        let Post { drain, seat } = post;
        if drain.popped() != 0 || seat.venue() != drain.venue() {
            return Err(TrialFault::Missing);
        }
        let port = load.port.saturating_add(u16::from(drain.venue().number()));
        let poller = Poller::new(rt, alloc)?;
        self.bells.push(poller.bell()?)?;
        let link = TcpLink::new(
            rt,
            SocketAddr::from(([127, 0, 0, 1], port)),
            poller,
            load.how,
        );
        let (clock, end) = (UtcClock::new(rt), near_end(MAX_NUMBER)?);
        let worker = Worker::new(alloc, Plain, link, clock, end, seat, drain, Pace::Time);
        self.workers.push(worker)?;
        Ok(())
    }
}
