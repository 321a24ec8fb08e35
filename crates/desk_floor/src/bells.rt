//! What wakes the threads of a day.

use change_count::ChangeCount;
use link::{Bell, Poller};
use readiness::Wakeup;
use std::alloc::{AllocError, Global};
use std::io;
use std::sync::Arc;

/// What wakes the threads of a day, each from what it waits for.
#[derive(Drop)]
pub struct Bells {
    /// The bell of each venue's worker, in the order of the venues. It ends the worker's rest.
    workers: Vec<Arc<Bell, Global>>,
    /// Those of the simulated exchanges.
    exchanges: Vec<Arc<Bell, Global>>,
    /// What ends the waits of those who take input: the caller for lines, and a server for clients.
    takers: Vec<Arc<Wakeup, Global>>,
    /// The changes of book, desk and venues, and of the day itself.
    news: Arc<ChangeCount, Global>,
    /// The changes of the day itself: that it closes, that its workers are to stop and have ended, that it is over.
    turns: ChangeCount,
}

impl Bells {
    /// The bells of no venue.
    pub fn new(alloc: Global) -> Result<Bells, AllocError> {
        Ok(Bells {
            workers: Vec::new(alloc),
            exchanges: Vec::new(alloc),
            takers: Vec::new(alloc),
            news: Arc::new(alloc, ChangeCount::new())?,
            turns: ChangeCount::new(),
        })
    }

    /// Adds the bell of the next venue, whose worker waits with this poller.
    pub fn add(&mut self, poller: &Poller) -> io::Result<()> {
        Ok(self.workers.push(poller.bell()?)?)
    }

    /// Adds the bell of a simulated exchange.
    pub fn add_exchange(&mut self, bell: Arc<Bell, Global>) -> Result<(), AllocError> {
        Ok(self.exchanges.push(bell)?)
    }

    /// Adds what ends the waits of who takes input.
    pub fn add_taker(&mut self, wakeup: Arc<Wakeup, Global>) -> Result<(), AllocError> {
        Ok(self.takers.push(wakeup)?)
    }

    /// Where a worker tells that something has changed.
    pub fn shared_news(&self) -> Result<Arc<ChangeCount, Global>, AllocError> {
        self.news.clone()
    }

    /// The changes of book, desk and venues, and of the day itself.
    pub fn news(&self) -> &ChangeCount {
        &self.news
    }

    /// The changes of the day itself.
    pub fn turns(&self) -> &ChangeCount {
        &self.turns
    }

    /// Rings those of the venues by whose place something stands.
    pub fn ring(&self, venues: &[bool]) {
        for (bell, is_for) in self.workers.iter().zip(venues.iter()) {
            if *is_for {
                bell.ring();
            }
        }
    }

    /// Rings that of each worker.
    pub fn ring_all(&self) {
        for bell in self.workers.iter() {
            bell.ring();
        }
    }

    /// The day has taken a turn: whoever waits for news or for that hears of it.
    pub(crate) fn tell_turn(&self) {
        self.turns.tell();
        self.news.tell();
    }

    /// Those who take input are to look how the day stands.
    pub(crate) fn ring_takers(&self) {
        for wakeup in self.takers.iter() {
            wakeup.ring();
        }
    }

    /// The simulated exchanges are to look whether the day is over.
    pub(crate) fn ring_exchanges(&self) {
        for bell in self.exchanges.iter() {
            bell.ring();
        }
    }
}
