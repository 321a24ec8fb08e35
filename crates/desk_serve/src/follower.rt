//! Who follows a day.

use crate::rows::venue_row;
use clock::Clock;
use day_sweeps::paid_sweep_now;
use desk_floor::{Changes, Floor, Standing};
use desk_json::{Audit, Event, event_text};
use desk_news::DayTotals;
use exec_collector::Accounts;
use kept_link::Telling;
use release_lock::Run;
use std::alloc::{AllocError, Global};
use std::io::Write;
use std::net::TcpStream;
use std::sync::Wait;

/// What a client that follows a day was told.
#[derive(Drop)]
pub(crate) struct Follower {
    /// How each venue was told to stand.
    venues: Vec<Standing>,
    /// The sweeps that changed since then.
    changes: Changes,
    /// How many sweeps were refused by then.
    refused: u64,
    /// The shares of the day.
    totals: DayTotals,
}

impl Follower {
    /// One that is told what changes from now on. It may wait for locks.
    pub fn new<L: Run, M: Accounts, W: Write + Drop, J: Telling>(
        rt: &impl Wait,
        alloc: Global,
        floor: &Floor<L, M, W, J>,
    ) -> Result<Follower, AllocError> {
        let mut venues = Vec::new(alloc);
        for place in 0..floor.names.len() {
            if let Some(seen) = floor.seen(place) {
                venues.push(seen.standing)?;
            }
        }
        Ok(Follower {
            venues,
            changes: Changes::from_now(rt, alloc, &floor.collector),
            refused: floor.refusals.number(rt),
            totals: floor.totals(rt),
        })
    }

    /// What changed since it was asked last. It may wait for locks.
    pub fn news<L: Run, M: Accounts, W: Write + Drop, J: Telling>(
        &mut self,
        rt: &impl Wait,
        clock: &impl Clock,
        alloc: Global,
        floor: &Floor<L, M, W, J>,
    ) -> Result<Vec<Event>, AllocError> {
        let mut events = Vec::new(alloc);
        self.add_venues(rt, clock, alloc, floor, &mut events)?;
        self.add_sweeps(rt, floor, &mut events)?;
        self.add_refusals(rt, floor, &mut events)?;
        self.add_totals(rt, floor, &mut events)?;
        Ok(events)
    }

    /// Adds the venues that stand otherwise than before.
    fn add_venues<L: Run, M: Accounts, W: Write + Drop, J: Telling>(
        &mut self,
        rt: &impl Wait,
        clock: &impl Clock,
        alloc: Global,
        floor: &Floor<L, M, W, J>,
        events: &mut Vec<Event>,
    ) -> Result<(), AllocError> {
        for (place, told) in self.venues.iter_mut().enumerate() {
            match floor.seen(place) {
                Some(seen) if seen.standing != *told => *told = seen.standing,
                _ => continue,
            }
            if let Some(row) = venue_row(rt, clock, alloc, floor, place)? {
                events.push(Event::Venue(row))?;
            }
        }
        Ok(())
    }

    /// Adds the sweeps that changed.
    fn add_sweeps<L: Run, M: Accounts, W: Write + Drop, J: Telling>(
        &mut self,
        rt: &impl Wait,
        floor: &Floor<L, M, W, J>,
        events: &mut Vec<Event>,
    ) -> Result<(), AllocError> {
        self.changes.look(rt, &floor.collector)?;
        for number in self.changes.sweeps() {
            if *number == 0 {
                continue;
            }
            if let Some(sweep) = paid_sweep_now(rt, &floor.collector, *number) {
                events.push(Event::Sweep(sweep))?;
            }
        }
        self.changes.told();
        Ok(())
    }

    /// Adds the sweeps that were refused.
    fn add_refusals<L: Run, M: Accounts, W: Write + Drop, J: Telling>(
        &mut self,
        rt: &impl Wait,
        floor: &Floor<L, M, W, J>,
        events: &mut Vec<Event>,
    ) -> Result<(), AllocError> {
        let new = floor.refusals.since(rt, self.refused)?;
        self.refused = new.number;
        for refusal in new.refusals {
            events.push(match refusal {
                Some(refusal) => Event::Refused(refusal),
                None => Event::RefusedAtClose,
            })?;
        }
        Ok(())
    }

    /// Adds the shares of the day, if they changed.
    fn add_totals<L: Run, M: Accounts, W: Write + Drop, J: Telling>(
        &mut self,
        rt: &impl Wait,
        floor: &Floor<L, M, W, J>,
        events: &mut Vec<Event>,
    ) -> Result<(), AllocError> {
        let totals = floor.totals(rt);
        if totals != self.totals {
            self.totals = totals;
            events.push(Event::Day(totals))?;
        }
        Ok(())
    }
}

/// Tells clients that followed a day to its end how its audit ended. One that can't be told is let go.
pub fn tell_closed(alloc: Global, followers: Vec<TcpStream>, audit: Audit) {
    let Ok(text) = event_text(alloc, &Event::Closed(audit)) else {
        return;
    };
    for follower in followers {
        let mut follower = follower;
        let _ = follower.write_all(text.as_bytes());
    }
}
