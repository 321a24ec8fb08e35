//! What changed since it was told last.

ghost use Rattle.std.specs.Prelude.{◌≡◌};
ghost use Rattle.desk_news.specs.declared.news.News.TheVariants as news;
ghost use Rattle.desk_floor.specs.Standing.{state_of};

use crate::executions::ToldExecutions;
use crate::told_sweeps::ToldSweeps;
use day_sweeps::paid_sweep_now;
use desk_floor::{Changes, Floor, Manner, Standing, TalkFault, Voice};
use desk_news::News;
use desk_words::VenueName;
use exec_collector::{Accounts, Collector};
use kept_link::Telling;
use release_lock::Run;
use std::alloc::Global;
use std::io::Write;
use std::sync::Wait;

/// What was told of a day.
#[derive(Drop)]
pub struct Told {
    // How each venue was told to stand. That it is dialled is never told.
    venues: Vec<Standing>,
    sweeps: ToldSweeps,
    // The sweeps that changed since then.
    changes: Changes,
    // Which executions were told, where they are told at all.
    executions: Option<ToldExecutions>,
    // Whether changes of venues and sweeps are to be told.
    tells_news: bool,
    // Whether each journal was told to be failing.
    journals: Vec<bool>,
    // On how many legs each venue was told to contradict itself.
    contradicted: Vec<u64>,
}

/// The news of how a venue stands, where the pause before its next dial lasts so many seconds, and the venue said this
/// as it logged out, if it did.
fn venue_news(
    name: &VenueName,
    standing: Standing,
    seconds: u64,
    said: Option<desk_news::Told>,
) -> News
    ensures { result ≡ news.Venue name.now (state_of standing seconds said) }
{
    News::Venue {
        venue: name.clone().unwrap(),
        state: standing.state(seconds, said),
    }
}

/// The news that a venue's exchange contradicted itself on so many legs.
fn contradicted_news(name: &VenueName, legs: u64) -> News
    ensures { result ≡ news.Contradicted name.now legs }
{
    News::Contradicted {
        venue: name.clone().unwrap(),
        legs,
    }
}

/// Tells the sweep of this number with what was paid for it and what is disputed of it, if that differs from what was
/// told of it, and notes it.
fn tell_sweep<L: Run, M: Accounts, W: Write + Drop, J: Telling, V: Write + Drop>(
    rt: &impl Wait,
    floor: &Floor<L, M, W, J>,
    voice: &Voice<V>,
    told: &mut ToldSweeps,
    number: u64,
) -> Result<(), TalkFault> {
    if number == 0 {
        return Ok(());
    }
    let Some(sweep) = paid_sweep_now(rt, &floor.collector, number) else {
        return Ok(());
    };
    if told.notes(number, sweep)? {
        voice.say(rt, &News::Sweep(sweep))?;
    }
    Ok(())
}

impl Told {
    /// Nothing yet, of a day that is held so.
    pub fn new(alloc: Global, manner: Manner) -> Told {
        Told {
            venues: Vec::new(alloc),
            sweeps: ToldSweeps::of_all(alloc),
            changes: Changes::new(alloc),
            executions: Some(ToldExecutions::new(alloc, manner.tells_executions)),
            tells_news: manner.tells_news,
            journals: Vec::new(alloc),
            contradicted: Vec::new(alloc),
        }
    }

    /// Nothing yet, to a client that follows the day from now on: venues, journals and sweeps are told, and no
    /// executions. It may wait for the book's lock.
    pub fn from_now<M: Accounts>(rt: &impl Wait, alloc: Global, collector: &Collector<M>) -> Told {
        Told {
            venues: Vec::new(alloc),
            sweeps: ToldSweeps::of_open(alloc),
            changes: Changes::from_now(rt, alloc, collector),
            executions: None,
            tells_news: true,
            journals: Vec::new(alloc),
            contradicted: Vec::new(alloc),
        }
    }

    /// Whether a venue stands otherwise than it was told to, and notes how it stands.
    fn notes_venue(&mut self, place: usize, standing: Standing) -> Result<bool, TalkFault> {
        match self.venues.get_mut(place) {
            None => {
                self.venues.push(standing)?;
                return Ok(standing != Standing::Dialled);
            }
            Some(told) if *told == standing => return Ok(false),
            Some(told) => *told = standing,
        }
        Ok(true)
    }

    /// Tells that venues stand otherwise.
    fn tell_venues<L: Run, M: Accounts, W: Write + Drop, J: Telling, V: Write + Drop>(
        &mut self,
        rt: &impl Wait,
        floor: &Floor<L, M, W, J>,
        voice: &Voice<V>,
    ) -> Result<(), TalkFault> {
        for (place, name) in floor.names.iter().enumerate() {
            let Some(seen) = floor.seen(place) else {
                continue;
            };
            if self.notes_venue(place, seen.standing)? {
                let said = match floor.views.get(place) {
                    Some(view) => view.said(rt),
                    None => None,
                };
                voice.say(rt, &venue_news(name, seen.standing, seen.seconds, said))?;
            }
        }
        Ok(())
    }

    /// Tells that journals can't be written, or can again. What wasn't told for lack of memory is told the next time.
    fn tell_journals<L: Run, M: Accounts, W: Write + Drop, J: Telling, V: Write + Drop>(
        &mut self,
        rt: &impl Wait,
        floor: &Floor<L, M, W, J>,
        voice: &Voice<V>,
    ) -> Result<(), TalkFault> {
        for _ in self.journals.len()..floor.journals.len() {
            self.journals.push(false)?;
        }
        for (journal, was_failing) in floor.journals.iter().zip(self.journals.iter_mut()) {
            if let Some(news) = journal.news(*was_failing) {
                voice.say(rt, &news)?;
                *was_failing = news.is_failing;
            }
        }
        Ok(())
    }

    /// Tells each venue whose exchange contradicted itself on more legs. What wasn't told for lack of memory is told
    /// the next time.
    fn tell_contradictions<L: Run, M: Accounts, W: Write + Drop, J: Telling, V: Write + Drop>(
        &mut self,
        rt: &impl Wait,
        floor: &Floor<L, M, W, J>,
        voice: &Voice<V>,
    ) -> Result<(), TalkFault> {
        for _ in self.contradicted.len()..floor.views.len() {
            self.contradicted.push(0)?;
        }
        for (place, told) in self.contradicted.iter_mut().enumerate() {
            let (Some(name), Some(view)) = (floor.names.get(place), floor.views.get(place)) else {
                continue;
            };
            let legs = view.contradicted_legs();
            if legs == *told {
                continue;
            }
            voice.say(rt, &contradicted_news(name, legs))?;
            *told = legs;
        }
        Ok(())
    }

    /// Tells each sweep that stands otherwise.
    fn tell_sweeps<L: Run, M: Accounts, W: Write + Drop, J: Telling, V: Write + Drop>(
        &mut self,
        rt: &impl Wait,
        floor: &Floor<L, M, W, J>,
        voice: &Voice<V>,
    ) -> Result<(), TalkFault> {
        let Told {
            venues: _,
            sweeps,
            changes,
            executions: _,
            tells_news: _,
            journals: _,
            contradicted: _,
        } = self;
        changes.look(rt, &floor.collector)?;
        for number in changes.sweeps() {
            tell_sweep(rt, floor, voice, sweeps, *number)?;
        }
        changes.told();
        Ok(())
    }

    /// Tells the executions on the output that weren't told yet and are to be: all, or those that the book didn't take.
    pub fn tell_executions<L: Run, M: Accounts, W: Write + Drop, J: Telling>(
        &mut self,
        rt: &impl Wait,
        floor: &Floor<L, M, W, J>,
    ) -> Result<(), TalkFault> {
        match &mut self.executions {
            Some(executions) => executions.tell(rt, floor),
            None => Ok(()),
        }
    }

    /// Tells on this voice what changed: of venues until the workers are told to stop. What wasn't told for lack of
    /// memory is told the next time, if it differs then from what was told before.
    pub fn tell<L: Run, M: Accounts, W: Write + Drop, J: Telling, V: Write + Drop>(
        &mut self,
        rt: &impl Wait,
        floor: &Floor<L, M, W, J>,
        voice: &Voice<V>,
    ) -> Result<(), TalkFault> {
        self.tell_journals(rt, floor, voice)?;
        self.tell_contradictions(rt, floor, voice)?;
        if self.tells_news && !floor.signals.are_stopped() {
            self.tell_venues(rt, floor, voice)?;
        }
        self.tell_executions(rt, floor)?;
        if self.tells_news {
            self.tell_sweeps(rt, floor, voice)?;
        }
        Ok(())
    }
}
