//! The day of a case, made up: it says what the case has it say, and keeps what it was asked.

ghost use Rattle.std.specs.Prelude.{⊤};
ghost use Rattle.play_api.specs.Names.{names_of};

use crate::venues::Venues;
use desk_answers::Refusal;
use desk_executions::Execution;
use desk_http::{Day, DaySums, ProcessUse, RefusalCounts, Stopped};
use desk_json::{Audit, Event, ExecutionsPage, LegRow, Outcome, SweepLegs, SweepsPage, VenueRow};
use desk_news::{DayTotals, Paid, PaidSweep};
use desk_words::VenueName;
use dialect::Note;
use leg::{LegId, LegState, MAX_PLACE, MAX_SWEEP, Routed, Sweep, Totals};
use leg_worth::Worth;
use report_words::ReportWords;
use share_ledger::Applied;
use std::alloc::{AllocError, Global};
use sweep_refs::{Submission, SweepRef};
use sweep_text::write_sweep;

/// What a day says, and what it was asked.
#[derive(Drop)]
pub struct MadeUpDay {
    alloc: Global,
    pub venues: Venues,
    /// What becomes of the next sweep.
    pub outcome: Outcome,
    pub sweeps: Vec<PaidSweep>,
    pub executions: Vec<Execution>,
    pub day: DayTotals,
    /// How many sweeps weren't placed until now.
    pub refusals: RefusalCounts,
    /// How many wrong tokens came until now.
    pub wrong_tokens: u64,
    pub process_use: Option<ProcessUse>,
    pub is_closing: bool,
    /// Whether too many follow the day.
    pub is_crowded: bool,
    /// The legs of the last sweep that was placed.
    legs: Vec<LegRow>,
    /// What was asked, a line each.
    asked: String,
    /// The reference under which a sweep was placed last, and its number.
    placed_under: Option<(SweepRef, u64)>,
    /// How often a follower asked what changed.
    looks: u64,
}

const NO_SHARES: DayTotals = DayTotals {
    placed: 0,
    resolved: 0,
    still_open: 0,
};

const NO_REFUSALS: RefusalCounts = RefusalCounts {
    no_legs: 0,
    too_many_legs: 0,
    unknown_venue: 0,
    gate_down: 0,
    backlog_full: 0,
    sweeps_spent: 0,
    out_of_memory: 0,
    wrong_book: 0,
    other_legs: 0,
    no_reference: 0,
    leg_shares: 0,
    leg_dollars: 0,
    sweep_dollars: 0,
    day_dollars: 0,
    other_symbol: 0,
    closing: 0,
};

/// What is paid for no shares.
pub const NOT_PAID: Paid = Paid {
    worth: Worth {
        value: 0,
        unpriced: 0,
    },
    filled: 0,
    disputed: 0,
};

/// Of no shares.
const NOTHING: Totals = Totals {
    filled: 0,
    busted: 0,
    cancelled: 0,
    withdrawn: 0,
    still_open: 0,
};

/// Both together.
fn with(one: &Totals, other: &Totals) -> Totals {
    Totals {
        filled: one.filled.saturating_add(other.filled),
        busted: one.busted.saturating_add(other.busted),
        cancelled: one.cancelled.saturating_add(other.cancelled),
        withdrawn: one.withdrawn.saturating_add(other.withdrawn),
        still_open: one.still_open.saturating_add(other.still_open),
    }
}

fn leg_id(sweep: u64, place: usize) -> LegId {
    let place = u8::try_from(place).unwrap_or(MAX_PLACE);
    LegId::new(sweep.clamp(1, MAX_SWEEP), place.clamp(1, MAX_PLACE))
}

/// A leg with all its shares open.
fn new_leg(
    names: &[VenueName],
    sweep: u64,
    place: usize,
    leg: &Routed,
) -> Result<Option<LegRow>, AllocError> {
    let Some(name) = names.get(usize::from(leg.venue.number())) else {
        return Ok(None);
    };
    Ok(Some(LegRow {
        id: leg_id(sweep, place),
        venue: name.clone()?,
        terms: leg.terms.clone()?,
        totals: Totals {
            filled: 0,
            busted: 0,
            cancelled: 0,
            withdrawn: 0,
            still_open: leg.terms.shares(),
        },
        paid: NOT_PAID,
        state: LegState::Queued,
    }))
}

impl MadeUpDay {
    pub fn new(alloc: Global) -> MadeUpDay {
        MadeUpDay {
            alloc,
            venues: Venues::new(alloc),
            outcome: Outcome::Refused(Refusal::NoLegs),
            sweeps: Vec::new(alloc),
            executions: Vec::new(alloc),
            day: NO_SHARES,
            refusals: NO_REFUSALS,
            wrong_tokens: 0,
            process_use: None,
            is_closing: false,
            is_crowded: false,
            legs: Vec::new(alloc),
            asked: String::new(alloc),
            placed_under: None,
            looks: 0,
        }
    }

    /// What the day was asked, a line each.
    pub fn asked(&self) -> &str {
        self.asked.as_str()
    }

    /// Forgets what was asked.
    pub fn forget(&mut self) {
        self.asked.clear();
    }

    fn ask(&mut self, words: &str) -> Result<(), AllocError> {
        self.asked.push_str(words)?;
        self.asked.push('\n')
    }

    /// The day is asked by the user at this place, where one is known.
    fn ask_by(&mut self, words: &str, by: Option<usize>) -> Result<(), AllocError> {
        self.asked.push_str(words)?;
        if let Some(place) = by {
            write!(&mut self.asked, " by user {place}")?;
        }
        self.asked.push('\n')
    }

    /// One execution more, under the next number.
    pub fn report(
        &mut self,
        venue: VenueName,
        note: Note,
        answer: Applied,
        words: ReportWords,
    ) -> Result<(), AllocError> {
        let number = (self.executions.len() as u64).saturating_add(1);
        self.executions.push(Execution {
            number,
            venue,
            note,
            answer,
            words,
        })?;
        Ok(())
    }

    /// Keeps the legs of a sweep.
    fn keep(&mut self, number: u64, sweep: &Sweep) -> Result<(), AllocError> {
        self.legs.clear();
        for (i, leg) in sweep.legs.as_slice().iter().enumerate() {
            let place = i.saturating_add(1);
            if let Some(row) = new_leg(self.venues.names(), number, place, leg)? {
                self.legs.push(row)?;
            }
        }
        Ok(())
    }

    fn hand_in(
        &mut self,
        submission: &Submission,
        by: Option<usize>,
    ) -> Result<Outcome, AllocError> {
        let Submission { reference, sweep } = submission;
        let legs = sweep.legs.as_slice();
        let line = write_sweep(self.alloc, self.venues.names(), reference.as_ref(), legs)?;
        self.ask_by(line.as_str(), by)?;
        match &self.outcome {
            Outcome::Placed {
                sweep: number,
                shares,
            } => {
                let (number, shares) = (*number, *shares);
                self.keep(number, sweep)?;
                self.placed_under = match reference {
                    Some(reference) => Some((reference.clone()?, number)),
                    None => None,
                };
                Ok(Outcome::Placed {
                    sweep: number,
                    shares,
                })
            }
            Outcome::Again { sweep, shares } => Ok(Outcome::Again {
                sweep: *sweep,
                shares: *shares,
            }),
            Outcome::Refused(Refusal::OtherLegs) => Ok(Outcome::Refused(Refusal::OtherLegs)),
            Outcome::Refused(Refusal::NoReference) => Ok(Outcome::Refused(Refusal::NoReference)),
            Outcome::Refused(Refusal::GateDown(venue)) => {
                Ok(Outcome::Refused(Refusal::GateDown(venue.clone()?)))
            }
            Outcome::Refused(Refusal::OverLimit { venue, over }) => {
                let venue = match venue {
                    Some(venue) => Some(venue.clone()?),
                    None => None,
                };
                Ok(Outcome::Refused(Refusal::OverLimit {
                    venue,
                    over: over.copied(),
                }))
            }
            Outcome::Refused(Refusal::TooManyLegs) => Ok(Outcome::Refused(Refusal::TooManyLegs)),
            Outcome::Refused(_) => Ok(Outcome::Refused(Refusal::NoLegs)),
            Outcome::Closing => Ok(Outcome::Closing),
        }
    }

    /// A client follows the day, behind this execution where it names one. It gives the number behind which it does.
    pub fn follow(&mut self, after: Option<u64>) -> Result<u64, AllocError> {
        self.looks = 0;
        match after {
            Some(number) => {
                let line = format!(in self.alloc; "follow after {number}")?;
                self.ask(line.as_str())?;
                Ok(number)
            }
            None => {
                self.ask("follow")?;
                Ok(self.executions.len() as u64)
            }
        }
    }

    /// What is to be told is told at once: first nothing, as if a second went by, then all, and then that the day is
    /// closed.
    pub fn changes(&mut self, cursor: &mut u64) -> Result<Vec<Event>, AllocError> {
        let mut events = Vec::new(self.alloc);
        let since = *cursor;
        match self.looks {
            0 => {}
            1 => {
                for execution in self.executions.iter() {
                    if execution.number > since {
                        *cursor = execution.number;
                        events.push(Event::Execution(same_as(execution)?))?;
                    }
                }
                for sweep in self.sweeps.iter() {
                    events.push(Event::Sweep(*sweep))?;
                }
                for row in self.venues.rows()? {
                    events.push(Event::Venue(row))?;
                }
                events.push(Event::Refused(Refusal::NoLegs))?;
                events.push(Event::Day(self.day))?;
            }
            _ => events.push(Event::Closed(Audit::Whole))?,
        }
        self.looks = self.looks.saturating_add(1);
        Ok(events)
    }
}

impl Day for MadeUpDay {
    ghost venue_names = { λ day. names_of day.venues };

    ghost places = { λ _ _ _ _ _. ⊤ };

    ghost pages = { λ _ _ _ _ _. ⊤ };

    ghost finds = { λ _ _ _. ⊤ };

    ghost shows = { λ _ _ _ _. ⊤ };

    ghost reports = { λ _ _ _ _ _. ⊤ };

    ghost lists = { λ _ _ _. ⊤ };

    ghost sums_up = { λ _ _ _. ⊤ };

    ghost refuses = { λ _ _. ⊤ };

    ghost guesses = { λ _ _. ⊤ };

    ghost uses = { λ _ _. ⊤ };

    ghost closes = { λ _ _ _. ⊤ };

    ghost halts = { λ _ _ _ _. ⊤ };

    ghost resumes = { λ _ _ _ _. ⊤ };

    fn names(&self) -> &[VenueName] {
        self.venues.names()
    }

    fn place(&mut self, submission: Submission, by: Option<usize>) -> Outcome {
        self.hand_in(&submission, by)
            .unwrap_or(Outcome::Refused(Refusal::OutOfMemory))
    }

    fn find(&self, reference: &SweepRef) -> Option<u64> {
        match &self.placed_under {
            Some((known, number)) if known == reference => Some(*number),
            _ => None,
        }
    }

    fn sweeps(&mut self, after: u64, most: u64) -> Result<SweepsPage, AllocError> {
        let line = format!(in self.alloc; "sweeps after {after} most {most}")?;
        self.ask(line.as_str())?;
        let mut sweeps = Vec::new(self.alloc);
        for sweep in self.sweeps.iter() {
            if sweep.parts.sweep > after && (sweeps.len() as u64) < most {
                sweeps.push(*sweep)?;
            }
        }
        Ok(SweepsPage {
            sweeps,
            day: self.day,
            is_closing: self.is_closing,
        })
    }

    fn sweep(&mut self, number: u64) -> Result<Option<SweepLegs>, AllocError> {
        let line = format!(in self.alloc; "sweep {number}")?;
        self.ask(line.as_str())?;
        let mut legs = Vec::new(self.alloc);
        for leg in self.legs.iter() {
            if leg.id.sweep() == number {
                legs.push(copy_of(leg)?)?;
            }
        }
        if legs.is_empty() {
            return Ok(None);
        }
        Ok(Some(SweepLegs {
            sweep: number,
            legs,
        }))
    }

    fn executions(&mut self, after: u64, most: u64) -> Result<ExecutionsPage, AllocError> {
        let line = format!(in self.alloc; "executions after {after} most {most}")?;
        self.ask(line.as_str())?;
        let mut executions = Vec::new(self.alloc);
        for execution in self.executions.iter() {
            if execution.number > after && (executions.len() as u64) < most {
                executions.push(same_as(execution)?)?;
            }
        }
        Ok(ExecutionsPage {
            executions,
            last: self.executions.len() as u64,
        })
    }

    fn venues(&mut self) -> Result<Vec<VenueRow>, AllocError> {
        self.ask("venues")?;
        self.venues.rows()
    }

    fn sums(&mut self) -> Result<DaySums, AllocError> {
        let mut parts = NOTHING;
        for sweep in self.sweeps.iter() {
            parts = with(&parts, &sweep.parts.totals);
        }
        Ok(DaySums {
            sweeps: self.sweeps.len() as u64,
            placed: self.day.placed,
            parts,
        })
    }

    fn refusals(&self) -> RefusalCounts {
        self.refusals
    }

    fn wrong_tokens(&self) -> u64 {
        self.wrong_tokens
    }

    fn process_use(&self) -> Option<ProcessUse> {
        self.process_use
    }

    fn close(&mut self, by: Option<usize>) {
        self.is_closing = true;
        let _ = self.ask_by("close", by);
    }

    fn halt(&mut self, by: Option<usize>) -> Stopped {
        let _ = self.ask_by("halt", by);
        Stopped {
            is_sending: false,
            is_kept: true,
        }
    }

    fn resume(&mut self, by: Option<usize>) -> bool {
        let _ = self.ask_by("resume", by);
        true
    }

    fn may_follow(&mut self) -> bool {
        !self.is_crowded
    }
}

fn copy_of(leg: &LegRow) -> Result<LegRow, AllocError> {
    Ok(LegRow {
        id: leg.id,
        venue: leg.venue.clone()?,
        terms: leg.terms.clone()?,
        totals: leg.totals,
        paid: leg.paid,
        state: leg.state,
    })
}

fn same_as(execution: &Execution) -> Result<Execution, AllocError> {
    Ok(Execution {
        number: execution.number,
        venue: execution.venue.clone()?,
        note: match &execution.note {
            Note::Report(report) => Note::Report(report.clone()?),
            Note::Refused(leg) => Note::Refused(*leg),
            Note::Unread(fault) => Note::Unread(*fault),
        },
        answer: execution.answer,
        words: same_words(&execution.words)?,
    })
}

fn same_words(words: &ReportWords) -> Result<ReportWords, AllocError> {
    Ok(ReportWords {
        id: words.id.clone()?,
        exec_type: words.exec_type.clone()?,
        order: words.order.clone()?,
        shares: words.shares.clone()?,
        price: words.price.clone()?,
        time: words.time.clone()?,
        text: words.text.clone()?,
        reason: words.reason.clone()?,
        refused: words.refused.clone()?,
        message: words.message.clone()?,
    })
}
