//! What the host says of a venue.

use crate::book_keeping::{Booked, book_step, follow, send_next, venue_at};
use crate::day::Day;
use crate::event::{Ask, VenueEvent};
use crate::line::Heard;
use crate::said::Said;
use crate::stopped::Stopped;
use dialect::Note;
use fix_tags::Stamp;
use leg::LegId;
use session_core::{Ended, Phase, SessionFault, Step};
use share_ledger::Applied;

fn applied_name(applied: Applied) -> &'static str {
    match applied {
        Applied::Moved => "moved",
        Applied::Duplicate => "duplicate",
        Applied::Overfill => "overfill",
        Applied::Stray => "stray",
    }
}

fn phase_name(phase: Phase) -> &'static str {
    match phase {
        Phase::Down => "down",
        Phase::LoggingOn => "logging on",
        Phase::Settling => "settling",
        Phase::Up => "up",
        Phase::Closing => "closing",
        Phase::LoggedOut => "logged out",
        Phase::Closed => "closed",
    }
}

impl Day {
    /// Does what the host says of the venue of a name, after which its gate follows its session.
    pub fn take_of_venue(
        &mut self,
        name: &[u8],
        event: VenueEvent<'_>,
        stamp: &Stamp,
        said: &mut Said,
    ) -> Result<(), Stopped> {
        match self.names.iter().position(|other| other.as_bytes() == name) {
            Some(place) => {
                self.call(place, event, stamp, said)?;
                self.follow(place, said)
            }
            None => said.line("refused no such venue"),
        }
    }

    /// The call of the session at a place.
    fn call(
        &mut self,
        place: usize,
        event: VenueEvent<'_>,
        stamp: &Stamp,
        said: &mut Said,
    ) -> Result<(), Stopped> {
        match event {
            VenueEvent::Connect => self.connect(place, stamp, said),
            VenueEvent::Received(bytes) => self.receive(place, bytes, stamp, said),
            VenueEvent::Send => self.send(place, stamp, said),
            VenueEvent::Ask(ask) => self.ask(place, ask, stamp, said),
            VenueEvent::Stands => self.tell_standing(place, said),
            VenueEvent::Broken => {
                if let Some(line) = self.lines.get_mut(place) {
                    line.break_off();
                }
                Ok(())
            }
        }
    }

    /// A new connection begins.
    fn connect(&mut self, place: usize, stamp: &Stamp, said: &mut Said) -> Result<(), Stopped> {
        let Some(line) = self.lines.get_mut(place) else {
            return Ok(());
        };
        let answer = line.connect(stamp);
        self.tell_frame(place, answer, said)
    }

    /// The session is asked for a step.
    fn ask(
        &mut self,
        place: usize,
        ask: Ask,
        stamp: &Stamp,
        said: &mut Said,
    ) -> Result<(), Stopped> {
        let Some(line) = self.lines.get_mut(place) else {
            return Ok(());
        };
        match line.answer(ask, stamp) {
            Ok(step) => self.book(place, step, said),
            Err(fault) => self.tell_refused(fault, said),
        }
    }

    /// The next leg is sent.
    fn send(&mut self, place: usize, stamp: &Stamp, said: &mut Said) -> Result<(), Stopped> {
        let Some(line) = self.lines.get_mut(place) else {
            return Ok(());
        };
        let Some(venue) = venue_at(&self.desk, place) else {
            return Ok(());
        };
        match send_next(line, &mut self.desk, venue, stamp) {
            Ok(Some(frame)) => self.tell_frame(place, Ok(frame), said),
            Ok(None) => said.line("nothing to send"),
            Err(fault) => self.tell_refused(fault, said),
        }
    }

    /// The session receives each message that came whole.
    fn receive(
        &mut self,
        place: usize,
        bytes: &[u8],
        stamp: &Stamp,
        said: &mut Said,
    ) -> Result<(), Stopped> {
        if let Some(line) = self.lines.get_mut(place) {
            line.feed(bytes).map_err(|_| Stopped::OutOfMemory)?;
        }
        // No frame is shorter than a byte.
        for _ in 0..bytes.len() {
            let Some(line) = self.lines.get_mut(place) else {
                return Ok(());
            };
            match line.hear(stamp) {
                Ok(Some(Heard::Step(step))) => self.book(place, step, said)?,
                Ok(Some(Heard::Malformed(ended))) => self.tell_ended(place, ended, said)?,
                Ok(None) => return Ok(()),
                Err(_) => return Err(Stopped::OutOfMemory),
            }
        }
        Ok(())
    }

    /// The venue's gate follows its session, and the legs that this withdraws are told.
    fn follow(&mut self, place: usize, said: &mut Said) -> Result<(), Stopped> {
        let Some(line) = self.lines.get(place) else {
            return Ok(());
        };
        let Some(venue) = venue_at(&self.desk, place) else {
            return Ok(());
        };
        let phase = line.session.phase();
        let withdrawn = follow(self.alloc, &mut self.desk, &mut self.book, venue, phase)?;
        self.tell_withdrawn(&withdrawn, said)
    }

    /// The book does what a step says, and it is told.
    fn book(&mut self, place: usize, step: Step, said: &mut Said) -> Result<(), Stopped> {
        let Some(line) = self.lines.get_mut(place) else {
            return Ok(());
        };
        let Some(venue) = venue_at(&self.desk, place) else {
            return Ok(());
        };
        let Ok(booked) = book_step(&mut self.book, &mut line.session, venue, step) else {
            return Err(Stopped::OutOfMemory);
        };
        let Booked {
            withdrawn,
            frames,
            note,
            ended,
        } = booked;
        self.tell_withdrawn(&withdrawn, said)?;
        for frame in frames {
            self.tell_frame(place, Ok(frame), said)?;
        }
        if let Some((note, applied)) = note {
            self.tell_note(&note, applied, said)?;
        }
        self.tell_ended(place, ended, said)
    }

    /// What a message said, and what the book answered.
    fn tell_note(&self, note: &Note, applied: Applied, said: &mut Said) -> Result<(), Stopped> {
        let name = applied_name(applied);
        let text = match note {
            Note::Report(report) => {
                let id = report.id;
                format!(in self.alloc; "report {id} {name}")?
            }
            Note::Refused(id) => format!(in self.alloc; "reject {id} {name}")?,
            Note::Unread(fault) => format!(in self.alloc; "unread {fault}")?,
        };
        said.line(&text)
    }

    fn tell_withdrawn(&self, ids: &[LegId], said: &mut Said) -> Result<(), Stopped> {
        for id in ids {
            let text = format!(in self.alloc; "withdrawn {id}")?;
            said.line(&text)?;
        }
        Ok(())
    }

    /// A frame that is to be written, or why there is none.
    fn tell_frame(
        &self,
        place: usize,
        answer: Result<Vec<u8>, SessionFault>,
        said: &mut Said,
    ) -> Result<(), Stopped> {
        match (answer, self.names.as_slice().get(place)) {
            (Ok(frame), Some(name)) => said.frame(name, &frame),
            (Ok(_), None) => Ok(()),
            (Err(fault), _) => self.tell_refused(fault, said),
        }
    }

    fn tell_refused(&self, fault: SessionFault, said: &mut Said) -> Result<(), Stopped> {
        let text = format!(in self.alloc; "refused {fault}")?;
        said.line(&text)
    }

    /// That the connection ended, if it did: the host is to end it.
    fn tell_ended(
        &self,
        place: usize,
        ended: Option<Ended>,
        said: &mut Said,
    ) -> Result<(), Stopped> {
        let (Some(ended), Some(name)) = (ended, self.names.as_slice().get(place)) else {
            return Ok(());
        };
        let text = format!(in self.alloc; "ended {name} {ended}")?;
        said.line(&text)
    }

    /// How a session stands, and the legs of which it isn't known whether the exchange has them.
    fn tell_standing(&self, place: usize, said: &mut Said) -> Result<(), Stopped> {
        let Some(line) = self.lines.get(place) else {
            return Ok(());
        };
        let phase = phase_name(line.session.phase());
        let next_out = line.session.next_out();
        let next_in = line.session.next_in();
        let text = format!(in self.alloc; "stands {phase} out {next_out} in {next_in}")?;
        said.line(&text)?;
        for sent in line.session.doubts() {
            let id = sent.id;
            let text = format!(in self.alloc; "doubt {id}")?;
            said.line(&text)?;
        }
        Ok(())
    }
}
