//! The log of the lines that a desk took.

ghost use Rattle.std.specs.Prelude.{◌≡◌, ◌≤◌, None, [], true, length, IfOk, OnErr, OnOk};
ghost use Rattle.day_rules.specs.Intake.{fits, is_placed_as, is_placing, legs_asked, places, taken_in};
ghost use Rattle.message_log.specs.declared.direction.Direction.TheVariants.{Received};
ghost use Rattle.sweep_text.specs.Line.{line_says};

use desk_answers::Answer;
use desk_words::VenueName;
use leg::Legs;
use message_log::Direction;
use share_ledger::shares_of;
use std::alloc::{AllocError, Global};
use std::marker::Model;
use sweep_text::{Command, LineFault, read_line};

/// What the log of a desk's lines says: the sweeps that were placed, the first of them under number 1.
#[derive(Debug, Drop)]
pub struct Intake {
    alloc: Global,
    names: Vec<VenueName>,
    /// Of the sweep that the last line asked for.
    asked: Option<Legs>,
    sweeps: Vec<Legs>,
}

impl Model for Intake {
    ghost use Rattle.std.specs.Prelude.{◌≤◌, length};
    ghost use Rattle.day_rules.specs.Intake.{IntakeParts};

    ghost Value = { IntakeParts };

    ghost view = { λ i. record { names = i.names.items; asked = i.asked; sweeps = i.sweeps.items } };

    ghost invariant = { λ i. length i.names.items ≤ 16 };
}

/// The legs of the sweep that a line asks for.
fn legs_asked(alloc: Global, names: &[VenueName], line: &[u8]) -> Result<Option<Legs>, AllocError>
    requires { length names.now ≤ 16 }
    ensures { IfOk result (λ legs. legs ≡ legs_asked (line_says names.now line.now)) }
{
    match read_line(alloc, names, line) {
        Ok(Command::Sweep(submission)) => Ok(Some(submission.sweep.legs)),
        Err(LineFault::OutOfMemory) => Err(AllocError),
        _ => Ok(None),
    }
}

/// Whether an answer says that a sweep was placed, and not that it was placed before.
fn is_placing(text: &[u8]) -> bool
    ensures { result ≡ is_placing text.now }
{
    text.starts_with(b"placed ") && !text.ends_with(b" again")
}

/// Whether an answer says that a sweep of this number and these legs was placed.
fn is_placed_as(alloc: Global, number: u64, legs: &Legs, text: &[u8]) -> Result<bool, AllocError>
    ensures { IfOk result (λ is_it. is_it ≡ is_placed_as number legs.now text.now) }
{
    if legs.len() > 32 {
        return Ok(false);
    }
    let answer = Answer::Placed {
        sweep: number,
        shares: shares_of(legs.as_slice()),
    };
    let wanted = format!(in alloc; "{answer}")?;
    Ok(text == wanted.as_bytes())
}

impl Intake {
    /// Before any line, of a desk with venues of these names: at most 16.
    pub fn new(alloc: Global, names: Vec<VenueName>) -> Intake
        requires { length names.items ≤ 16 }
        ensures { result ≡ record { names = names.items; asked = None; sweeps = [] } }
    {
        Intake {
            alloc,
            names,
            asked: None,
            sweeps: Vec::new(alloc),
        }
    }

    /// Whether an answer places the sweep that was asked for, under the next number.
    fn places(&self, text: &[u8]) -> Result<bool, AllocError>
        ensures { IfOk result (λ places_it. places_it ≡ places self.now.sweeps self.now.asked text.now) }
    {
        match &self.asked {
            Some(legs) => is_placed_as(self.alloc, self.sweeps.len() as u64 + 1, legs, text),
            None => Ok(false),
        }
    }

    /// An answer that places a sweep.
    fn place(&mut self, text: &[u8]) -> Result<bool, AllocError>
        requires { is_placing text.now ≡ true }
        ensures said { IfOk result (λ does_fit. does_fit ≡ fits Received text.now self.old) }
        ensures ok { OnOk result (self.new ≡ taken_in Received text.now self.old) }
        ensures err { OnErr result (self.new ≡ self.old) }
    {
        let does_fit = self.places(text)?;
        self.sweeps.reserve(1)?;
        let asked = self.asked.take();
        if does_fit {
            if let Some(legs) = asked {
                self.sweeps.push_reserved(legs);
            }
        }
        Ok(does_fit)
    }

    /// Goes on behind a line (`>`) or an answer (`<`), and tells whether it fits: an answer that places a sweep has to
    /// place the one that the line before it asked for, under the next number. Where memory is refused, nothing
    /// changes.
    pub fn hear(&mut self, direction: Direction, text: &[u8]) -> Result<bool, AllocError>
        ensures said { IfOk result (λ does_fit. does_fit ≡ fits direction text.now self.old) }
        ensures ok { OnOk result (self.new ≡ taken_in direction text.now self.old) }
        ensures err { OnErr result (self.new ≡ self.old) }
    {
        match direction {
            Direction::Sent => {
                self.asked = legs_asked(self.alloc, &self.names, text)?;
                Ok(true)
            }
            Direction::Received if is_placing(text) => self.place(text),
            Direction::Received => {
                self.asked = None;
                Ok(true)
            }
        }
    }

    /// The legs of the sweeps that were placed, in order: the first has number 1.
    pub fn sweeps(&self) -> &[Legs]
        ensures { result.now ≡ self.now.sweeps }
    {
        self.sweeps.as_slice()
    }
}
