//! The commands of a case, and what they work on.

use crate::beside::words_of;
use crate::executions::{answered, named_venue, note, unbooked_counts};
use crate::made_up_day::MadeUpDay;
use crate::words::{day_totals, outcome, paid_sweep, process_use, refusal_counts};
use bytes::BytesMut;
use case_text::{Answers, PlayFault, Player, number, words};
use desk_http::{
    Connection, Door, Guesses, Refused, Rights, Run, STILL_HERE, Turn, User, events_text, refuse,
    stream_head,
};
use report_words::ReportWords;
use share_ledger::Applied;
use std::alloc::{AllocError, Global};
use std::{mem, str};

/// The page of the cases.
const PAGE: &str = "<!doctype html><title>Desk</title>";

/// The name of the run that serves the cases, and the same moment in microseconds since 1970-01-01 UTC.
const RUN: (&str, u64) = ("2026-11-28T09:15:02.123456789Z", 1_795_857_302_123_456);

/// How many bytes come at once, so that a request comes in several pieces.
const PIECE: usize = 16;

/// How often a stream looks at what changed.
const LOOKS: u64 = 3;

/// A user of a case, and his token.
#[derive(Drop)]
struct CaseUser {
    name: String,
    token: String,
    rights: Rights,
}

/// What a case says, and the day that it is said to.
#[derive(Drop)]
pub struct ApiPlayer {
    alloc: Global,
    day: MadeUpDay,
    /// The token that the desk asks for; empty where it asks for none.
    token: String,
    /// Who may ask what with a token of his own.
    users: Vec<CaseUser>,
    /// The token that the client has.
    known: String,
    /// The wrong tokens whose moments are told.
    guesses: Guesses,
    /// Whether the desk serves every address of its machine.
    is_open: bool,
    /// The desk's own name, as `desk.example.com`; empty where it has none.
    name: String,
    /// The reference that stands in the head of the next POST; empty where none does.
    key: String,
    /// What the client said so far.
    said: Vec<u8>,
    /// The fields of the next execution's message.
    beside: String,
}

/// What `Authorization` is where a client has this token; empty where it has none.
fn bearer(alloc: Global, token: &str) -> Result<String, AllocError> {
    if token.is_empty() {
        return Ok(String::new(alloc));
    }
    format!(in alloc; "Bearer {token}")
}

/// The rights that these words are.
fn rights_of(words: &[&str]) -> Result<Rights, PlayFault> {
    let mut rights = Rights {
        read: false,
        trade: false,
        close: false,
        halt: false,
    };
    for word in words {
        match *word {
            "read" => rights.read = true,
            "trade" => rights.trade = true,
            "close" => rights.close = true,
            "halt" => rights.halt = true,
            _ => return Err(PlayFault::NotUnderstood),
        }
    }
    Ok(rights)
}

impl ApiPlayer {
    pub fn new(alloc: Global) -> ApiPlayer {
        ApiPlayer {
            alloc,
            day: MadeUpDay::new(alloc),
            token: String::new(alloc),
            users: Vec::new(alloc),
            known: String::new(alloc),
            guesses: Guesses::new(),
            is_open: false,
            name: String::new(alloc),
            key: String::new(alloc),
            said: Vec::new(alloc),
            beside: String::new(alloc),
        }
    }

    fn door(&self) -> Result<Door, PlayFault> {
        Ok(Door {
            host: String::from_str(
                self.alloc,
                if self.is_open {
                    "0.0.0.0:8080"
                } else {
                    "127.0.0.1:8080"
                },
            )?,
            other_name: if self.is_open {
                None
            } else {
                Some(String::from_str(self.alloc, "localhost:8080")?)
            },
            is_open: self.is_open,
            names: self.names()?,
            authorization: bearer(self.alloc, self.token.as_str())?,
            users: self.door_users()?,
        })
    }

    /// The users, as the door has them.
    fn door_users(&self) -> Result<Vec<User>, PlayFault> {
        let mut users = Vec::new(self.alloc);
        for user in self.users.iter() {
            users.push(User {
                name: String::from_str(self.alloc, user.name.as_str())?,
                authorization: bearer(self.alloc, user.token.as_str())?,
                rights: user.rights,
            })?;
        }
        Ok(users)
    }

    /// The name of the desk, where it has one.
    fn names(&self) -> Result<Vec<String>, PlayFault> {
        let mut names = Vec::new(self.alloc);
        if !self.name.is_empty() {
            names.push(String::from_str(self.alloc, self.name.as_str())?)?;
        }
        Ok(names)
    }

    /// The client says a text.
    fn say(&mut self, text: &str) -> Result<(), PlayFault> {
        self.said.extend_from_slice(text.as_bytes())?;
        Ok(())
    }

    /// The client says a line.
    fn say_line(&mut self, line: &str) -> Result<(), PlayFault> {
        self.say(line)?;
        self.say("\r\n")
    }

    /// The client says the same byte so many times.
    fn say_many(&mut self, count: &str) -> Result<(), PlayFault> {
        let count = number(count)?;
        for _ in 0..count {
            self.said.push(b'x')?;
        }
        Ok(())
    }

    /// The run that serves the cases.
    fn run(&self) -> Result<Run, PlayFault> {
        Ok(Run {
            id: String::from_str(self.alloc, RUN.0)?,
            desk: String::new(self.alloc),
            environment: String::new(self.alloc),
            begun: RUN.1,
        })
    }

    /// Serves what the client said, which comes in pieces, and gives what was answered. A client that is late stays
    /// behind that, and says nothing more in time.
    fn serve(&mut self, is_late: bool) -> Result<String, PlayFault> {
        let door = self.door()?;
        let run = self.run()?;
        let said = mem::replace(&mut self.said, Vec::new(self.alloc));
        let mut connection = Connection::new(self.alloc);
        let mut output = BytesMut::new(self.alloc);
        let mut turn = Turn::Waits;
        for piece in said.as_slice().chunks(PIECE) {
            connection.take(piece)?;
            turn = self.answer(&mut connection, &door, &run, &mut output)?;
            if turn != Turn::Waits {
                break;
            }
        }
        if let Turn::Follows(after) = turn {
            let text = self.stream(&run, after)?;
            output.extend_from_slice(text.as_str().as_bytes())?;
        }
        if turn == Turn::Waits && is_late && connection.has_begun() {
            refuse(
                self.alloc,
                &door,
                &run,
                false,
                Refused::TooSlow,
                &mut output,
            )?;
        }
        let text = str::from_utf8(output.as_slice()).unwrap_or("no text");
        Ok(String::from_str(self.alloc, text)?)
    }

    /// Answers what was asked until now.
    fn answer(
        &mut self,
        connection: &mut Connection,
        door: &Door,
        run: &Run,
        output: &mut BytesMut,
    ) -> Result<Turn, PlayFault> {
        for _ in 0..u64::MAX {
            match connection.answer_next(&mut self.day, door, PAGE, run, output)? {
                Turn::Answered => {}
                turn => return Ok(turn),
            }
        }
        Ok(Turn::Waits)
    }

    /// The stream of the day's events behind an execution.
    fn stream(&mut self, run: &Run, after: Option<u64>) -> Result<String, PlayFault> {
        let mut cursor = self.day.follow(after)?;
        let mut text = stream_head(self.alloc, run)?;
        for _ in 0..LOOKS {
            let events = self.day.changes(&mut cursor)?;
            if events.is_empty() {
                text.push_str(STILL_HERE)?;
            }
            text.push_str(events_text(self.alloc, events.as_slice())?.as_str())?;
        }
        Ok(text)
    }

    /// What the day was asked until now.
    fn tell_asked(&mut self, answers: &mut Answers) -> Result<(), PlayFault> {
        for line in self.day.asked().lines() {
            let text = format!(in self.alloc; "asked: {line}")?;
            answers.say(text.as_str())?;
        }
        self.day.forget();
        Ok(())
    }

    /// Tells the whole answer to a client that finds no place among the connections.
    fn tell_full(&self, answers: &mut Answers) -> Result<(), PlayFault> {
        let door = self.door()?;
        let run = self.run()?;
        let mut output = BytesMut::new(self.alloc);
        refuse(
            self.alloc,
            &door,
            &run,
            false,
            Refused::Crowded,
            &mut output,
        )?;
        for line in str::from_utf8(output.as_slice())
            .unwrap_or("no text")
            .lines()
        {
            if !line.is_empty() {
                answers.say(line)?;
            }
        }
        Ok(())
    }

    /// Serves, and tells what the day was asked and the whole answer.
    fn tell_whole(&mut self, is_late: bool, answers: &mut Answers) -> Result<(), PlayFault> {
        let text = self.serve(is_late)?;
        self.tell_asked(answers)?;
        for line in text.as_str().lines() {
            if !line.is_empty() {
                answers.say(line)?;
            }
        }
        Ok(())
    }

    /// Serves, and tells what the day was asked, the status and the body.
    fn tell_short(&mut self, answers: &mut Answers) -> Result<(), PlayFault> {
        let text = self.serve(false)?;
        self.tell_asked(answers)?;
        let Some((head, body)) = text.as_str().split_once("\r\n\r\n") else {
            return answers.say("no answer");
        };
        if let Some(status) = head.lines().next() {
            answers.say(status.strip_prefix("HTTP/1.1 ").unwrap_or(status))?;
        }
        for line in body.lines() {
            if !line.is_empty() {
                answers.say(line)?;
            }
        }
        Ok(())
    }

    /// Tells the executions of the day in words.
    fn tell_words(&self, answers: &mut Answers) -> Result<(), PlayFault> {
        for execution in self.day.executions.iter() {
            let text = format!(in self.alloc; "{execution}")?;
            answers.say(text.as_str())?;
        }
        Ok(())
    }

    /// The client says its token, where it has one.
    fn say_token(&mut self) -> Result<(), PlayFault> {
        let words = bearer(self.alloc, self.known.as_str())?;
        if !words.is_empty() {
            let line = format!(in self.alloc; "Authorization: {words}\r\n")?;
            self.say(line.as_str())?;
        }
        Ok(())
    }

    /// A GET as any client sends it, with the token where the client has one.
    fn get(&mut self, path: &str, answers: &mut Answers) -> Result<(), PlayFault> {
        let head = format!(in self.alloc; "GET {path} HTTP/1.1\r\nHost: 127.0.0.1:8080\r\n")?;
        self.say(head.as_str())?;
        self.say_token()?;
        self.say("\r\n")?;
        self.tell_short(answers)
    }

    /// A POST of JSON, with the token where the client has one.
    fn post(&mut self, words: &str, answers: &mut Answers) -> Result<(), PlayFault> {
        let Some((path, body)) = words.split_once(' ') else {
            return Err(PlayFault::NotUnderstood);
        };
        let len = body.len();
        let head = format!(in self.alloc;
            "POST {path} HTTP/1.1\r\nHost: 127.0.0.1:8080\r\nContent-Type: application/json\r\nContent-Length: {len}\r\n"
        )?;
        self.say(head.as_str())?;
        self.say_token()?;
        if !self.key.is_empty() {
            let key = self.key.as_str();
            let line = format!(in self.alloc; "Idempotency-Key: {key}\r\n")?;
            self.key.clear();
            self.say(line.as_str())?;
        }
        self.say("\r\n")?;
        self.say(body)?;
        self.tell_short(answers)
    }

    /// The words of the next execution: those of the fields that were set, once.
    fn next_words(&mut self) -> Result<ReportWords, PlayFault> {
        let words = words_of(self.beside.as_str())?;
        self.beside.clear();
        Ok(words)
    }

    /// One user more: his name, his token and what he may.
    fn add_user(&mut self, text: &str) -> Result<(), PlayFault> {
        match words(self.alloc, text)?.as_slice() {
            [name, token, may @ ..] => {
                self.users.push(CaseUser {
                    name: String::from_str(self.alloc, name)?,
                    token: String::from_str(self.alloc, token)?,
                    rights: rights_of(may)?,
                })?;
                Ok(())
            }
            _ => Err(PlayFault::NotUnderstood),
        }
    }

    /// A wrong token comes at this moment: tells when it is answered.
    fn guess(&mut self, moment: &str, answers: &mut Answers) -> Result<(), PlayFault> {
        let text = match self.guesses.answer_at(number(moment)?) {
            Some(due) => format!(in self.alloc; "answered at {due}")?,
            None => String::from_str(self.alloc, "not answered")?,
        };
        answers.say(text.as_str())
    }

    /// What the day says or is.
    fn set(&mut self, name: &str, text: &str) -> Result<(), PlayFault> {
        match name {
            "venues" => self.day.venues.name_venues(text),
            "state" => self.day.venues.set_state(text),
            "says" => {
                self.day.outcome = outcome(text)?;
                Ok(())
            }
            "sweep" => {
                let sweep = paid_sweep(self.alloc, text)?;
                self.day.sweeps.push(sweep)?;
                Ok(())
            }
            "execution" => {
                let (venue, text) = named_venue(text)?;
                let note = note(self.alloc, text)?;
                let words = self.next_words()?;
                self.day.report(venue, note, Applied::Moved, words)?;
                Ok(())
            }
            "unbooked" => {
                let (answer, text) = answered(text)?;
                let (venue, text) = named_venue(text)?;
                let note = note(self.alloc, text)?;
                let words = self.next_words()?;
                self.day.report(venue, note, answer, words)?;
                Ok(())
            }
            "counts" => {
                self.day.venues.unbooked = unbooked_counts(self.alloc, text)?;
                Ok(())
            }
            "day" => {
                self.day.day = day_totals(self.alloc, text)?;
                Ok(())
            }
            "refusals" => {
                self.day.refusals = refusal_counts(self.alloc, text)?;
                Ok(())
            }
            "guesses" => {
                self.day.wrong_tokens = number(text)?;
                Ok(())
            }
            "uses" => {
                self.day.process_use = Some(process_use(self.alloc, text)?);
                Ok(())
            }
            "beside" => {
                self.beside = String::from_str(self.alloc, text)?;
                Ok(())
            }
            "token" => {
                self.token = String::from_str(self.alloc, text)?;
                Ok(())
            }
            "user" => self.add_user(text),
            "name" => {
                self.name = String::from_str(self.alloc, text)?;
                Ok(())
            }
            "know" => {
                self.known = String::from_str(self.alloc, text)?;
                Ok(())
            }
            "key" => {
                self.key = String::from_str(self.alloc, text)?;
                Ok(())
            }
            _ => Err(PlayFault::NotUnderstood),
        }
    }
}

impl Player for ApiPlayer {
    fn begin(&mut self) -> Result<(), PlayFault> {
        *self = ApiPlayer::new(self.alloc);
        Ok(())
    }

    fn command(&mut self, line: &str, answers: &mut Answers) -> Result<(), PlayFault> {
        match line {
            "<" => return self.say_line(""),
            "served" => return self.tell_whole(false, answers),
            "late" => return self.tell_whole(true, answers),
            "words" => return self.tell_words(answers),
            "full" => return self.tell_full(answers),
            "open" => {
                self.is_open = true;
                return Ok(());
            }
            "crowded" => {
                self.day.is_crowded = true;
                return Ok(());
            }
            _ => {}
        }
        let Some((name, text)) = line.split_once(' ') else {
            return Err(PlayFault::NotUnderstood);
        };
        match name {
            "layer" => Ok(()),
            "<" => self.say_line(text),
            "<<" => self.say(text),
            "bytes" => self.say_many(text),
            "get" => self.get(text, answers),
            "post" => self.post(text, answers),
            "guess" => self.guess(text, answers),
            _ => self.set(name, text),
        }
    }
}
