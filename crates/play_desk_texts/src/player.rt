//! The commands of a case, and what they work on.

use crate::answer_words::{again, placed, refused};
use crate::config_text::{say_config, say_fault};
use crate::leg_words::say_doubt;
use crate::lines::Lines;
use crate::log_text::{say_counts, say_line, say_taken};
use crate::news_words::news;
use crate::say::say;
use crate::status_words::{day_totals, status};
use case_text::{Answers, PlayFault, Player, number};
use desk_config::{ConfigFault, read_config};
use desk_news::AUDIT_OK;
use message_log::{LogQueue, Lost};
use std::alloc::Global;

/// How many bytes of lines may wait where a case doesn't say.
const ROOM: usize = 65_536;

/// The file that a case writes, the lines that it reads, and the queue of its log.
#[derive(Drop)]
pub struct DeskTextsPlayer {
    alloc: Global,
    file: String,
    lines: Lines,
    queue: LogQueue,
}

impl DeskTextsPlayer {
    pub fn new(alloc: Global) -> DeskTextsPlayer {
        DeskTextsPlayer {
            alloc,
            file: String::new(alloc),
            lines: Lines::new(alloc),
            queue: LogQueue::new(alloc, ROOM),
        }
    }

    /// One more line of the file.
    fn add_line(&mut self, line: &str) -> Result<(), PlayFault> {
        self.file.push_str(line)?;
        self.file.push('\n')?;
        Ok(())
    }

    /// Reads the file.
    fn read(&self, answers: &mut Answers) -> Result<(), PlayFault> {
        match read_config(self.alloc, self.file.as_str()) {
            Ok(config) => say_config(self.alloc, &config, answers),
            Err(ConfigFault::OutOfMemory) => Err(PlayFault::OutOfMemory),
            Err(fault) => say_fault(self.alloc, &fault, answers),
        }
    }

    /// Begins a queue with room for so many bytes.
    fn begin_queue(&mut self, room: &str) -> Result<(), PlayFault> {
        let room = usize::try_from(number(room)?).map_err(|_| PlayFault::NotUnderstood)?;
        self.queue = LogQueue::new(self.alloc, room);
        Ok(())
    }

    /// Puts a line into the queue.
    fn put(&mut self, line: &str, answers: &mut Answers) -> Result<(), PlayFault> {
        match self.queue.put(line.as_bytes()) {
            Ok(()) => answers.say("waits"),
            Err(Lost::NoRoom) => answers.say("lost"),
            Err(Lost::OutOfMemory) => Err(PlayFault::OutOfMemory),
        }
    }

    /// The commands of a name alone.
    fn plain(&mut self, name: &str, answers: &mut Answers) -> Result<(), PlayFault> {
        match name {
            "file" => self.add_line(""),
            "line" => self.lines.read("", answers),
            "read" => self.read(answers),
            "take" => say_taken(self.alloc, self.queue.take(), answers),
            "lose" => {
                self.queue.lose();
                Ok(())
            }
            "counts" => say_counts(self.alloc, &self.queue, answers),
            "audit" => answers.say(AUDIT_OK),
            _ => Err(PlayFault::NotUnderstood),
        }
    }

    /// The commands of a name and what stands behind it.
    fn with_text(
        &mut self,
        name: &str,
        text: &str,
        answers: &mut Answers,
    ) -> Result<(), PlayFault> {
        match name {
            "file" => self.add_line(text),
            "venues" => self.lines.name_venues(text),
            "line" => self.lines.read(text, answers),
            "spaces" => self.lines.read_spaces(text, answers),
            "placed" => say(self.alloc, &placed(text)?, answers),
            "again" => say(self.alloc, &again(text)?, answers),
            "refused" => say(self.alloc, &refused(text)?, answers),
            "log" => say_line(self.alloc, text, answers),
            "queue" => self.begin_queue(text),
            "put" => self.put(text, answers),
            "settle" => self.settle(text),
            _ => tell(self.alloc, name, text, answers),
        }
    }

    /// The lines that were handed over are written, or failed to be.
    fn settle(&mut self, outcome: &str) -> Result<(), PlayFault> {
        match outcome {
            "written" => self.queue.settle(true),
            "failed" => self.queue.settle(false),
            _ => return Err(PlayFault::NotUnderstood),
        }
        Ok(())
    }
}

/// What a desk is told, as the words behind a name say.
fn tell(alloc: Global, name: &str, text: &str, answers: &mut Answers) -> Result<(), PlayFault> {
    match name {
        "news" => say(alloc, &news(alloc, text)?, answers),
        "status" => say(alloc, &status(alloc, text)?, answers),
        "doubt" => say_doubt(alloc, text, answers),
        "day" => say(alloc, &day_totals(text)?, answers),
        _ => Err(PlayFault::NotUnderstood),
    }
}

impl Player for DeskTextsPlayer {
    fn begin(&mut self) -> Result<(), PlayFault> {
        *self = DeskTextsPlayer::new(self.alloc);
        Ok(())
    }

    fn command(&mut self, line: &str, answers: &mut Answers) -> Result<(), PlayFault> {
        match line.split_once(' ') {
            Some((name, text)) => self.with_text(name, text, answers),
            None => self.plain(line, answers),
        }
    }
}
