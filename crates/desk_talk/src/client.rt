//! The clients of a day that send their lines on connections.

ghost use Rattle.std.specs.Prelude.{◌≡◌};
ghost use Rattle.desk_talk.specs.Seat.{own_parts};

use crate::caller::{Caller, log_lines};
use crate::callers::Callers;
use crate::input_lines::InputLines;
use crate::news::Told;
use crate::rights::{Right, Rights};
use crate::said::{ClientName, Said};
use desk_floor::{Floor, TalkFault, Voice};
use exec_collector::Accounts;
use kept_link::Telling;
use release_lock::Run;
use std::alloc::Global;
use std::io::{Read, Write};
use std::sync::Wait;
use std::time::Clock;

/// The line by which a client asks to be told what changes.
const FOLLOW: &[u8] = b"follow";

/// Who sends lines on a connection.
#[derive(Clone, Copy, Debug)]
pub struct Guest<'u> {
    /// What it is called, where that is known.
    pub name: Option<&'u ClientName>,
    pub may: Rights,
}

/// A client on a connection.
#[derive(Drop)]
pub(crate) struct Client {
    /// The place of its connection among those of the day.
    pub place: usize,
    /// What it was told of the day, if it follows it.
    pub news: Option<Told>,
}

/// Takes the lines of the client at a place among the connections, until it is gone or the day is over, and answers
/// each on this voice as those of the standard input are answered, as far as it has the right to. The log names the
/// client before each line. At the end of the day it is told the day's shares.
pub fn serve_client<L, M, W, J, V, I, R>(
    rt: &R,
    alloc: Global,
    floor: &Floor<L, M, W, J>,
    callers: &Callers,
    place: usize,
    guest: Guest<'_>,
    voice: &Voice<V>,
    lines: &mut InputLines<I>,
) -> Result<(), TalkFault>
where
    L: Run,
    M: Accounts,
    W: Write + Drop,
    J: Telling,
    V: Write + Drop,
    I: Read + Drop,
    R: Wait + Clock,
{
    let mut caller = Caller {
        voice,
        seat: None,
        may: guest.may,
        client: Some(Client { place, news: None }),
    };
    let name = guest.name.map(|name| name.as_str());
    log_lines(rt, alloc, floor, callers, &mut caller, name, lines)?;
    if floor.signals.is_ending() {
        caller.tell_news(rt, floor)?;
        voice.say(rt, &Said::Over(floor.totals(rt)))?;
    }
    Ok(())
}

impl<'c, L: Run, V: Write + Drop> Caller<'c, L, V> {
    /// Whether a line is one by which a client asks to be told what changes, as the standard input never does.
    pub fn asks_to_follow(&self, line: &[u8]) -> bool {
        self.client.is_some() && line == FOLLOW
    }

    /// The client is told what changes from now on, and how each venue stands, if it has the right to read.
    pub fn follow<M: Accounts, W: Write + Drop, J: Telling>(
        &mut self,
        rt: &impl Wait,
        alloc: Global,
        floor: &Floor<L, M, W, J>,
        callers: &Callers,
    ) -> Result<(), TalkFault>
        ensures { own_parts self.new.seat ≡ own_parts self.old.seat }
    {
        if !self.may.has(Right::Read) {
            return self.voice.say(rt, &Said::MayNot(Right::Read));
        }
        let Some(client) = &mut self.client else {
            return Ok(());
        };
        if client.news.is_none() {
            client.news = Some(Told::from_now(rt, alloc, &floor.collector));
            callers.follow(rt, client.place);
        }
        self.voice.say(rt, &Said::Follows)
    }

    /// Tells a client that follows the day what changed. What wasn't told for lack of memory is told the next time.
    pub fn tell_news<M: Accounts, W: Write + Drop, J: Telling>(
        &mut self,
        rt: &impl Wait,
        floor: &Floor<L, M, W, J>,
    ) -> Result<(), TalkFault>
        ensures { own_parts self.new.seat ≡ own_parts self.old.seat }
    {
        let Some(client) = &mut self.client else {
            return Ok(());
        };
        let Some(news) = &mut client.news else {
            return Ok(());
        };
        match news.tell(rt, floor, self.voice) {
            Ok(()) | Err(TalkFault::OutOfMemory) => Ok(()),
            Err(fault) => Err(fault),
        }
    }
}
