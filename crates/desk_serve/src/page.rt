//! What the servers of a page share.

ghost use Rattle.std.specs.Prelude.{IfOk};
ghost use Rattle.desk_serve.specs.Sums.{AreParts};
ghost use Rattle.desk_serve.specs.Executions.{IsExecutions, IsPageOf};

use crate::entrance::Entrance;
use crate::gate::Gate;
use crate::listener::Newcomer;
use crate::part_sums::PartSums;
use crate::process::process_use;
use change_count::ChangeCount;
use day_executions::{Executions, LentNotes, named};
use desk_config::{Address, DeskConfig, HostName, TokenText, UserName};
use desk_http::{Door, Guesses, ProcessUse, Run, User};
use desk_json::ExecutionsPage;
use desk_words::VenueName;
use exec_collector::{Accounts, Collector};
use jiff::Timestamp;
use leg::Totals;
use std::alloc::{AllocError, Global};
use std::fmt::Display;
use std::fs::File;
use std::mem;
use std::net::{SocketAddr, TcpStream};
use std::sync::atomic::{AtomicU64, Ordering};
use std::sync::{Mutex, Wait};
use std::time::{Clock, Duration};

/// How many clients may follow a day at once.
const MOST_FOLLOWERS: u64 = 64;

/// How many clients come between two looks at what became of the shares, at most.
const CLIENTS_A_LOOK: u64 = 100;

/// What the servers of a page share.
#[derive(Drop)]
pub(crate) struct Page {
    pub door: Door,
    pub run: Run,
    pub entrance: Entrance,
    /// Where each server of clients is dealt its clients.
    pub gates: Vec<Gate>,
    // How many clients came in.
    dealt: AtomicU64,
    followers: AtomicU64,
    // Those who follow from now on.
    newcomers: Mutex<Vec<Newcomer>>,
    /// How many of these came, and turns of the day while nobody follows.
    pub arrivals: ChangeCount,
    // How often a server waited for a client.
    clients: AtomicU64,
    sums: Mutex<PartSums>,
    executions: Mutex<Executions>,
    guesses: Mutex<Guesses>,
    // What says how much the process uses, if it was opened.
    process: Option<File>,
}

/// HTTP's own port, which a browser leaves out of `Host`.
const HTTP_PORT: u16 = 80;

/// A host and a port, as a browser's `Host` has them.
fn host_of<H: Display>(alloc: Global, host: &H, port: u16) -> Result<String, AllocError> {
    if port == HTTP_PORT {
        return format!(in alloc; "{host}");
    }
    format!(in alloc; "{host}:{port}")
}

/// What else the address is called: `localhost` where it is the loopback address.
fn other_name(alloc: Global, at: &SocketAddr) -> Result<Option<String>, AllocError> {
    if !at.ip().is_loopback() {
        return Ok(None);
    }
    Ok(Some(host_of(alloc, &"localhost", at.port())?))
}

/// The names as text.
fn texts_of(alloc: Global, hosts: &[HostName]) -> Result<Vec<String>, AllocError> {
    let mut names = Vec::new(alloc);
    for host in hosts {
        names.push(String::from_str(alloc, host.as_str())?)?;
    }
    Ok(names)
}

/// A name of the desk's file as text, empty where it isn't there.
fn name_text(alloc: Global, name: &Option<UserName>) -> Result<String, AllocError> {
    match name {
        Some(name) => String::from_str(alloc, name.as_str()),
        None => Ok(String::new(alloc)),
    }
}

/// The run of a desk that begins to serve now; where the clock can't be read, as if it were 1970.
fn run_now(rt: &impl Clock, alloc: Global, config: &DeskConfig) -> Result<Run, AllocError> {
    let now = Timestamp::now(rt).unwrap_or(Timestamp::UNIX_EPOCH);
    Ok(Run {
        id: format!(in alloc; "{now}")?,
        desk: name_text(alloc, &config.label.name)?,
        environment: name_text(alloc, &config.label.environment)?,
        begun: u64::try_from(now.as_microsecond()).unwrap_or(0),
    })
}

/// What has to be told where a call changes the day: nothing without a token.
fn authorization(alloc: Global, token: Option<&TokenText>) -> Result<String, AllocError> {
    match token {
        Some(token) => format!(in alloc; "Bearer {token}"),
        None => Ok(String::new(alloc)),
    }
}

/// Executions that were lent, as they are told.
fn executions_page(
    alloc: Global,
    names: &[VenueName],
    lent: LentNotes,
) -> Result<ExecutionsPage, AllocError>
    ensures { IfOk result (IsPageOf names.now lent) }
{
    let LentNotes { notes, last } = lent;
    Ok(ExecutionsPage {
        executions: named(alloc, names, notes)?,
        last,
    })
}

impl Page {
    /// The page that is served from now on under this address of a configuration, which is this one, and under its
    /// names, to those who come in there, for these users.
    pub fn new(
        rt: &impl Clock,
        alloc: Global,
        at: &SocketAddr,
        address: &Address,
        config: &DeskConfig,
        users: Vec<User>,
        entrance: Entrance,
        gates: Vec<Gate>,
        process: Option<File>,
    ) -> Result<Page, AllocError> {
        Ok(Page {
            door: Door {
                host: host_of(alloc, &address.host, at.port())?,
                other_name: other_name(alloc, at)?,
                is_open: at.ip().is_unspecified(),
                names: texts_of(alloc, config.hosts.as_slice())?,
                authorization: authorization(alloc, config.token.as_ref())?,
                users,
            },
            run: run_now(rt, alloc, config)?,
            entrance,
            gates,
            dealt: AtomicU64::new(0),
            followers: AtomicU64::new(0),
            newcomers: Mutex::new(Vec::new(alloc)),
            arrivals: ChangeCount::new(),
            clients: AtomicU64::new(0),
            sums: Mutex::new(PartSums::new(alloc)),
            executions: Mutex::new(Executions::new(alloc)),
            guesses: Mutex::new(Guesses::new()),
            process,
        })
    }

    /// The name of the user at a place.
    pub fn user_name(&self, place: Option<usize>) -> Option<&str> {
        let user = self.door.users.get(place?)?;
        Some(user.name.as_str())
    }

    /// What the process uses of the machine, if the system says it.
    pub fn process_use(&self) -> Option<ProcessUse> {
        process_use(&self.process)
    }

    /// How many wrong tokens came. It may wait for a lock.
    pub fn wrong_tokens(&self, rt: &impl Wait) -> u64 {
        self.guesses.lock(rt).count
    }

    /// A wrong token came at this moment: when it is to be answered, or none where its connection is to be closed. It
    /// may wait for a lock.
    pub fn guessed(&self, rt: &impl Wait, now: Duration) -> Option<Duration> {
        let now = u64::try_from(now.as_millis()).unwrap_or(u64::MAX);
        let due = self.guesses.lock(rt).answer_at(now)?;
        Some(Duration::from_millis(due))
    }

    /// What became of the shares of all sweeps. It may wait for locks. The only refusal is out of memory.
    pub fn parts<M: Accounts>(
        &self,
        rt: &impl Wait,
        collector: &Collector<M>,
    ) -> Result<Totals, AllocError>
        ensures { IfOk result AreParts }
    {
        self.sums.lock(rt).now(rt, collector)
    }

    /// The executions behind a number, at most so many, with the names of their venues. It may wait for locks. The only
    /// refusal is out of memory.
    pub fn executions<M: Accounts>(
        &self,
        rt: &impl Wait,
        alloc: Global,
        names: &[VenueName],
        collector: &Collector<M>,
        after: u64,
        most: u64,
    ) -> Result<ExecutionsPage, AllocError>
        ensures { IfOk result (IsExecutions names.now after most) }
    {
        let lent = self
            .executions
            .lock(rt)
            .now(rt, alloc, collector, after, most)?;
        let page = executions_page(alloc, names, lent)?;
        Ok(page)
    }

    /// Looks at what became of the shares, for each hundredth client and where none came, so that no client waits for a
    /// look at a whole day. What memory is wanted for is looked at later.
    pub fn keep_up<M: Accounts>(&self, rt: &impl Wait, collector: &Collector<M>, is_idle: bool) {
        let clients = self.clients.fetch_add(1, Ordering::SeqCst);
        if is_idle || clients % CLIENTS_A_LOOK == 0 {
            let _ = self.parts(rt, collector);
        }
    }

    /// Deals a client to the next server of clients. One for which there is no memory is let go.
    pub fn deal(&self, rt: &impl Wait, client: TcpStream) {
        let count = self.gates.len().max(1) as u64;
        let place = self.dealt.fetch_add(1, Ordering::SeqCst) % count;
        if let Some(gate) = self.gates.get(place as usize) {
            let _ = gate.deal(rt, client);
        }
    }

    /// Takes a place among those who follow the day, unless too many do.
    pub fn begin_following(&self) -> bool {
        if self.followers.fetch_add(1, Ordering::SeqCst) < MOST_FOLLOWERS {
            return true;
        }
        self.end_following();
        false
    }

    /// Leaves that place.
    pub fn end_following(&self) {
        self.followers.fetch_sub(1, Ordering::SeqCst);
    }

    /// One who has such a place follows the day from now on. The only refusal is out of memory, and then the place is
    /// left.
    pub fn admit(&self, rt: &impl Wait, newcomer: Newcomer) -> Result<(), AllocError> {
        if self.newcomers.lock(rt).push(newcomer).is_err() {
            self.end_following();
            return Err(AllocError);
        }
        self.arrivals.tell();
        Ok(())
    }

    /// The servers are to look how the day stands.
    pub fn ring_all(&self) {
        for gate in self.gates.iter() {
            gate.ring();
        }
        self.arrivals.tell();
    }

    /// Those who follow since it was asked last.
    pub fn newcomers(&self, rt: &impl Wait, alloc: Global) -> Vec<Newcomer> {
        mem::replace(&mut *self.newcomers.lock(rt), Vec::new(alloc))
    }
}
