//! The venues of a day before its threads run.

ghost use Rattle.std.specs.Prelude.{◌≡◌, length, map, IfOk, IfErr};
ghost use Rattle.desk_venues.specs.Faults.{IsNoMismatch};
ghost use Rattle.desk_venues.specs.Starts.{workers_from};
ghost use Rattle.desk_venues.specs.Venues.{plans};

use crate::day_fault::DayFault;
use crate::exchange::Exchange;
use crate::logs::LogFolder;
use crate::opening::{Places, open_places};
use crate::views::{Sight, first_sight};
use crate::workers::{DeskWorker, new_links, new_workers};
use desk_config::Venue;
use desk_floor::Bells;
use dressed_link::Secret;
use exec_collector::Accounts;
use kept_link::Telling;
use release_lock::Run;
use session_worker::Start;
use std::alloc::Global;
use std::fs::{File, Files};
use std::net::Net;
use std::sync::Wait;
use std::time::Clock;

/// The venues of a day before its threads run.
#[derive(Drop)]
pub struct OpenVenues<'a, L: Run, M: Accounts, R: Net + Wait + Clock, J: Telling> {
    /// What is seen of them, and the day's logs.
    pub sight: Sight,
    /// The exchanges of those that are simulated.
    pub exchanges: Vec<Exchange<'a, R>>,
    /// A worker for each, in order.
    pub workers: Vec<DeskWorker<'a, R, L, M, J>>,
    /// What wakes the threads of the day.
    pub bells: Bells,
}

/// The bells of a day's exchanges.
fn new_bells<'a, R: Net + Clock>(
    alloc: Global,
    exchanges: &[Exchange<'a, R>],
) -> Result<Bells, DayFault>
    ensures { IfErr result IsNoMismatch }
{
    let mut bells = Bells::new(alloc)?;
    for exchange in exchanges {
        match exchange.bell() {
            Ok(bell) => bells.add_exchange(bell)?,
            Err(_) => return Err(DayFault::OutOfMemory),
        }
    }
    Ok(bells)
}

/// Opens the venues of a day: an exchange for each that is simulated, the logs in the folder, if there is one, and a
/// worker for each, with the password, the start and the journal at its place. None has dialled. The exchange of the
/// first venue, if it is simulated, cuts its connection once, behind message `cut`; at 0 none does.
pub fn open_venues<'a, L: Run, M: Accounts, R: Net + Files<File = File> + Wait + Clock, J: Telling>(
    rt: &'a R,
    alloc: Global,
    venues: &[Venue],
    cut: u64,
    folder: Option<LogFolder<'_>>,
    secrets: Vec<Option<Secret>>,
    starts: Vec<Start<L, M>>,
    journals: Vec<J>,
) -> Result<OpenVenues<'a, L, M, R, J>, DayFault>
    requires secrets { length secrets.items ≡ length venues.now }
    requires starts { length starts.items ≡ length venues.now }
    requires journals { length journals.items ≡ length venues.now }
    ensures plans { IfOk result (λ ready. map (λ e. e.acceptor.plan) ready.exchanges.items ≡ plans cut venues.now) }
    ensures names { IfOk result (λ ready. ready.sight.names.items ≡ map (λ v. v.name) venues.now) }
    ensures as_many { IfOk result (λ ready. length ready.sight.names.items ≡ length venues.now) }
    ensures views { IfOk result (λ ready. length ready.sight.views.items ≡ length venues.now) }
    ensures starts { IfOk result (λ ready. ready.workers.items
        ≡ workers_from venues.now starts.items (map J.told journals.items)) }
    ensures only { IfErr result IsNoMismatch }
{
    let Places { goals, exchanges } = open_places(rt, alloc, venues, cut)?;
    let sight = first_sight(rt, alloc, folder, venues)?;
    let mut bells = new_bells(alloc, exchanges.as_slice())?;
    let views = sight.views.as_slice();
    let links = new_links(rt, alloc, venues, goals, secrets, views, &mut bells)?;
    let workers = new_workers(rt, alloc, venues, links, views, starts, journals)?;
    Ok(OpenVenues {
        sight,
        exchanges,
        workers,
        bells,
    })
}
