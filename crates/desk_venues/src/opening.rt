//! Where the exchanges of a day's venues are.

ghost use Rattle.std.specs.Prelude.{◌≡◌, ◌++◌, length, map, option_map, option_to_list, IfOk, IfErr, OnOk};
ghost use Rattle.desk_venues.specs.Addresses.{IsAt, AreAt, own_addr, own_addrs};
ghost use Rattle.desk_venues.specs.Faults.{IsNoMismatch};
ghost use Rattle.desk_venues.specs.Venues.{cut_of, plan_in, plans};

use crate::day_fault::DayFault;
use crate::exchange::Exchange;
use crate::hosts::hosts_of;
use desk_config::{Endpoint, Venue};
use link::Goal;
use std::alloc::{AllocError, Global};
use std::net::Net;
use std::time::Clock;

/// Where each venue's exchange is dialled, in order, and the exchanges that are simulated.
#[derive(Drop)]
pub struct Places<'a, R: Clock> {
    pub goals: Vec<Goal>,
    pub exchanges: Vec<Exchange<'a, R>>,
}

/// The message behind which the exchange of the venue at a place cuts its connection; 0 for none.
fn cut_of(cut: u64, place: usize) -> u64
    ensures { result ≡ cut_of cut place }
{
    if place == 0 { cut } else { 0 }
}

/// Opens an exchange for each venue that is simulated. The others are dialled at the hosts of their addresses: nothing
/// is looked up here. The exchange of the first venue cuts its connection once, behind message `cut`; at 0 none does.
pub fn open_places<'a, R: Net + Clock>(
    rt: &'a R,
    alloc: Global,
    venues: &[Venue],
    cut: u64,
) -> Result<Places<'a, R>, DayFault>
    ensures plans { IfOk result (λ places. map (λ e. e.acceptor.plan) places.exchanges.items ≡ plans cut venues.now) }
    ensures each { IfOk result (λ places. length places.goals.items ≡ length venues.now) }
    ensures at { IfOk result (λ places. AreAt venues.now places.goals.items) }
    ensures own { IfOk result (λ places. map (λ e. e.addr) places.exchanges.items
        ≡ own_addrs venues.now places.goals.items) }
    ensures only { IfErr result IsNoMismatch }
{
    let mut goals = Vec::new(alloc);
    let mut exchanges = Vec::new(alloc);
    for venue in venues {
        let own = cut_of(cut, goals.len());
        let (goal, exchange) = open_place(rt, alloc, venue, own)?;
        goals.push(goal)?;
        push_exchange(&mut exchanges, exchange)?;
    }
    Ok(Places { goals, exchanges })
}

/// Where the exchange of a venue is dialled, and the exchange, if it is simulated; this one cuts its connection once,
/// behind message `cut`, or never at 0.
fn open_place<'a, R: Net + Clock>(
    rt: &'a R,
    alloc: Global,
    venue: &Venue,
    cut: u64,
) -> Result<(Goal, Option<Exchange<'a, R>>), DayFault>
    ensures plan { IfOk result (λ opened. option_map (λ e. e.acceptor.plan) opened.1
        ≡ plan_in cut venue.now.endpoint) }
    ensures at { IfOk result (λ opened. IsAt venue.now.endpoint venue.now.backups opened.0) }
    ensures own { IfOk result (λ opened. option_map (λ e. e.addr) opened.1
        ≡ own_addr venue.now.endpoint opened.0) }
    ensures only { IfErr result IsNoMismatch }
{
    match &venue.endpoint {
        Endpoint::At(address) => {
            let hosts = hosts_of(alloc, address, &venue.backups)?;
            Ok((Goal::Hosts(hosts), None))
        }
        Endpoint::Simulated(fill) => {
            let exchange = Exchange::open(rt, alloc, venue, fill.get(), cut)?;
            Ok((Goal::At(exchange.addr), Some(exchange)))
        }
    }
}

/// Appends an exchange, if there is one.
fn push_exchange<'a, R: Net + Clock>(
    exchanges: &mut Vec<Exchange<'a, R>>,
    exchange: Option<Exchange<'a, R>>,
) -> Result<(), AllocError>
    ensures { OnOk result (exchanges.new.items ≡ exchanges.old.items ++ option_to_list exchange.entry) }
{
    if let Some(exchange) = exchange {
        exchanges.push(exchange)?;
    }
    Ok(())
}
