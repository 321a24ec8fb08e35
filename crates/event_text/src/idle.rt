//! Why nothing comes of an event.

ghost use Rattle.std.specs.Prelude.{◌≡◌, IfOk, Some};
ghost use Rattle.sweep_release.specs.Desk.{gate_of, is_up};
ghost use Rattle.schedule.specs.declared.event.Event.TheVariants as event;
ghost use Rattle.event_text.specs.Idle.{idle_of, in_connection, is_connected_in, is_up_in, of_act, of_connect, of_drop};
ghost use Rattle.event_text.specs.Idle.{of_gate_up, of_take, phase_of};

use crate::frame_head::{FrameHead, head_of, last_connection};
use dialect::Dialect;
use leg::VenueId;
use replay::World;
use schedule::{Act, Event, FrameNumber};
use session_core::Phase;
use std::alloc::{AllocError, Global};
use sweep_release::{Desk, Gate};

/// Why nothing comes of an event, where a call's refusal doesn't say so.
#[derive(Clone, Copy, Debug)]
pub(crate) enum Idle {
    SessionNotUp,
    NotConnected,
    NotLoggedOn,
    /// The session heard nothing, for the first time in its connection.
    SilentOnce,
    CloseAsked,
    SessionClosed,
    GateUp,
    GateNotUp,
    NothingPlaced,
    LegsPlaced,
    NoFrame,
    /// The frame is of this connection of the session, which isn't the present one.
    OldConnection(u64),
    /// A message of this number came to the session, which expected that one.
    ToSession {
        number: u64,
        expected: u64,
    },
    /// A message of this connection came to the exchange, which never wrote into one.
    NoneThere(u64),
    /// A message of this connection came to the exchange, which wrote into that one last.
    AnotherThere {
        connection: u64,
        last: u64,
    },
    /// A message of this number came to the exchange in the connection that it wrote into last, and it expected that
    /// one.
    ToExchange {
        connection: u64,
        number: u64,
        expected: u64,
    },
    NoExchange,
}

impl Idle {
    /// Why nothing comes of an event in a world. It is told where nothing else is to be.
    pub(crate) fn of<D: Dialect + Drop>(
        alloc: Global,
        world: &World<D>,
        event: &Event,
    ) -> Result<Option<Idle>, AllocError>
        ensures { IfOk result (λ idle. idle ≡ idle_of world.now event.now) }
    {
        match event {
            Event::Release(_) => Ok(None),
            Event::GateUp(venue) => Ok(of_gate_up(world, *venue)),
            Event::GateDown(_) => Ok(Some(Idle::GateNotUp)),
            Event::Drop(venue) => Ok(of_drop(world, *venue)),
            Event::Take(venue) => Ok(of_take(world, *venue)),
            Event::Connect(venue) => Ok(of_connect(world, *venue)),
            Event::ToExchange { venue, frame } => {
                Ok(Some(to_exchange(alloc, world, *venue, *frame)?))
            }
            Event::ToDispatcher { venue, frame } => {
                Ok(Some(to_dispatcher(alloc, world, *venue, *frame)?))
            }
            Event::Break(_) => Ok(Some(Idle::NotConnected)),
            Event::ExchangeBreak(_) => Ok(Some(Idle::NoExchange)),
            Event::Act { act, .. } => Ok(of_act(act)),
            Event::Quiet(_) => Ok(Some(Idle::NotLoggedOn)),
            Event::Silent(_) => Ok(Some(Idle::SilentOnce)),
            Event::Close(_) => Ok(Some(Idle::CloseAsked)),
            Event::Abandon(_) => Ok(Some(Idle::SessionClosed)),
        }
    }
}

/// The gate of a venue; one that the desk hasn't got is shut.
pub(crate) fn gate_at(desk: &Desk, venue: VenueId) -> Gate
    ensures { result ≡ gate_of desk.now.desk venue }
{
    if usize::from(venue.number()) < desk.venues() {
        desk.gate(venue)
    } else {
        Gate::Shut
    }
}

fn is_gate_up(desk: &Desk, venue: VenueId) -> bool
    ensures { result ≡ is_up (gate_of desk.now.desk venue) }
{
    match gate_at(desk, venue) {
        Gate::Up => true,
        Gate::Down => false,
        Gate::Shut => false,
    }
}

fn is_up<D: Dialect + Drop>(world: &World<D>, venue: VenueId) -> bool
    ensures { result ≡ is_up_in (phase_of world.now venue) }
{
    match world.phase(venue) {
        Some(Phase::Up) => true,
        _ => false,
    }
}

fn is_connected<D: Dialect + Drop>(world: &World<D>, venue: VenueId) -> bool
    ensures { result ≡ is_connected_in (phase_of world.now venue) }
{
    match world.phase(venue) {
        Some(phase) => phase.is_connected(),
        None => false,
    }
}

fn of_gate_up<D: Dialect + Drop>(world: &World<D>, venue: VenueId) -> Option<Idle>
    ensures { result ≡ of_gate_up world.now venue }
{
    if !is_up(world, venue) {
        Some(Idle::SessionNotUp)
    } else if is_gate_up(world.desk(), venue) {
        Some(Idle::GateUp)
    } else {
        None
    }
}

fn of_drop<D: Dialect + Drop>(world: &World<D>, venue: VenueId) -> Option<Idle>
    ensures { result ≡ of_drop world.now venue }
{
    if is_gate_up(world.desk(), venue) {
        Some(Idle::GateUp)
    } else {
        Some(Idle::NothingPlaced)
    }
}

fn of_take<D: Dialect + Drop>(world: &World<D>, venue: VenueId) -> Option<Idle>
    ensures { result ≡ of_take world.now venue }
{
    if !is_up(world, venue) {
        Some(Idle::SessionNotUp)
    } else if is_gate_up(world.desk(), venue) {
        Some(Idle::NothingPlaced)
    } else {
        Some(Idle::GateNotUp)
    }
}

fn of_connect<D: Dialect + Drop>(world: &World<D>, venue: VenueId) -> Option<Idle>
    ensures { result ≡ of_connect world.now venue }
{
    if is_gate_up(world.desk(), venue) {
        Some(Idle::GateUp)
    } else {
        Some(Idle::LegsPlaced)
    }
}

/// A message that comes to an exchange in a connection, by the one that the exchange wrote into last.
fn in_connection(last: Option<u64>, head: FrameHead, expected: u64) -> Idle
    ensures { result ≡ in_connection last head.connection head.number expected }
{
    let FrameHead { connection, number } = head;
    match last {
        None => Idle::NoneThere(connection),
        Some(last) => {
            if connection == last {
                Idle::ToExchange {
                    connection,
                    number,
                    expected,
                }
            } else {
                Idle::AnotherThere { connection, last }
            }
        }
    }
}

#[tactic(auto, using(crate::proofs::Heads::last_said))]
fn to_exchange<D: Dialect + Drop>(
    alloc: Global,
    world: &World<D>,
    venue: VenueId,
    frame: FrameNumber,
) -> Result<Idle, AllocError>
    ensures { IfOk result (λ idle. Some idle ≡ idle_of world.now (event.ToExchange venue frame)) }
{
    let Some(head) = head_of(alloc, world.frames_to(venue), frame)? else {
        return Ok(Idle::NoFrame);
    };
    let last = last_connection(world.frames_from(venue));
    Ok(in_connection(last, head, world.exchange_expects(venue)))
}

fn to_dispatcher<D: Dialect + Drop>(
    alloc: Global,
    world: &World<D>,
    venue: VenueId,
    frame: FrameNumber,
) -> Result<Idle, AllocError>
    ensures { IfOk result (λ idle. Some idle ≡ idle_of world.now (event.ToDispatcher venue frame)) }
{
    let Some(head) = head_of(alloc, world.frames_from(venue), frame)? else {
        return Ok(Idle::NoFrame);
    };
    if !is_connected(world, venue) {
        return Ok(Idle::NotConnected);
    }
    if head.connection == world.connection(venue) {
        Ok(Idle::ToSession {
            number: head.number,
            expected: world.session_expects(venue),
        })
    } else {
        Ok(Idle::OldConnection(head.connection))
    }
}

fn of_act(act: &Act) -> Option<Idle>
    ensures { result ≡ of_act act.now }
{
    match act {
        Act::Test => Some(Idle::NoExchange),
        _ => None,
    }
}
