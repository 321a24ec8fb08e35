//! What a venue's journal keeps of an event there.

ghost use Rattle.std.specs.Prelude.{◌≡◌, ◌<◌, Some, length, IfSome};
ghost use Rattle.schedule.specs.Growing.{named};
ghost use Rattle.schedule.specs.World.{venue_in};
ghost use Rattle.replay.specs.Noting.{noted};

use crate::deed::Deed;
use crate::world::World;
use dialect::Dialect;
use leg::VenueId;
use schedule::Event;

/// What a venue's journal keeps of an event there.
#[derive(Debug, Drop)]
pub(crate) enum Noted {
    /// The event was none of the dispatcher.
    Nothing,
    /// A line more.
    Line(Deed),
    /// A frame of this number came to the exchange.
    Reached(u64),
}

/// What is kept of an event at a venue that is there, from the world before it.
pub(crate) fn note_event<D: Dialect + Drop>(
    world: &World<D>,
    venue: VenueId,
    event: &Event,
) -> Noted
    requires there { venue < length world.now.venues }
    requires here { named event.now ≡ Some venue }
    ensures { IfSome (venue_in world.now venue) (λ at. result ≡ noted world.now event.now at) }
{
    match event {
        Event::Release(_) => Noted::Nothing,
        Event::GateUp(_) => Noted::Nothing,
        Event::GateDown(_) => Noted::Nothing,
        Event::ExchangeBreak(_) => Noted::Nothing,
        Event::Act { .. } => Noted::Nothing,
        Event::ToExchange { frame, .. } => {
            if *frame <= world.frames_to(venue).len() as u64 {
                Noted::Reached(*frame)
            } else {
                Noted::Nothing
            }
        }
        Event::ToDispatcher { frame, .. } => {
            if *frame <= world.frames_from(venue).len() as u64 {
                Noted::Line(Deed::Heard(*frame))
            } else {
                Noted::Line(Deed::Nothing)
            }
        }
        Event::Drop(_) => match world.leg_to_drop(venue) {
            Some(_) => Noted::Line(Deed::Dropped),
            None => Noted::Line(Deed::Nothing),
        },
        Event::Take(_) => match world.leg_to_send(venue) {
            Some(placed) => Noted::Line(Deed::Took(placed)),
            None => Noted::Line(Deed::Nothing),
        },
        Event::Connect(_) => {
            if world.may_connect(venue) {
                Noted::Line(Deed::Connected)
            } else {
                Noted::Line(Deed::Nothing)
            }
        }
        Event::Break(_) => Noted::Line(Deed::Broke),
        Event::Quiet(_) => Noted::Line(Deed::Quieted),
        Event::Silent(_) => Noted::Line(Deed::Silenced),
        Event::Close(_) => Noted::Line(Deed::Closed),
        Event::Abandon(_) => Noted::Line(Deed::Abandoned),
    }
}
