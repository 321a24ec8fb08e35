//! The rules of the journal.

ghost use Rattle.std.specs.Prelude.{◌≡◌, ◌<◌, length};
ghost use Rattle.std.specs.Option.{is_none};
ghost use Rattle.replay.specs.Ruling.{keeps_at, is_gone_at};

use crate::loss_fault::LossFault;
use crate::mark::Mark;
use crate::world::World;
use dialect::Dialect;
use leg::{LegState, VenueId};
use sweep_release::Desk;

/// Which rule forbids that the dispatcher stands at a venue as it does in this world, if one does: where so many frames
/// came to the exchange, these legs are withdrawn, and the desk has the kept sweeps.
pub(crate) fn broken_rule<D: Dialect + Drop>(
    world: &World<D>,
    venue: VenueId,
    mark: &Mark,
    reached: u64,
    gone: &[u64],
    desk: &Desk,
) -> Option<LossFault>
    requires { venue < length world.now.venues }
    ensures { is_none result ≡ keeps_at world.now venue mark.now reached gone.now desk.now.desk.sweeps }
{
    if (world.frames_to(venue).len() as u64) < reached {
        return Some(LossFault::Wire {
            venue,
            frame: reached,
        });
    }
    let released = desk.released(venue).len();
    if mark.started > released || mark.since > released - mark.started {
        return Some(LossFault::Release {
            venue,
            left: mark.started.saturating_add(mark.since) as u64,
        });
    }
    let left = (mark.started + mark.since) as u64;
    for ordinal in gone {
        if !is_gone(world, venue, left, *ordinal) {
            return Some(LossFault::Withdrawal {
                venue,
                ordinal: *ordinal,
            });
        }
    }
    None
}

/// Whether the leg of an ordinal is withdrawn where so many legs have left the desk.
fn is_gone<D: Dialect + Drop>(world: &World<D>, venue: VenueId, left: u64, ordinal: u64) -> bool
    requires { venue < length world.now.venues }
    ensures { result ≡ is_gone_at world.now venue left ordinal }
{
    if left < ordinal {
        return false;
    }
    match world.sent(venue, ordinal) {
        Some(LegState::Withdrawn) => true,
        Some(LegState::Queued) => false,
        Some(LegState::Doubt) => false,
        Some(LegState::Taken) => false,
        None => true,
    }
}
