//! What a worker gives back.

ghost use Rattle.std.specs.Prelude.{◌≡◌, ◌++◌, option_to_list, IfOk, OnOk};
ghost use Rattle.session_worker.specs.Doubt.{if_doubt, in_doubt_of};

use crate::EndReason;
use exec_collector::{Accounts, WorkerSeat};
use kept_link::{Telling, Untold};
use leg::LegState;
use link::Link;
use release_lock::{Run, VenueEnd};
use session_core::Session;
use std::alloc::{AllocError, Global};
use std::marker::Model;

/// What a worker gives back: its session, the drain of its venue with all legs taken from it, its seat, its link, its
/// journal, and why it ended. Contracts see what the link tells and what the journal was told in their places.
#[derive(Drop)]
pub struct WorkerEnd<K: Link, L: Run, M: Accounts, J: Telling = Untold> {
    pub session: Session,
    pub took: VenueEnd<L>,
    pub seat: WorkerSeat<M>,
    pub link: K,
    pub journal: J,
    pub reason: EndReason,
}

impl<K: Link, L: Run, M: Accounts, J: Telling> Model for WorkerEnd<K, L, M, J> {
    ghost use Rattle.session_worker.specs.Ends.{WorkerLeft};

    ghost Value = { WorkerLeft };

    ghost view = { λ e. record {
      parts = record {
        session = e.session;
        took = e.took;
        seat = e.seat;
        wire = K.wire e.link;
        told = J.told e.journal;
      };
      reason = e.reason;
    } };
}

impl<K: Link, L: Run, M: Accounts, J: Telling> WorkerEnd<K, L, M, J> {
    /// The ordinals of the legs that it sent and that aren't settled, in order: the exchange may have them or not. The
    /// only refusal is out of memory.
    pub fn in_doubt(&self, alloc: Global) -> Result<Vec<u64>, AllocError>
        ensures { IfOk result (λ ordinals. ordinals.items
            ≡ in_doubt_of self.now.parts.session self.now.parts.took.taken) }
    {
        let mut ordinals = Vec::new(alloc);
        let taken = self.took.taken();
        for placed in taken {
            let state = self.session.leg_state(placed.ordinal);
            push_if_doubt(&mut ordinals, state, placed.ordinal)?;
        }
        Ok(ordinals)
    }
}

/// Pushes the ordinal of a leg in this state, if that is doubt.
fn push_if_doubt(
    ordinals: &mut Vec<u64>,
    state: Option<LegState>,
    ordinal: u64,
) -> Result<(), AllocError>
    ensures { OnOk result (ordinals.new.items ≡ ordinals.old.items ++ option_to_list (if_doubt state ordinal)) }
{
    match state {
        Some(LegState::Doubt) => ordinals.push(ordinal)?,
        Some(LegState::Queued) => {}
        Some(LegState::Taken) => {}
        Some(LegState::Withdrawn) => {}
        None => {}
    }
    Ok(())
}
