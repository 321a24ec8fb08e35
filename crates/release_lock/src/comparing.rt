//! Compares the sweeps released with those that were opened.

ghost use Rattle.std.specs.Prelude.{◌≡◌};
ghost use Rattle.share_ledger.specs.Entries.{opened};
ghost use Rattle.release_lock.specs.Locked.{Replays};

use crate::{LockedDesk, Run};
use exec_collector::{Accounts, CountedBook};
use kept_link::Telling;

/// Changes nothing, and tells that the sweeps opened in the book are those that the desk released, in order.
pub fn compare_sweeps<L: Run, M: Accounts, J: Telling>(
    locked: &mut LockedDesk<L, J>,
    counted: &mut CountedBook<M>,
)
    requires tied { L.sweeps ≡ M.sweeps }
    ensures same_sweeps { opened counted.old.book.entries ≡ locked.old.desk.sweeps }
    ensures replays { Replays locked.old }
    ensures same { (locked.new ≡ locked.old) × (counted.new ≡ counted.old) }
{
    counted.compare_sweeps(&mut locked.sweeps);
}
