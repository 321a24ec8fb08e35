//! The sweeps that were opened in a book, on its side and on the desk's.

ghost use Rattle.std.specs.Prelude.{◌≡◌, List};
ghost use Rattle.leg.specs.declared.sweep.Sweep.{Sweep};
ghost use Rattle.share_ledger.specs.Entries.{opened};
ghost use Rattle.exec_collector.specs.Opened.{sweeps_of};

use agreed_list::{BookSide, SeatSide};
use leg::Sweep;
use share_ledger::Book;

/// On both sides stand the sweeps that were opened in the book, from now on.
pub(crate) fn keep_opened(sweeps: &mut BookSide<Sweep>, side: &mut SeatSide<Sweep>, _book: &Book)
    requires { sweeps.old.name ≡ side.old.name }
    ensures agreed { sweeps.old.items ≡ side.old.items }
    ensures book { (sweeps.new.name ≡ sweeps.old.name) × (sweeps.new.items ≡ sweeps_of (opened _book.now.entries)) }
    ensures side { (side.new.name ≡ side.old.name) × (side.new.items ≡ sweeps_of (opened _book.now.entries)) }
{
    set_both(sweeps, side, _book);
}

/// Both sides have these items from now on.
fn set_both(sweeps: &mut BookSide<Sweep>, side: &mut SeatSide<Sweep>, _book: &Book)
    ghost items: { List Sweep }
    requires name { sweeps.old.name ≡ side.old.name }
    requires items { items ≡ sweeps_of (opened _book.now.entries) }
    ensures agreed { sweeps.old.items ≡ side.old.items }
    ensures book { (sweeps.new.name ≡ sweeps.old.name) × (sweeps.new.items ≡ sweeps_of (opened _book.now.entries)) }
    ensures side { (side.new.name ≡ side.old.name) × (side.new.items ≡ sweeps_of (opened _book.now.entries)) }
{
    sweeps.set(side);
}
