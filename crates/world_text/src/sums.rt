//! The shares of sweeps, added up.

ghost use Rattle.std.specs.Prelude.{◌≡◌};
ghost use Rattle.world_text.specs.Summary.{parts_added, sums_of, with_sweep};

use dialect::Dialect;
use leg::Totals;
use replay::World;
use share_ledger::shares_of;
use sweep_release::DeskEntry;

/// The shares of sweeps, added up. A sum stops at 2^64 - 1, which no day reaches: a desk releases at most 10^18 shares.
#[derive(Clone, Copy, Debug)]
pub struct Sums {
    pub sweeps: u64,
    pub shares: u64,
    pub parts: Totals,
}

/// The parts of shares and more shares.
fn parts_added(a: Totals, b: Totals) -> Totals
    ensures { result ≡ parts_added a b }
{
    Totals {
        filled: a.filled.saturating_add(b.filled),
        busted: a.busted.saturating_add(b.busted),
        cancelled: a.cancelled.saturating_add(b.cancelled),
        withdrawn: a.withdrawn.saturating_add(b.withdrawn),
        still_open: a.still_open.saturating_add(b.still_open),
    }
}

impl Sums {
    /// The sums with one more sweep, of so many shares, whose parts are these, if they are known.
    fn with_sweep(self, shares: u64, parts: Option<Totals>) -> Sums
        ensures { result ≡ with_sweep self shares parts }
    {
        Sums {
            sweeps: self.sweeps.saturating_add(1),
            shares: self.shares.saturating_add(shares),
            parts: match parts {
                Some(parts) => parts_added(self.parts, parts),
                None => self.parts,
            },
        }
    }

    /// The sums of all sweeps of a world.
    pub fn of<D: Dialect + Drop>(world: &World<D>) -> Sums
        ensures { result ≡ sums_of world.now }
    {
        let history = world.desk().history();
        let mut sums = Sums {
            sweeps: 0,
            shares: 0,
            parts: Totals {
                filled: 0,
                busted: 0,
                cancelled: 0,
                withdrawn: 0,
                still_open: 0,
            },
        };
        let mut number = 0;
        for entry in history {
            if let DeskEntry::Released(sweep) = entry {
                number += 1;
                let shares = shares_of(sweep.legs.as_slice());
                sums = sums.with_sweep(shares, world.totals(number));
            }
        }
        sums
    }
}
