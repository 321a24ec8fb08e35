//! Trials on a floor of their own, in one thread.

ghost use Rattle.std.specs.Prelude.{◌≡◌, map};

use crate::{Floor, Site, TrialFault};
use exec_collector::Accounts;
use release_lock::Run;
use std::alloc::Global;
use std::marker::Brand;
use std::sync::Wait;

/// What one thread does on a floor, whatever the name of its run.
pub trait Trial<R: Wait> {
    /// What becomes of it.
    type End;

    fn run<L: Run, M: Accounts>(self, rt: &R, floor: Floor<L, M>) -> Self::End;
}

/// Opens a floor of this site, and runs a trial on it.
fn run_at<L: Run, M: Accounts, R: Wait, T: Trial<R> + Drop>(
    rt: &R,
    alloc: Global,
    site: Site,
    trial: T,
) -> Result<T::End, TrialFault>
    requires lock { (site.callers.name ≡ L.name) × (L.parts ≡ 1024)
        × (L.queues ≡ map (λ ends. ends.0.table) site.rings.items) × (site.callers.slips ≡ L.slips) }
    requires book { (site.workers.name ≡ M.name) × (M.parts ≡ site.venues) × (site.workers.lists ≡ M.lists) }
    requires sweeps { (site.workers.sweeps ≡ M.sweeps) × (L.sweeps ≡ M.sweeps) }
{
    let floor = Floor::<L, M>::open(alloc, site)?;
    Ok(trial.run(rt, floor))
}

/// Runs a trial on a new floor of so many venues, of which there are 1 to 16.
pub fn on_floor<R: Wait, T: Trial<R> + Drop>(
    rt: &R,
    alloc: Global,
    venues: u8,
    trial: T,
) -> Result<T::End, TrialFault> {
    run_at::<Brand, Brand, R, T>(rt, alloc, Site::new(alloc, venues)?, trial)
}
