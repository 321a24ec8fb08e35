//! The logs of a day, if it keeps any.

ghost use Rattle.std.specs.Prelude.{IfErr};
ghost use Rattle.desk_venues.specs.Faults.{IsNoMismatch};

use crate::day_fault::DayFault;
use day_log::{FileWriter, LogFault, VenueLog, go_on_with_logs, open_logs};
use desk_config::Venue;
use std::alloc::Global;
use std::fs::{File, Files};
use std::io::Write;
use std::sync::Arc;

/// The logs of a day. There is none of a day that keeps none.
#[derive(Drop)]
pub struct Logs<F: Write + Drop> {
    /// Of each venue, in order.
    pub venues: Vec<Arc<VenueLog, Global>>,
    /// Of the lines that are taken and answered.
    pub lines: Option<Arc<VenueLog, Global>>,
    /// What writes them.
    pub writers: Vec<FileWriter<F>>,
}

/// Where a day's logs are.
#[derive(Clone, Copy, Debug)]
pub struct LogFolder<'a> {
    pub path: &'a str,
    /// Whether logs that are there go on: the day keeps journals, and was begun before, or looked that there are none.
    pub goes_on: bool,
}

/// Why a day isn't run whose logs are refused.
fn refused(fault: LogFault) -> DayFault
    ensures { IsNoMismatch result }
{
    match fault {
        LogFault::OutOfMemory => DayFault::OutOfMemory,
        fault => DayFault::NoLogs(fault),
    }
}

/// Refuses a day that isn't begun yet and whose logs are there already, if it keeps any. Nothing is made.
pub fn check_new_logs<R: Files<File = File>>(
    rt: &R,
    alloc: Global,
    folder: Option<&str>,
    venues: &[Venue],
) -> Result<(), DayFault>
    ensures { IfErr result IsNoMismatch }
{
    let Some(folder) = folder else {
        return Ok(());
    };
    match day_log::check_new_logs(rt, alloc, folder, venues) {
        Ok(()) => Ok(()),
        Err(fault) => Err(refused(fault)),
    }
}

/// Begins the logs of a day in a folder, if it has one. Those that are there go on, or are refused.
pub fn begin_logs<R: Files<File = File>>(
    rt: &R,
    alloc: Global,
    folder: Option<LogFolder<'_>>,
    venues: &[Venue],
) -> Result<Logs<File>, DayFault>
    ensures { IfErr result IsNoMismatch }
{
    let Some(folder) = folder else {
        return Ok(Logs {
            venues: Vec::new(alloc),
            lines: None,
            writers: Vec::new(alloc),
        });
    };
    let begun = if folder.goes_on {
        go_on_with_logs(rt, alloc, folder.path, venues)
    } else {
        open_logs(rt, alloc, folder.path, venues)
    };
    match begun {
        Ok(logs) => Ok(Logs {
            venues: logs.venues,
            lines: Some(logs.sweeps),
            writers: logs.writers,
        }),
        Err(fault) => Err(refused(fault)),
    }
}
