//! What is seen of a day's venues before their workers are made.

ghost use Rattle.std.specs.Prelude.{◌≡◌, length, map, IfOk, IfErr};
ghost use Rattle.desk_venues.specs.Faults.{IsNoMismatch};

use crate::day_fault::DayFault;
use crate::logs::{LogFolder, Logs, begin_logs};
use day_log::{FileWriter, VenueLog};
use desk_config::Venue;
use desk_floor::VenueView;
use desk_words::VenueName;
use std::alloc::{AllocError, Global};
use std::collections::VecDeque;
use std::fs::{File, Files};
use std::sync::Arc;

/// What is seen of the venues, and the logs of the day, if it keeps any.
#[derive(Drop)]
pub struct Sight {
    /// The names of the venues, in order.
    pub names: Vec<VenueName>,
    /// A view of each, in order, with its log.
    pub views: Vec<VenueView>,
    /// The log of the lines that are taken and answered.
    pub line_log: Option<Arc<VenueLog, Global>>,
    /// What writes the logs.
    pub writers: Vec<FileWriter<File>>,
}

/// What is seen of venues before their workers are made; the logs are begun in the folder, if there is one.
pub fn first_sight<R: Files<File = File>>(
    rt: &R,
    alloc: Global,
    folder: Option<LogFolder<'_>>,
    venues: &[Venue],
) -> Result<Sight, DayFault>
    ensures names { IfOk result (λ sight. sight.names.items ≡ map (λ v. v.name) venues.now) }
    ensures as_many { IfOk result (λ sight. length sight.names.items ≡ length venues.now) }
    ensures views { IfOk result (λ sight. length sight.views.items ≡ length venues.now) }
    ensures only { IfErr result IsNoMismatch }
{
    let names = names_of(alloc, venues)?;
    let Logs {
        venues: logs,
        lines,
        writers,
    } = begin_logs(rt, alloc, folder, venues)?;
    Ok(Sight {
        names,
        views: views_of(alloc, venues, logs)?,
        line_log: lines,
        writers,
    })
}

/// The names of venues, in order.
fn names_of(alloc: Global, venues: &[Venue]) -> Result<Vec<VenueName>, AllocError>
    ensures each { IfOk result (λ names. names.items ≡ map (λ v. v.name) venues.now) }
    ensures as_many { IfOk result (λ names. length names.items ≡ length venues.now) }
{
    let mut names = Vec::new(alloc);
    for venue in venues {
        names.push(venue.name.clone()?)?;
    }
    Ok(names)
}

/// What is seen of venues before their workers are made, in order, each with its log, if there is one.
fn views_of(
    alloc: Global,
    venues: &[Venue],
    logs: Vec<Arc<VenueLog, Global>>,
) -> Result<Vec<VenueView>, AllocError>
    ensures { IfOk result (λ views. length views.items ≡ length venues.now) }
{
    let mut logs = VecDeque::from(logs);
    let mut views = Vec::new(alloc);
    'each: for _ in 0..venues.len() {
        views.push(VenueView::new(alloc, logs.pop_front())?)?;
    }
    Ok(views)
}
