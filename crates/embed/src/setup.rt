//! The venues of a day, read.

use crate::line::Line;
use crate::stopped::Stopped;
use desk_words::VenueName;
use dialect::AnyDialect;
use fix_tags::{CompId, Config};
use std::alloc::Global;
use std::str;

/// The venue of a line, as `NYSE A B 30 1000 plain`: its name, the comp ids of this end and of the exchange, the
/// seconds between heartbeats, the number that no message may have, and how orders are spelled.
fn venue_of(alloc: Global, line: &str) -> Option<(VenueName, Line)> {
    let mut words = line.split(' ');
    let name = VenueName::new(words.next()?.as_bytes())?;
    let me = CompId::new(words.next()?.as_bytes())?;
    let peer = CompId::new(words.next()?.as_bytes())?;
    let heart: u64 = words.next()?.parse().ok()?;
    let max_number: u64 = words.next()?.parse().ok()?;
    let dialect = AnyDialect::named(words.next()?)?;
    if words.next().is_some() {
        return None;
    }
    let config = Config::new(me, peer, heart, max_number)?;
    Some((name, Line::new(alloc, dialect, config)))
}

/// The venues of a setup, one a line, no two of one name.
pub fn venues_of(alloc: Global, setup: &[u8]) -> Result<(Vec<VenueName>, Vec<Line>), Stopped> {
    let text = str::from_utf8(setup).map_err(|_| Stopped::BadSetup)?;
    let mut names: Vec<VenueName> = Vec::new(alloc);
    let mut lines = Vec::new(alloc);
    for line in text.lines() {
        let Some((name, line)) = venue_of(alloc, line) else {
            return Err(Stopped::BadSetup);
        };
        if names.iter().any(|other| *other == name) {
            return Err(Stopped::BadSetup);
        }
        names.push(name)?;
        lines.push(line)?;
    }
    Ok((names, lines))
}
