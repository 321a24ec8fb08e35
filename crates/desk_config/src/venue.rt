//! A venue of the file.

use crate::address::Address;
use crate::config::FileName;
use crate::endpoint::Endpoint;
use crate::session_terms::SessionTerms;
use desk_words::VenueName;
use fix_tags::CompId;
use order_limits::LegLimits;
use venue_words::{Dress, VenueWords};

/// The most addresses beside the first.
pub const MAX_BACKUPS: usize = 3;

/// A venue, and the session with its exchange.
#[derive(Debug, Drop)]
pub struct Venue {
    pub name: VenueName,
    pub endpoint: Endpoint,
    /// Where it is dialled instead, in this order: those that there are come first. A simulated exchange has none.
    pub backups: [Option<Address>; MAX_BACKUPS],
    /// The exchange's comp id.
    pub target: CompId,
    /// The desk's comp id at this venue.
    pub sender: CompId,
    pub session: SessionTerms,
    /// How it spells orders and reports.
    pub words: VenueWords,
    /// What its messages carry besides.
    pub dress: Dress,
    /// The file, beside the desk's file, with the password (554) of each Logon; it has none without it.
    pub password_file: Option<FileName>,
    /// What a leg for it may have, beside what any leg may.
    pub limits: LegLimits,
}
