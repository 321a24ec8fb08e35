//! The venues of a case.

ghost use Rattle.std.specs.Prelude.{◌≡◌, ◌≤◌, length};
ghost use Rattle.play_api.specs.Names.{names_of};

use case_text::PlayFault;
use desk_executions::UnbookedCounts;
use desk_json::{OrderWaits, VenueRow, WaitCount};
use desk_news::{Cause, VenueState, VenueStatus};
use desk_words::{VenueName, shown};
use session_core::Ended;
use std::alloc::{AllocError, Global};

/// The most venues of a desk.
pub const MAX_VENUES: usize = 16;

/// How the venues stand: all up, but for the one that a case says.
#[derive(Drop)]
pub struct Venues {
    alloc: Global,
    names: Vec<VenueName>,
    /// The venue that stands otherwise, by its place, and its state's word.
    amiss: Option<usize>,
    word: String,
    /// How many notes of each the book didn't take.
    pub unbooked: UnbookedCounts,
}

/// A state of which a case has the word.
fn state_of(word: &str) -> VenueState {
    match word {
        "dialled" => VenueState::Dialled,
        "down" => VenueState::Down(Cause::Ended(Ended::Silent)),
        "lost" => VenueState::Down(Cause::Lost(shown(b"said \"no\""))),
        "unreachable" => VenueState::Unreachable {
            why: shown(b"connection refused"),
            seconds: 4,
        },
        "closed" => VenueState::Closed(Cause::Said {
            ended: Ended::PeerLogout,
            text: shown(b"back at noon"),
        }),
        _ => VenueState::Up,
    }
}

impl Venues {
    pub fn new(alloc: Global) -> Venues {
        Venues {
            alloc,
            names: Vec::new(alloc),
            amiss: None,
            word: String::new(alloc),
            unbooked: UnbookedCounts {
                duplicates: 0,
                overfills: 0,
                strays: 0,
                unread: 0,
            },
        }
    }

    /// The names by their places; none where a case names more than a desk has.
    pub fn names(&self) -> &[VenueName]
        ensures value { result.now ≡ names_of self.now }
        ensures few { length result.now ≤ 16 }
    {
        if self.names.len() <= MAX_VENUES {
            self.names.as_slice()
        } else {
            &[]
        }
    }

    pub fn name_venues(&mut self, words: &str) -> Result<(), PlayFault> {
        self.names.clear();
        for word in words.split(' ') {
            let Some(name) = VenueName::new(word.as_bytes()) else {
                return Err(PlayFault::NotUnderstood);
            };
            self.names.push(name)?;
        }
        Ok(())
    }

    /// Has a venue stand otherwise than up.
    pub fn set_state(&mut self, words: &str) -> Result<(), PlayFault> {
        let Some((name, word)) = words.split_once(' ') else {
            return Err(PlayFault::NotUnderstood);
        };
        self.amiss = self
            .names
            .iter()
            .position(|known| known.as_bytes() == name.as_bytes());
        self.word = String::from_str(self.alloc, word)?;
        Ok(())
    }

    /// How long orders waited at each venue: two at most 50 microseconds, one longer than 100, and 200 in all.
    fn waits(&self) -> Result<OrderWaits, AllocError> {
        let mut within = Vec::new(self.alloc);
        within.push(WaitCount { most: 50, count: 2 })?;
        within.push(WaitCount {
            most: 100,
            count: 2,
        })?;
        Ok(OrderWaits {
            within,
            count: 3,
            micros: 200,
        })
    }

    fn row(&self, place: usize, name: &VenueName) -> Result<VenueRow, AllocError> {
        let is_amiss = self.amiss == Some(place);
        Ok(VenueRow {
            status: VenueStatus {
                venue: name.clone()?,
                unsent: 0,
                doubt: u64::from(is_amiss),
                lost: 0,
                contradicted: 0,
                state: state_of(if is_amiss { self.word.as_str() } else { "up" }),
            },
            settled: 5,
            withdrawn: 2,
            unbooked: self.unbooked,
            connections: 1,
            refused_dials: 0,
            messages_sent: 3,
            messages_received: 2,
            bytes_sent: 450,
            bytes_received: 280,
            waits: self.waits()?,
            heard_ms_ago: if is_amiss { None } else { Some(120) },
        })
    }

    pub fn rows(&self) -> Result<Vec<VenueRow>, AllocError> {
        let mut rows = Vec::new(self.alloc);
        for (place, name) in self.names.iter().enumerate() {
            rows.push(self.row(place, name)?)?;
        }
        Ok(rows)
    }
}
