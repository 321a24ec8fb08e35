//! The first line of a script.

ghost use Rattle.std.specs.Prelude.{◌≡◌, ◌≤◌, length, map, IfOk, IfSome};
ghost use Rattle.std.specs.Option.{option_map};
ghost use Rattle.schedule.specs.Script.{ScriptVenue, head_of_words, words_of};
ghost use Rattle.script.specs.Head.{few_venues};

use crate::venue_choice::VenueChoice;
use crate::word::{is_named, number_within, words_of};
use arrayvec::ArrayVec;
use dialect::AnyDialect;
use std::alloc::{AllocError, Global};
use std::marker::Model;
use text_pieces::Pieces;

/// The most venues of a script.
const MAX_VENUES: usize = 16;

/// The least number that may be the one that no message has.
const MIN_NUMBER: u64 = 16;

/// The greatest number that may be the one that no message has.
const MAX_NUMBER: u64 = 999_999_999;

/// What the first line says: with what a world is made.
#[derive(Drop)]
pub struct Head {
    max_number: u64,
    venues: ArrayVec<VenueChoice, MAX_VENUES>,
}

impl Model for Head {
    ghost use Rattle.schedule.specs.Script.{ScriptHead};
    ghost use Rattle.script.specs.Head.{IsHead};

    ghost Value = { ScriptHead };

    ghost view = { λ h. record { max_number = h.max_number; venues = h.venues.items } };

    ghost invariant = { λ h. IsHead (record { max_number = h.max_number; venues = h.venues.items }) };
}

/// The venues of a first line, 1 to 16.
fn read_venues(words: &mut Pieces<'_>) -> Option<ArrayVec<VenueChoice, MAX_VENUES>>
    ensures value { option_map (λ venues. venues.items) result ≡ few_venues words.old }
    ensures few { IfSome result (λ venues. (1 ≤ length venues.items) × (length venues.items ≤ 16)) }
{
    let mut venues = ArrayVec::new();
    while let Some(word) = words.next() {
        if venues.is_full() {
            return None;
        }
        venues.push(VenueChoice::named(word)?);
    }
    if venues.is_empty() {
        return None;
    }
    Some(venues)
}

impl Head {
    /// What a first line says, if it is one.
    #[tactic(auto, using(crate::proofs::Venues::head_by_venues, crate::proofs::Venues::other_head))]
    pub fn read(line: &[u8]) -> Option<Head>
        ensures { result ≡ head_of_words (words_of line.now) }
    {
        let mut words = words_of(line);
        let name = words.next()?;
        let number = words.next()?;
        if !is_named(name, "venues") {
            return None;
        }
        let max_number = number_within(MIN_NUMBER, MAX_NUMBER, number)?;
        let venues = read_venues(&mut words)?;
        Some(Head { max_number, venues })
    }

    /// The number that no message of a session has.
    pub fn max_number(&self) -> u64
        ensures number { result ≡ self.now.max_number }
        ensures least { 16 ≤ result }
        ensures most { result ≤ 999999999 }
    {
        self.max_number
    }

    /// The dialect of each venue. The only refusal is out of memory.
    pub fn dialects(&self, alloc: Global) -> Result<Vec<AnyDialect>, AllocError>
        ensures dialects { IfOk result (λ dialects. dialects.items
            ≡ map (λ (venue : ScriptVenue). venue.dialect) self.now.venues) }
        ensures each { IfOk result (λ dialects. length dialects.items ≡ length self.now.venues) }
    {
        self.venues
            .iter()
            .map(|venue| venue.dialect())
            .collect(alloc)
    }

    /// Of each venue, whether its Logons say which number is expected next (789). The only refusal is out of memory.
    pub fn next(&self, alloc: Global) -> Result<Vec<bool>, AllocError>
        ensures next { IfOk result (λ next. next.items ≡ map (λ (venue : ScriptVenue). venue.next) self.now.venues) }
        ensures each { IfOk result (λ next. length next.items ≡ length self.now.venues) }
        ensures low { 1 ≤ length self.now.venues }
        ensures high { length self.now.venues ≤ 16 }
    {
        self.venues.iter().map(|venue| venue.next()).collect(alloc)
    }

    /// How many venues there are, 1 to 16.
    pub fn venue_count(&self) -> u8
        ensures count { result ≡ length self.now.venues }
        ensures low { 1 ≤ result }
        ensures high { result ≤ 16 }
    {
        self.venues.len() as u8
    }
}
