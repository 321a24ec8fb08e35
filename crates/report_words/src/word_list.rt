//! The words of many messages, in order.

ghost use Rattle.std.specs.Prelude.{◌≡◌, ◌==◌, ◌+◌, ◌≤◌, ◌++◌, ◌∷◌, [], length, take, slice_get, vec_len, vec_capacity, OnOk, OnErr};
ghost use Rattle.report_words.specs.Placing.{bytes_of};

use crate::placed::Placed;
use crate::report_words::ReportWords;
use std::alloc::{AllocError, Global};
use std::marker::Model;

/// How many bytes the words of a message are at most.
const MOST_BYTES: usize = 456;

/// The words of many messages, in order. Their bytes lie one behind the other in one text, so that words that say
/// nothing take none there. Contracts see the list of them.
#[derive(Drop)]
pub struct WordList {
    bytes: Vec<u8>,
    places: Vec<Placed>,
}

impl Model for WordList {
    ghost use Rattle.std.specs.Prelude.{List, length};
    ghost use Rattle.std.specs.List.{All};
    ghost use Rattle.report_words.specs.declared.report_words.ReportWords.{ReportWords};
    ghost use Rattle.report_words.specs.Placing.{IsPlaced, all_at};

    ghost Value = { List ReportWords };

    ghost view = { λ list. all_at list.bytes.items list.places.items };

    ghost invariant = { λ list. All (IsPlaced (length list.bytes.items)) list.places.items };
}

impl WordList {
    /// The list of none.
    pub fn new(alloc: Global) -> WordList
        ensures { result ≡ [] }
    {
        WordList {
            bytes: Vec::new(alloc),
            places: Vec::new(alloc),
        }
    }

    /// How many there are.
    pub fn len(&self) -> usize
        ensures { result ≡ length self.now }
    {
        self.places.len()
    }

    /// Whether there are none.
    pub fn is_empty(&self) -> bool
        ensures { result ≡ (length self.now == 0) }
    {
        self.places.is_empty()
    }

    /// Appends the words of a message. The only refusal is out of memory, and the list is as it was.
    pub fn push(&mut self, words: &ReportWords) -> Result<(), AllocError>
        ensures ok { OnOk result (self.new ≡ self.old ++ words.now ∷ []) }
        ensures err { OnErr result (self.new ≡ self.old) }
    {
        self.places.reserve(1)?;
        self.bytes.reserve(MOST_BYTES)?;
        let placed = Placed::new(self.bytes.len(), words);
        append_words(&mut self.bytes, words);
        self.places.push_reserved(placed);
        Ok(())
    }

    /// Leaves the first so many. The bytes of the others stay where they are, and are no words any more.
    pub fn truncate(&mut self, count: usize)
        ensures { self.new ≡ take count self.old }
    {
        self.places.truncate(count);
    }

    /// The words at a place, from 0 on, as they were pushed. It takes no memory.
    pub fn get(&self, place: usize) -> Option<ReportWords>
        ensures { result ≡ slice_get self.now place }
    {
        match self.places.get(place) {
            Some(placed) => Some(placed.words(self.bytes.as_slice())),
            None => None,
        }
    }
}

/// Appends a text for which there is room.
fn append(bytes: &mut Vec<u8>, text: &[u8])
    requires { vec_len bytes.old + length text.now ≤ vec_capacity bytes.old }
    ensures items { bytes.new.items ≡ bytes.old.items ++ text.now }
    ensures len { vec_len bytes.new ≡ vec_len bytes.old + length text.now }
    ensures capacity { vec_capacity bytes.old ≤ vec_capacity bytes.new }
{
    bytes.extend_from_slice(text).unwrap();
}

/// Appends all bytes of words, for which there is room.
fn append_words(bytes: &mut Vec<u8>, words: &ReportWords)
    requires { vec_len bytes.old + MOST_BYTES ≤ vec_capacity bytes.old }
    ensures { bytes.new.items ≡ bytes.old.items ++ bytes_of words.now }
{
    append(bytes, words.id.as_bytes());
    append(bytes, words.exec_type.as_bytes());
    append(bytes, words.order.as_bytes());
    append(bytes, words.shares.as_bytes());
    append(bytes, words.price.as_bytes());
    append(bytes, words.time.as_bytes());
    append(bytes, words.text.as_bytes());
    append(bytes, words.reason.as_bytes());
    append(bytes, words.refused.as_bytes());
    append(bytes, words.message.as_bytes());
}
