//! Places in a list, by texts.

ghost use Rattle.std.specs.Prelude.{◌≡◌, ◌<◌, ℕ, List, Some, None, OnOk, if◌then◌else◌};
ghost use Rattle.std.specs.Str.{bytes_eq};
ghost use Rattle.log_rules.specs.Places.{first_kept, room, text_place};

use std::alloc::{AllocError, Global};
use std::collections::HashMap;

/// Places in a list, each by a text, as a ClOrdID (11) or an ExecID (17).
#[derive(Debug, Drop)]
pub(crate) struct TextPlaces {
    by_text: HashMap<Vec<u8>, usize>,
}

impl TextPlaces {
    pub(crate) fn new(alloc: Global) -> TextPlaces
        ensures { (text : List ℕ) → text_place result text ≡ None }
    {
        TextPlaces {
            by_text: HashMap::new(alloc),
        }
    }

    /// The place that is kept under a text.
    pub(crate) fn get(&self, text: &[u8]) -> Option<usize>
        ensures { result ≡ text_place self.now text.now }
    {
        self.by_text.get(text).copied()
    }

    /// Makes room for one more text.
    pub(crate) fn reserve(&mut self) -> Result<(), AllocError>
        ensures same { (text : List ℕ) → text_place self.new text ≡ text_place self.old text }
        ensures ok { OnOk result (0 < room self.new) }
    {
        self.by_text.reserve(1)
    }

    /// Keeps a place under a text, in place of what was kept there.
    pub(crate) fn set(&mut self, text: Vec<u8>, place: usize)
        requires { 0 < room self.old }
        ensures { (other : List ℕ) → text_place self.new other
            ≡ (if bytes_eq text.items other then Some place else text_place self.old other) }
    {
        let put: Result<_, _> = self.by_text.insert(text, place);
        put.unwrap();
    }

    /// Keeps a place under a text, unless one is kept there.
    pub(crate) fn keep(&mut self, text: Vec<u8>, place: usize)
        requires { 0 < room self.old }
        ensures { (other : List ℕ) → text_place self.new other
            ≡ first_kept (bytes_eq text.items other) place (text_place self.old other) }
    {
        if self.get(&text).is_none() {
            self.set(text, place);
        }
    }
}
