//! Phrases, one behind the other.

ghost use Rattle.std.specs.Prelude.{◌≡◌, OnOk};
ghost use Rattle.event_text.specs.Says.{also};

use std::alloc::AllocError;

/// Says one more phrase, behind `; ` where something was said before.
#[tactic(auto, using(crate::proofs::SaidMore::also_first, crate::proofs::SaidMore::also_more))]
pub(crate) fn say(text: &mut Vec<u8>, phrase: &[u8]) -> Result<(), AllocError>
    ensures { OnOk result (text.new.items ≡ also text.old.items phrase.now) }
{
    if text.is_empty() {
        return text.extend_from_slice(phrase);
    }
    text.extend_from_slice(b"; ")?;
    text.extend_from_slice(phrase)
}
