//! Texts that a venue picks, and the texts of the refusals.

use case_text::{Answers, PlayFault, bytes_of, shown};
use dialect::{DialectFault, ExecId, FreeText, LastPx, OrderId, SpellFault};
use leg::LegFault;
use std::alloc::Global;

/// Answers a text that is kept, or that it isn't.
fn answer_kept<const N: usize>(
    alloc: Global,
    kept: Option<FreeText<N>>,
    answers: &mut Answers,
) -> Result<(), PlayFault> {
    match kept {
        Some(text) => {
            let text = shown(alloc, text.as_bytes())?;
            answers.say(&text)
        }
        None => answers.say("none"),
    }
}

/// Answers whether a text may be an id or a price.
pub fn answer_text(
    alloc: Global,
    word: &str,
    text: &str,
    answers: &mut Answers,
) -> Result<(), PlayFault> {
    let bytes = bytes_of(alloc, text)?;
    match word {
        "exec_id" => answer_kept(alloc, ExecId::new(&bytes), answers),
        "order_id" => answer_kept(alloc, OrderId::new(&bytes), answers),
        "last_px" => answer_kept(alloc, LastPx::new(&bytes), answers),
        _ => Err(PlayFault::NotUnderstood),
    }
}

/// The texts of the refusals.
pub fn answer_codes(alloc: Global, answers: &mut Answers) -> Result<(), PlayFault> {
    for fault in [
        LegFault::BadSymbol,
        LegFault::BadShares,
        LegFault::BadPrice,
        LegFault::BadVenue,
        LegFault::Overfill,
        LegFault::AlreadyMoved,
        LegFault::NotFilled,
    ] {
        answers.say(&format!(in alloc; "{fault}")?)?;
    }
    for fault in [
        DialectFault::Missing(11),
        DialectFault::Bad(38),
        DialectFault::NotMarked,
        DialectFault::NotIoc,
    ] {
        answers.say(&format!(in alloc; "{fault}")?)?;
    }
    answers.say(&format!(in alloc; "{}", SpellFault::OutOfMemory)?)
}
