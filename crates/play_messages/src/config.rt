//! What a session is configured with.

use crate::envelope::firm;
use case_text::{Answers, PlayFault, number, shown, words};
use fix_tags::Config;
use std::alloc::Global;

/// Answers the parts of a configuration.
fn answer_parts(alloc: Global, config: &Config, answers: &mut Answers) -> Result<(), PlayFault> {
    let me = shown(alloc, config.me().as_bytes())?;
    let peer = shown(alloc, config.peer().as_bytes())?;
    let (heart, max_number) = (config.heart(), config.max_number());
    let next = if config.has_next() { " next" } else { "" };
    answers.say(&format!(in alloc; "{me} {peer} {heart} {max_number}{next}")?)
}

/// Answers the configuration of a session from `me` to `peer`, if there is one, with a Logon that says the next number
/// where `next` stands behind.
pub fn answer_config(alloc: Global, text: &str, answers: &mut Answers) -> Result<(), PlayFault> {
    let words = words(alloc, text)?;
    let [me, peer, heart, max_number, rest @ ..] = words.as_slice() else {
        return Err(PlayFault::NotUnderstood);
    };
    let (me, peer) = (firm(alloc, me)?, firm(alloc, peer)?);
    match (
        Config::new(me, peer, number(heart)?, number(max_number)?),
        rest,
    ) {
        (None, []) => answers.say("none"),
        (Some(config), []) => answer_parts(alloc, &config, answers),
        (Some(config), ["next"]) => answer_parts(alloc, &config.with_next(), answers),
        _ => Err(PlayFault::NotUnderstood),
    }
}
