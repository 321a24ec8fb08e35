//! What a session is configured with.

use case_text::{PlayFault, number};
use fix_tags::{CompId, Config};

/// What a session is configured with, as a case file says it.
#[derive(Debug, Drop)]
pub struct Setup {
    me: CompId,
    peer: CompId,
    heart: u64,
    max_number: u64,
    /// Whether its Logons say which number it expects next (789).
    says_next: bool,
}

fn comp_id(word: &str) -> Result<CompId, PlayFault> {
    CompId::new(word.as_bytes()).ok_or(PlayFault::NotUnderstood)
}

impl Setup {
    /// The setup of these words, as `A B heartbeat 30 max 1000`, and `next-expected` behind them if its Logons say it.
    pub fn of(words: &[&str]) -> Result<Setup, PlayFault> {
        match words {
            [me, peer, "heartbeat", heart, "max", max, rest @ ..] => {
                let heart = number(heart)?;
                let max_number = number(max)?;
                let says_next = match rest {
                    [] => false,
                    ["next-expected"] => true,
                    _ => return Err(PlayFault::NotUnderstood),
                };
                let me = comp_id(me)?;
                let peer = comp_id(peer)?;
                Ok(Setup {
                    me,
                    peer,
                    heart,
                    max_number,
                    says_next,
                })
            }
            _ => Err(PlayFault::NotUnderstood),
        }
    }

    /// The configuration, if its numbers are in range.
    pub fn config(&self) -> Result<Option<Config>, PlayFault> {
        let me = self.me.clone()?;
        let peer = self.peer.clone()?;
        let config = Config::new(me, peer, self.heart, self.max_number);
        Ok(if self.says_next {
            config.map(|config| config.with_next())
        } else {
            config
        })
    }
}
