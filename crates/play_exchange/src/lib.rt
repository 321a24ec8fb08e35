//! What plays cases on an exchange. `cases/exchange/README.md` has the commands.
#![tactic(auto)]

mod act;
mod manner;
mod new_exchange;
mod player;
mod standing;

pub use player::ExchangePlayer;
