//! The file of a desk: its TOML is read into the desk's configuration, or its first fault is named.
//!
//! Promises:
//! - `read_config` answers every text with exactly the configuration that its TOML spells (`config_in`), or with the
//!   first fault in order, by place and key; with TOML's own fault only where it is no TOML; or memory was wanted
//!   (`AnswersText`). The venues that it gives are 1 to 16, no two of one name, and no two with an address in common
//!   and the same comp ids (clause `apart`). What is said of each fault is the stated text (`config_fault_text`), but
//!   of TOML's own.
//!
//! See `docs/run.md`.
#![tactic(auto)]

mod address;
mod address_keys;
mod config;
mod day;
mod desk_keys;
mod dress_keys;
mod endpoint;
mod fault;
mod found;
mod from_value;
mod hosts;
mod journal;
mod journal_name;
mod key;
mod keys;
mod label;
mod limit_keys;
mod place;
mod read;
mod rights;
mod session_terms;
mod symbols;
mod user;
mod user_keys;
mod value_at;
mod venue;
mod venue_keys;
mod venues;
mod within;
mod word_keys;

pub use address::{Address, MAX_HOST, Port};
pub use config::{
    Callers, DeskConfig, FileName, FolderText, HostName, MAX_FOLDER, MAX_SOCKET, MAX_TOKEN,
    SocketText, TokenText,
};
pub use day::Day;
pub use endpoint::{Endpoint, FillShares};
pub use fault::{ConfigFault, Fault, KeyFault};
pub use found::{Found, FoundText, Kind};
pub use journal::{DayPattern, Durable, JournalTerms};
pub use key::Key;
pub use label::Label;
pub use limit_keys::LimitsTable;
pub use place::Place;
pub use read::read_config;
pub use session_terms::{Heartbeat, NumberLimit, SessionTerms};
pub use user::{MAX_USER_NAME, Rights, User, UserName, UserToken};
pub use venue::{MAX_BACKUPS, Venue};
pub use within::Within;
