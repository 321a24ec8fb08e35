//! Which keys a table may have.

ghost use Rattle.std.specs.Prelude.{◌≡◌, option_map};
ghost use Rattle.desk_config.specs.Keys.{has_key, first_unknown};
ghost use Rattle.toml.specs.View.{table_view};

use toml::Table;

/// The keys of one kind of table.
#[derive(Clone, Copy, Debug, PartialEq, Eq)]
pub(crate) enum Keys {
    File,
    Desk,
    Venue,
    Words,
    Limits,
    User,
}

impl Keys {
    fn has(self, key: &str) -> bool
        ensures { result ≡ has_key self key.now }
    {
        match self {
            Keys::File => is_file_key(key),
            Keys::Desk => is_desk_key(key),
            Keys::Venue => is_venue_key(key),
            Keys::Words => is_word_key(key),
            Keys::Limits => is_limit_key(key),
            Keys::User => is_user_key(key),
        }
    }

    /// The first key of a table, in the order of their bytes, that it may not have.
    #[tactic(auto, unfolding(crate::specs::Keys::first_unknown))]
    pub(crate) fn first_unknown<'a>(self, table: &'a Table) -> Option<&'a str>
        ensures { option_map (λ key. key.now) result ≡ first_unknown self (table_view table.now) }
    {
        for (key, _) in table.iter() {
            if !self.has(key.as_str()) {
                return Some(key.as_str());
            }
        }
        None
    }
}

fn is_file_key(key: &str) -> bool
    ensures { result ≡ has_key Keys.File key.now }
{
    matches!(key, "desk" | "limits" | "venue" | "user")
}

fn is_desk_key(key: &str) -> bool
    ensures { result ≡ has_key Keys.Desk key.now }
{
    matches!(
        key,
        "name"
            | "environment"
            | "sender"
            | "callers"
            | "log"
            | "journal"
            | "durable"
            | "page"
            | "listen"
            | "socket"
            | "token"
            | "hosts"
    )
}

fn is_venue_key(key: &str) -> bool
    ensures { result ≡ has_key Keys.Venue key.now }
{
    matches!(
        key,
        "name"
            | "address"
            | "addresses"
            | "target"
            | "sender"
            | "dialect"
            | "words"
            | "order"
            | "header"
            | "logon"
            | "password_file"
            | "heartbeat"
            | "next_expected"
            | "reopen"
            | "max_number"
            | "fill"
            | "leg_shares"
            | "leg_dollars"
    )
}

fn is_word_key(key: &str) -> bool
    ensures { result ≡ has_key Keys.Words key.now }
{
    matches!(key, "id" | "mark" | "price" | "symbol")
}

fn is_limit_key(key: &str) -> bool
    ensures { result ≡ has_key Keys.Limits key.now }
{
    matches!(
        key,
        "leg_shares" | "leg_dollars" | "sweep_dollars" | "day_dollars" | "symbols"
    )
}

fn is_user_key(key: &str) -> bool
    ensures { result ≡ has_key Keys.User key.now }
{
    matches!(key, "name" | "token" | "token_file" | "may")
}
