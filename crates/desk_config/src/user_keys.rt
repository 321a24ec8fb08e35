//! The users of a file: its tables `[[user]]`.

ghost use Rattle.std.specs.Prelude.{◌≡◌, ◌<◌, ◌≤◌, [], length, position, IfOk, IfSome};
ghost use Rattle.desk_config.specs.Users.{AnswersUsers, named_user, next_user, same_token, same_user_name};
ghost use Rattle.desk_config.specs.Users.{user_apart, user_in, user_items, user_token_in, users_from, users_of};
ghost use Rattle.desk_config.specs.Venues.{result_map};
ghost use Rattle.toml.specs.View.{array_view, view};

use crate::config::{FileName, TokenText};
use crate::fault::{ConfigFault, Fault, KeyFault};
use crate::found::Found;
use crate::from_value::FromValue;
use crate::key::Key;
use crate::keys::Keys;
use crate::place::Place;
use crate::rights::rights_in;
use crate::user::{User, UserName, UserToken};
use crate::value_at::{checked, needed, value_at};
use std::alloc::Global;
use toml::Value;
use toml::value::Array;

/// The most users.
const MAX_USERS: usize = 32;

/// How a user is known: by `token`, or by `token_file`, and not both.
#[tactic(auto, unfolding(crate::specs::Users::user_token_in))]
fn user_token_in(table: &Value) -> Result<UserToken, Fault>
    ensures { result ≡ user_token_in (view table.now) }
{
    let token: Option<TokenText> = value_at(table, Key::Token)?;
    let file: Option<FileName> = value_at(table, Key::TokenFile)?;
    match (token, file) {
        (Some(token), None) => Ok(UserToken::Text(token)),
        (None, Some(file)) => Ok(UserToken::File(file)),
        (Some(_), Some(_)) => Err(Fault::TwoTokens),
        (None, None) => Err(Fault::Missing(Key::Token)),
    }
}

/// What a `[[user]]` says.
#[tactic(auto, unfolding(crate::specs::Users::user_in))]
fn user_in(table: &Value) -> Result<User, Fault>
    ensures { result ≡ user_in (view table.now) }
{
    checked(table, Keys::User)?;
    let name = needed(table, Key::UserName)?;
    let token = user_token_in(table)?;
    let may = rights_in(table)?;
    Ok(User { name, token, may })
}

fn same_user_name(one: &User, other: &User) -> bool
    ensures { result ≡ same_user_name one.now other.now }
{
    one.name.as_bytes() == other.name.as_bytes()
}

/// Whether two users are known by the same token, or by that of the same file.
fn same_token(one: &UserToken, other: &UserToken) -> bool
    ensures { result ≡ same_token one.now other.now }
{
    match (one, other) {
        (UserToken::Text(one), UserToken::Text(other)) => one.as_bytes() == other.as_bytes(),
        (UserToken::File(one), UserToken::File(other)) => one.as_bytes() == other.as_bytes(),
        _ => false,
    }
}

/// The first of the earlier users that has a user's name.
fn first_of_name(earlier: &[User], user: &User) -> Option<usize>
    ensures value { result ≡ position (λ other. same_user_name other user.now) earlier.now }
    ensures within { IfSome result (λ at. at < length earlier.now) }
{
    earlier.iter().position(|other| same_user_name(other, user))
}

/// The first of the earlier users that is known as a user is.
fn first_of_token(earlier: &[User], user: &User) -> Option<usize>
    ensures value { result ≡ position (λ other. same_token other.token user.now.token) earlier.now }
    ensures within { IfSome result (λ at. at < length earlier.now) }
{
    earlier
        .iter()
        .position(|other| same_token(&other.token, &user.token))
}

/// That no earlier user has the name of a user, nor is known as it is.
#[tactic(auto, unfolding(crate::specs::Users::user_apart))]
fn user_apart(earlier: &[User], user: &User) -> Result<(), Fault>
    ensures { result ≡ user_apart earlier.now user.now }
{
    match (first_of_name(earlier, user), first_of_token(earlier, user)) {
        (Some(at), _) => Err(Fault::SameUser(at + 1)),
        (None, Some(at)) => Err(Fault::SameToken(at + 1)),
        (None, None) => Ok(()),
    }
}

/// The name of a user, where its table has one.
fn named_user(table: &Value) -> Option<UserName>
    ensures { result ≡ named_user (view table.now) }
{
    UserName::from_value(table.get(Key::UserName.name())?)
}

/// What the next `[[user]]` says.
#[tactic(auto, unfolding(crate::specs::Users::next_user))]
fn next_user(earlier: &[User], table: &Value) -> Result<User, KeyFault>
    requires { length earlier.now < 32 }
    ensures { result ≡ next_user earlier.now (view table.now) }
{
    let fault = match user_in(table) {
        Ok(user) => match user_apart(earlier, &user) {
            Ok(()) => return Ok(user),
            Err(fault) => fault,
        },
        Err(fault) => fault,
    };
    Err(KeyFault {
        place: Place::User {
            number: earlier.len() + 1,
            name: named_user(table),
        },
        fault,
    })
}

/// The tables `[[user]]`, 1 to 32.
#[tactic(auto, using(crate::proofs::Views::items_count_view), unfolding(crate::specs::Users::user_items))]
fn user_items(value: &Value) -> Result<&Array, Fault>
    ensures value { user_items (view value.now) ≡ (result_map (λ items. array_view items.now) result) }
    ensures few { IfOk result (λ items. length items.now.items ≤ 32) }
{
    match value.as_array() {
        Some(items) if !items.is_empty() && items.len() <= MAX_USERS => Ok(items),
        _ => Err(Fault::Bad {
            key: Key::User,
            found: Found::of(value),
        }),
    }
}

/// What the tables `[[user]]` say.
#[tactic(auto, using(crate::proofs::UsersRead::user_steps), unfolding(crate::specs::Users::users_from))]
fn each_user(alloc: Global, tables: &Array) -> Result<Vec<User>, ConfigFault>
    requires { length tables.now.items ≤ 32 }
    ensures { AnswersUsers (users_from [] (array_view tables.now)) result }
{
    let mut users = Vec::new(alloc);
    for table in tables {
        match next_user(users.as_slice(), table) {
            Ok(user) => users.push(user)?,
            Err(fault) => return Err(ConfigFault::Key(fault)),
        }
    }
    Ok(users)
}

/// What the users of a file say; there are none where it has no `[[user]]`.
#[tactic(auto, unfolding(crate::specs::Users::users_of))]
pub(crate) fn read_users(alloc: Global, file: &Value) -> Result<Vec<User>, ConfigFault>
    ensures { AnswersUsers (users_of (view file.now)) result }
{
    let Some(value) = file.get(Key::User.name()) else {
        return Ok(Vec::new(alloc));
    };
    match user_items(value) {
        Ok(tables) => each_user(alloc, tables),
        Err(fault) => Err(ConfigFault::Key(KeyFault {
            place: Place::File,
            fault,
        })),
    }
}
