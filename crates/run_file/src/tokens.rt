//! The tokens of a desk's users.

ghost use Rattle.std.specs.Prelude.{◌≡◌, ◌+◌, length, IfErr, IfOk, OnOk};
ghost use Rattle.run_file.specs.Fault.{IfOpen, IsToldSo};

use crate::fault::{CommandFault, lacks_memory};
use crate::folder::folder_of;
use desk_config::{FileName, TokenText, User, UserToken};
use secret_file::{SecretFault, read_secret};
use std::alloc::{AllocError, Global};
use std::fs::Files;

/// Why the file of a user's token gives none. Out of memory is none of the file's.
fn token_fault(alloc: Global, user: &User, name: &FileName, fault: SecretFault) -> CommandFault
    ensures memory { IsToldSo result }
    ensures left { IfOpen ⊥ result }
{
    if lacks_memory(fault) {
        return CommandFault::OutOfMemory;
    }
    let Ok(user) = String::from_str(alloc, user.name.as_str()) else {
        return CommandFault::OutOfMemory;
    };
    let Ok(file) = String::from_str(alloc, name.as_str()) else {
        return CommandFault::OutOfMemory;
    };
    CommandFault::NoToken { user, file, fault }
}

/// The token of a user, which stands in the desk's file or in one that lies beside it.
fn token_of<R: Files>(
    rt: &R,
    alloc: Global,
    desk: &str,
    user: &User,
) -> Result<TokenText, CommandFault>
    ensures memory { IfErr result IsToldSo }
    ensures left { IfErr result (IfOpen ⊥) }
{
    let name = match &user.token {
        UserToken::Text(token) => return Ok(token.clone()?),
        UserToken::File(name) => name,
    };
    let path = folder_of(alloc, desk, name.as_str())?;
    match read_secret(rt, alloc, path.as_str()) {
        Ok(token) => Ok(token),
        Err(fault) => Err(token_fault(alloc, user, name, fault)),
    }
}

/// Whether one of these tokens is this one.
fn is_among(tokens: &[TokenText], token: &TokenText) -> bool {
    tokens.iter().any(|other| other == token)
}

/// One token more.
fn add(tokens: &mut Vec<TokenText>, token: TokenText) -> Result<(), AllocError>
    ensures { OnOk result (length tokens.new.items ≡ length tokens.old.items + 1) }
{
    Ok(tokens.push(token)?)
}

/// The tokens of users, by their places. The name is that of the desk's file. Refused where a file gives no token, or
/// two users have the same.
pub fn read_tokens<R: Files>(
    rt: &R,
    alloc: Global,
    desk: &str,
    users: &[User],
) -> Result<Vec<TokenText>, CommandFault>
    ensures each { IfOk result (λ tokens. length tokens.items ≡ length users.now) }
    ensures memory { IfErr result IsToldSo }
    ensures left { IfErr result (IfOpen ⊥) }
{
    let mut tokens = Vec::new(alloc);
    for user in users {
        let token = token_of(rt, alloc, desk, user)?;
        if is_among(tokens.as_slice(), &token) {
            let user = String::from_str(alloc, user.name.as_str())?;
            return Err(CommandFault::SameToken(user));
        }
        add(&mut tokens, token)?;
    }
    Ok(tokens)
}
