//! The passwords of a desk's venues.

ghost use Rattle.std.specs.Prelude.{◌≡◌, [], ◌∷◌, ◌++◌, length, IfErr, IfOk, OnOk};
ghost use Rattle.run_file.specs.Fault.{IfOpen, IsToldSo};
ghost use Rattle.run_file.specs.Passwords.{HasItsPassword, HaveTheirPasswords};

use crate::fault::{CommandFault, lacks_memory};
use crate::folder::folder_of;
use desk_config::Venue;
use dressed_link::{MAX_SECRET, Secret};
use secret_file::{SecretFault, read_secret};
use std::alloc::{AllocError, Global};
use std::fs::Files;

/// Why the file of this path gives a venue no password. Out of memory is none of the file's.
fn password_fault(alloc: Global, venue: &Venue, file: String, why: SecretFault) -> CommandFault
    ensures memory { IsToldSo result }
    ensures left { IfOpen ⊥ result }
{
    if lacks_memory(why) {
        return CommandFault::OutOfMemory;
    }
    match String::from_str(alloc, venue.name.as_str()) {
        Ok(venue) => CommandFault::NoPassword { venue, file, why },
        Err(_) => CommandFault::OutOfMemory,
    }
}

/// The password that a venue's file has, if the venue names one beside this file.
fn read_password<R: Files>(
    rt: &R,
    alloc: Global,
    file: &str,
    venue: &Venue,
) -> Result<Option<Secret>, CommandFault>
    ensures has { IfOk result (HasItsPassword venue.now) }
    ensures memory { IfErr result IsToldSo }
    ensures left { IfErr result (IfOpen ⊥) }
{
    let Some(name) = &venue.password_file else {
        return Ok(None);
    };
    let path = folder_of(alloc, file, name.as_str())?;
    match read_secret::<MAX_SECRET, R>(rt, alloc, path.as_str()) {
        Ok(text) => Ok(Some(Secret::new(text))),
        Err(why) => Err(password_fault(alloc, venue, path, why)),
    }
}

/// One venue's more.
fn add(secrets: &mut Vec<Option<Secret>>, secret: Option<Secret>) -> Result<(), AllocError>
    ensures { OnOk result (secrets.new.items ≡ secrets.old.items ++ secret ∷ []) }
{
    Ok(secrets.push(secret)?)
}

/// The password of each venue that names a file for it beside this file, in order. Which bytes a file gives no
/// contract says.
pub fn read_passwords<R: Files>(
    rt: &R,
    alloc: Global,
    file: &str,
    venues: &[Venue],
) -> Result<Vec<Option<Secret>>, CommandFault>
    ensures have { IfOk result (λ secrets. HaveTheirPasswords venues.now secrets.items) }
    ensures each { IfOk result (λ secrets. length secrets.items ≡ length venues.now) }
    ensures memory { IfErr result IsToldSo }
    ensures left { IfErr result (IfOpen ⊥) }
{
    let mut secrets = Vec::new(alloc);
    for venue in venues {
        let secret = read_password(rt, alloc, file, venue)?;
        add(&mut secrets, secret)?;
    }
    Ok(secrets)
}
