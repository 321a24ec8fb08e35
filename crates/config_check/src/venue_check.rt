//! What `dispatch run FILE --check` prints of a venue behind its line.

ghost use Rattle.std.specs.Prelude.{◌≡◌, ◌++◌, IfOk, OnOk};
ghost use Rattle.std.specs.List.{flat_map};
ghost use Rattle.config_check.specs.VenueCheck.{backup_word, backups_line, dress_lines, field_word, line_of, logon_words};
ghost use Rattle.config_check.specs.VenueCheck.{named_line, password_word};

use desk_config::{Address, FileName, Venue};
use dialect::Extra;
use std::alloc::{AllocError, Global};

/// Appends a line of these words behind its name, if there are any.
pub(crate) fn append_named(name: &[u8], words: &[u8], text: &mut Vec<u8>) -> Result<(), AllocError>
    ensures { OnOk result (text.new.items ≡ text.old.items ++ named_line name.now words.now) }
{
    if words.is_empty() {
        return Ok(());
    }
    text.extend_from_slice(name)?;
    text.extend_from_slice(words)?;
    text.extend_from_slice(b"\n")
}

/// Appends a line of these words behind what they are and their venue's name, if there are any.
fn append_of(
    alloc: Global,
    what: &str,
    venue: &Venue,
    words: &[u8],
    text: &mut Vec<u8>,
) -> Result<(), AllocError>
    ensures { OnOk result (text.new.items ≡ text.old.items ++ line_of what.now venue.now words.now) }
{
    let name = &venue.name;
    let head = format!(in alloc; "{what} of {name}")?;
    append_named(head.as_bytes(), words, text)
}

/// Appends a backup behind a space, if it is there.
fn append_backup(
    alloc: Global,
    backup: &Option<Address>,
    words: &mut Vec<u8>,
) -> Result<(), AllocError>
    ensures { OnOk result (words.new.items ≡ words.old.items ++ backup_word backup.now) }
{
    if let Some(address) = backup {
        let word = format!(in alloc; " {address}")?;
        words.extend_from_slice(word.as_bytes())?;
    }
    Ok(())
}

fn append_each_backup(
    alloc: Global,
    backups: &[Option<Address>],
    words: &mut Vec<u8>,
) -> Result<(), AllocError>
    ensures { OnOk result (words.new.items ≡ words.old.items ++ flat_map backup_word backups.now) }
{
    for backup in backups {
        append_backup(alloc, backup, words)?;
    }
    Ok(())
}

/// A field behind a space.
fn field_word(alloc: Global, field: &Extra) -> Result<Vec<u8>, AllocError>
    ensures { IfOk result (λ word. word.items ≡ field_word field.now) }
{
    let tag = field.tag;
    let mut word = format!(in alloc; " {tag}=")?.into_bytes();
    word.extend_from_slice(field.value.as_slice())?;
    Ok(word)
}

fn append_fields(alloc: Global, fields: &[Extra], words: &mut Vec<u8>) -> Result<(), AllocError>
    ensures { OnOk result (words.new.items ≡ words.old.items ++ flat_map field_word fields.now) }
{
    for field in fields {
        words.extend_from_slice(&field_word(alloc, field)?)?;
    }
    Ok(())
}

/// Appends that there is a password, which isn't shown.
fn append_password(file: &Option<FileName>, words: &mut Vec<u8>) -> Result<(), AllocError>
    ensures { OnOk result (words.new.items ≡ words.old.items ++ password_word file.now) }
{
    match file {
        Some(_) => words.extend_from_slice(b" 554=***"),
        None => Ok(()),
    }
}

fn logon_words(alloc: Global, venue: &Venue) -> Result<Vec<u8>, AllocError>
    ensures { IfOk result (λ words. words.items ≡ logon_words venue.now) }
{
    let mut words = Vec::new(alloc);
    append_fields(alloc, venue.dress.logon(), &mut words)?;
    append_password(&venue.password_file, &mut words)?;
    Ok(words)
}

/// Appends where a venue is dialled if its address fails, if the file says it.
pub(crate) fn append_backups(
    alloc: Global,
    venue: &Venue,
    text: &mut Vec<u8>,
) -> Result<(), AllocError>
    ensures { OnOk result (text.new.items ≡ text.old.items ++ backups_line venue.now) }
{
    let mut words = Vec::new(alloc);
    append_each_backup(alloc, venue.backups.as_slice(), &mut words)?;
    append_of(alloc, "backups", venue, words.as_slice(), text)
}

/// Appends what the messages for a venue carry besides, if they carry anything.
pub(crate) fn append_dress(
    alloc: Global,
    venue: &Venue,
    text: &mut Vec<u8>,
) -> Result<(), AllocError>
    ensures { OnOk result (text.new.items ≡ text.old.items ++ dress_lines venue.now) }
{
    let mut header = Vec::new(alloc);
    append_fields(alloc, venue.dress.header(), &mut header)?;
    let logon = logon_words(alloc, venue)?;
    append_of(alloc, "header", venue, header.as_slice(), text)?;
    append_of(alloc, "logon", venue, logon.as_slice(), text)
}
