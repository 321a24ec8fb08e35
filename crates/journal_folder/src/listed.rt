//! The journals in a folder.

ghost use Rattle.std.specs.Prelude.{◌≡◌, IfErr};
ghost use Rattle.journal_folder.specs.Found.{IsUnlisted};

use crate::fault::FolderFault;
use crate::head::count_of;
use std::alloc::{AllocError, Global};
use std::collections::BTreeMap;
use std::fs::{self, File, Files};

/// Where the file of a journal is.
pub fn journal_path(
    alloc: Global,
    folder: &str,
    name: &str,
    file: usize,
) -> Result<String, AllocError> {
    format!(in alloc; "{folder}/{name}.{file}.journal")
}

/// The journal and the number of its file that a name says: `NYSE.2.journal` is the second file of `NYSE`.
fn file_of(name: &str) -> Option<(&str, u64)> {
    let (name, number) = name.strip_suffix(".journal")?.rsplit_once('.')?;
    match count_of(number.as_bytes())? {
        0 => None,
        number => Some((name, number)),
    }
}

/// Notes the name of a file, if it is that of a journal's.
fn note(
    alloc: Global,
    journals: &mut BTreeMap<String, usize>,
    name: &str,
) -> Result<(), FolderFault>
    ensures { IfErr result (λ fault. fault ≡ FolderFault.OutOfMemory) }
{
    let Some((name, file)) = file_of(name) else {
        return Ok(());
    };
    let last = match journals.get(name) {
        Some(last) => *last,
        None => 0,
    };
    let _ = journals.insert(String::from_str(alloc, name)?, last.max(file as usize))?;
    Ok(())
}

/// The journals in a folder, by their names, and the greatest number that a file of each has.
pub fn list_journals<R: Files<File = File>>(
    rt: &R,
    alloc: Global,
    folder: &str,
) -> Result<BTreeMap<String, usize>, FolderFault>
    ensures { IfErr result IsUnlisted }
{
    let mut journals = BTreeMap::new(alloc);
    let Ok(entries) = fs::read_dir(&(rt, alloc), folder) else {
        return Err(FolderFault::NoFolder);
    };
    for entry in entries {
        match entry {
            Ok(entry) => note(alloc, &mut journals, entry.file_name())?,
            Err(_) => return Err(FolderFault::NoFolder),
        }
    }
    Ok(journals)
}
