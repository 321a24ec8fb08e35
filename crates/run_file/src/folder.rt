//! Where the folders of a day's logs and of its journals are.

ghost use Rattle.std.specs.Prelude.{◌≡◌, IfOk, string_bytes};
ghost use Rattle.run_file.specs.Folder.{folder_of};

use std::alloc::{AllocError, Global};
use std::path::Path;

/// The path of a folder that a file names: from the file's own folder on.
pub fn folder_of(alloc: Global, file: &str, folder: &str) -> Result<String, AllocError>
    ensures { IfOk result (λ path. string_bytes path ≡ folder_of file.now folder.now) }
{
    match Path::new(file).parent() {
        Some(place) => Ok(place.join(alloc, folder)?.into_string()),
        None => String::from_str(alloc, folder),
    }
}
