//! Finding a file that is to be read, and claiming one that is to be written, so that its name lasts.
ghost use Rattle.std.specs.Prelude.{◌≡◌};
ghost use Rattle.house_io.specs.Folders.{folder_in};

use crate::real::locks::LockFile;
use std::fs::{File, OpenFile, OpenOptions};
use std::io::{self, ErrorKind};
use std::path::Path;
use std::rt::Files;

/// Opens the file of a name for reading. None where it is absent in a folder that is there.
pub(crate) fn find_file<R: Files>(files: &R, name: &str) -> io::Result<Option<R::File>> {
    match File::open(files, name) {
        Ok(file) => Ok(Some(file)),
        Err(error) if error.kind() == ErrorKind::NotFound => {
            // An absent folder is found no better, and is a fault.
            let _folder = File::open(files, folder_of(name))?;
            Ok(None)
        }
        Err(error) => Err(error),
    }
}

/// Opens the file of a name for writing, which is made where it is absent, and locks it. The file, its folder, and the folder that names
/// this one are synced before the file is handed out, also where it was found: an earlier claim may have made it and failed, or the
/// process may have died, before they were synced, and the folder itself may be new.
pub(crate) fn claim_file<R: Files>(files: &R, name: &str) -> io::Result<R::File>
where
    R::File: LockFile,
{
    let mut how = OpenOptions::new();
    how.read(true).write(true).create(true);
    let file = how.open(files, name)?;
    file.lock_now()?;
    // The file, and then the folder that names it.
    file.sync_all()?;
    let folder = folder_of(name);
    File::open(files, folder)?.sync_all()?;
    if has_parent(folder) {
        File::open(files, folder_of(folder))?.sync_all()?;
    }
    Ok(file)
}

/// Whether a folder is named in another one: neither the working directory nor the root is.
fn has_parent(folder: &str) -> bool {
    folder != "." && folder != "/"
}

/// The folder in which a file of this name stands.
fn folder_of(name: &str) -> &str
    ensures { result.now ≡ folder_in name.now }
{
    let folder = match Path::new(name).parent() {
        Some(folder) => folder.as_str(),
        None => "",
    };
    if folder.is_empty() { "." } else { folder }
}
