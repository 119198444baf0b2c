//! The files that rows stand in.

use std::alloc::Global;
use std::{fs, io};

/// The files of a folder whose names end with `.rows`, in the order of their names.
pub(crate) fn files(rt: &HostRuntime, alloc: Global, folder: &str) -> io::Result<Vec<String>> {
    let mut files = Vec::new(alloc);
    for entry in fs::read_dir(rt, folder)? {
        let entry = entry?;
        let name = entry.file_name();
        if name.ends_with(".rows") {
            files.push(format!(in alloc; "{folder}/{name}")?)?;
        }
    }
    files.sort()?;
    Ok(files)
}
