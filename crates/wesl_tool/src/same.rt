//! Whether two names are names of one file.

use std::fs;
use std::os::unix::fs::MetadataExt;
use std::rt::Files;

/// Which file a name leads to.
#[derive(Clone, Copy, PartialEq, Eq)]
pub struct FileIdentity {
    device: u64,
    number: u64,
}

/// The file that a name leads to, if there is one.
pub fn identity_of<R: Files>(rt: &R, file: &str) -> Option<FileIdentity> {
    match fs::metadata(rt, file) {
        Ok(metadata) => Some(FileIdentity {
            device: metadata.dev(),
            number: metadata.ino(),
        }),
        Err(_) => None,
    }
}

/// A name's folder, and the last part of it.
fn split(file: &str) -> (&str, &str) {
    match file.rsplit_once('/') {
        Some(("", name)) => ("/", name),
        Some((folder, name)) => (folder, name),
        None => (".", file),
    }
}

/// Whether two names are names of one file, which may have to be made yet.
pub fn is_same_file<R: Files>(rt: &R, first: &str, second: &str) -> bool {
    match (identity_of(rt, first), identity_of(rt, second)) {
        (Some(first), Some(second)) => first == second,
        (None, None) => {
            let (first, second) = (split(first), split(second));
            first.1 == second.1 && identity_of(rt, first.0) == identity_of(rt, second.0)
        }
        _ => false,
    }
}
