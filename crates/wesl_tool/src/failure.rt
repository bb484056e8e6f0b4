//! What is wrong with a command line or its files.

use std::alloc::{AllocError, Global};
use wesl_diagnostics::{BundleError, Key};
use wesl_folders::FileProblem;

/// What is wrong with a command line or its files.
#[derive(Drop)]
pub enum Failure<'a> {
    /// A word or an option is wrong: the file that it names, and what is wrong.
    Usage(Option<&'a str>, String),
    /// A file can't be read or written.
    File(&'a str, String),
    /// What a file or an option says is nothing that this key takes.
    Value(&'a str, Key),
    OutOfMemory,
}

impl<'a> From<AllocError> for Failure<'a> {
    fn from(_: AllocError) -> Failure<'a> {
        Failure::OutOfMemory
    }
}

impl<'a> From<BundleError> for Failure<'a> {
    fn from(error: BundleError) -> Failure<'a> {
        match error {
            BundleError::Value(key) => Failure::Value("the command line", key),
            _ => Failure::OutOfMemory,
        }
    }
}

/// The failure of a file that is read.
pub fn failed<'a>(alloc: Global, file: &'a str, problem: FileProblem) -> Failure<'a> {
    if problem == FileProblem::OutOfMemory {
        return Failure::OutOfMemory;
    }
    match problem.to_string(alloc) {
        Ok(message) => Failure::File(file, message),
        Err(AllocError) => Failure::OutOfMemory,
    }
}

/// The failure of a file that is written.
pub fn unwritten<'a>(alloc: Global, file: &'a str) -> Failure<'a> {
    match String::from_str(alloc, "it can't be written") {
        Ok(message) => Failure::File(file, message),
        Err(AllocError) => Failure::OutOfMemory,
    }
}

/// The failure of a file that the command line should not name so.
pub fn misused<'a>(alloc: Global, file: &'a str, why: &str) -> Failure<'a> {
    match String::from_str(alloc, why) {
        Ok(message) => Failure::Usage(Some(file), message),
        Err(AllocError) => Failure::OutOfMemory,
    }
}
