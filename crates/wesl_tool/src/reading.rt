//! Reading a module that a call did not find.

use std::alloc::{AllocError, Global};
use std::rt::Files;
use wesl_folders::{FileProblem, Folders, ReadProblem, Sources};
use wgsl_path::ModulePath;

/// What came of reading a module that a call did not find.
#[derive(Drop)]
pub enum Read {
    /// There is none such, or it was read before.
    Nothing,
    Added,
    /// Its file was not read, and why.
    Refused(String),
}

/// Why a module was not read, in words.
fn reason_of(alloc: Global, problem: &ReadProblem) -> Result<String, AllocError> {
    let mut reason = String::new(alloc);
    match &problem.file {
        Some(file) => {
            reason.push_str(file.as_str())?;
            reason.push_str(": ")?;
            let what = problem.problem.to_string(alloc)?;
            reason.push_str(what.as_str())?;
        }
        None => reason.push_str(
            "the path names no file: --package NAME=FOLDER says where a package is",
        )?,
    }
    Ok(reason)
}

/// Reads the module that a call did not find, if there is one such.
pub fn read_missing<R: Files + AllocGlobal>(
    rt: &R,
    folders: &Folders,
    sources: &mut Sources,
    path: Option<&ModulePath>,
) -> Result<Read, AllocError> {
    let Some(path) = path else {
        return Ok(Read::Nothing);
    };
    if sources.resolver.contains(path)? {
        return Ok(Read::Nothing);
    }
    match sources.read(rt, folders, path) {
        Ok(()) => Ok(Read::Added),
        Err(problem) => {
            if problem.problem == FileProblem::OutOfMemory {
                return Err(AllocError);
            }
            Ok(Read::Refused(reason_of(rt.alloc(), &problem)?))
        }
    }
}
