//! The files that are written.

use crate::answer::Made;
use crate::failure::{Failure, misused, unwritten};
use crate::map::map_text;
use crate::same::{FileIdentity, identity_of, is_same_file};
use std::fs;
use std::rt::Files;
use wesl_command::Request;
use wesl_folders::Sources;

/// Whether the files that a request writes are others than those that it names to be read, and than each other.
pub fn check_outputs<'a, R: Files + AllocGlobal>(
    rt: &R,
    request: &Request<'a>,
) -> Result<(), Failure<'a>> {
    if let (Some(map), Some(output)) = (request.map, request.output) {
        if is_same_file(rt, map, output) {
            return Err(misused(rt.alloc(), map, "it is the file of --output too"));
        }
    }
    let outputs = [request.output, request.map];
    for output in &outputs[..] {
        if let Some(file) = *output {
            check_read(rt, request, file)?;
        }
    }
    Ok(())
}

/// Whether a file that is written is another than those that a request names to be read.
fn check_read<'a, R: Files + AllocGlobal>(
    rt: &R,
    request: &Request<'a>,
    file: &'a str,
) -> Result<(), Failure<'a>> {
    let read = [
        Some(request.file),
        request.bindings,
        request.inputs,
        request.overrides,
    ];
    for other in &read[..] {
        if let Some(other) = *other {
            if is_same_file(rt, file, other) {
                return Err(misused(rt.alloc(), file, "it is read, and would be written over"));
            }
        }
    }
    Ok(())
}

/// Whether a file that is there is one of the modules that were read.
fn is_module<R: Files>(rt: &R, identity: FileIdentity, sources: &Sources) -> bool {
    for module in sources.files.as_slice() {
        if identity_of(rt, module.file.as_str()) == Some(identity) {
            return true;
        }
    }
    false
}

/// Writes a file, unless it is one of the modules that were read.
fn write_file<'a, R: Files + AllocGlobal>(
    rt: &R,
    file: &'a str,
    text: &str,
    sources: &Sources,
) -> Result<(), Failure<'a>> {
    if let Some(identity) = identity_of(rt, file) {
        if is_module(rt, identity, sources) {
            return Err(misused(rt.alloc(), file, "it is read, and would be written over"));
        }
    }
    match fs::write(rt, file, text) {
        Ok(()) => Ok(()),
        Err(_) => Err(unwritten(rt.alloc(), file)),
    }
}

/// Writes the map of a text's names, where one is asked for, and the text, where it goes to a file. Whether it does.
pub fn write_outputs<'a, R: Files + AllocGlobal>(
    rt: &R,
    request: &Request<'a>,
    made: &Made,
    sources: &Sources,
) -> Result<bool, Failure<'a>> {
    if let (Some(file), Some(map)) = (request.map, &made.map) {
        let json = map_text(rt.alloc(), made.text.as_str(), map)?;
        write_file(rt, file, json.as_str(), sources)?;
    }
    match request.output {
        Some(file) => {
            write_file(rt, file, made.text.as_str(), sources)?;
            Ok(true)
        }
        None => Ok(false),
    }
}
