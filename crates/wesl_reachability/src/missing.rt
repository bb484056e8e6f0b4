//! The first reached reference that denotes nothing.

use crate::holding::Reached;
use std::alloc::{AllocError, Global};
use wesl_name_resolution::{Denoted, Ends, ImportError, Module, Modules, denotation};
use wgsl_base::{CloneIn, Text};
use wgsl_path::ModulePath;

/// The first reached reference that denotes nothing: by printed path of the module, then place, then the order of the text.
pub fn first_missing(
    alloc: Global,
    modules: &Modules,
    reached: &Reached,
) -> Result<Option<ImportError>, AllocError> {
    let ends = Ends::new(alloc, modules)?;
    let numbers = modules.in_path_order(alloc)?;
    for number in &numbers {
        let found = match reached.get(*number) {
            None => None,
            Some(places) => missing_among(modules, &ends, *number, places.as_slice()),
        };
        if let Some(denoted) = found {
            return told(alloc, denoted);
        }
    }
    Ok(None)
}

/// The first reference at these places of a module that denotes nothing.
fn missing_among<'a>(
    modules: &'a Modules,
    ends: &Ends,
    number: usize,
    places: &[bool],
) -> Option<Denoted<'a>> {
    let module = modules.get(number)?;
    for (place, is_reached) in places.iter().enumerate() {
        if *is_reached && let Some(found) = missing_at(modules, ends, module, number, place) {
            return Some(found);
        }
    }
    None
}

fn missing_at<'a>(
    modules: &'a Modules,
    ends: &Ends,
    module: &Module,
    number: usize,
    place: usize,
) -> Option<Denoted<'a>> {
    for reference in module.uses.get(place)? {
        let found = denotation(modules, ends, number, *reference);
        if matches!(found, Denoted::Missing(..) | Denoted::Private(..)) {
            return Some(found);
        }
    }
    None
}

fn told(alloc: Global, found: Denoted<'_>) -> Result<Option<ImportError>, AllocError> {
    match found {
        Denoted::Missing(path, name) => {
            let (path, name) = copied(alloc, path, name)?;
            Ok(Some(ImportError::MissingDecl(path, name)))
        }
        Denoted::Private(path, name) => {
            let (path, name) = copied(alloc, path, name)?;
            Ok(Some(ImportError::Private(path, name)))
        }
        Denoted::Declared(_) | Denoted::Unloaded(_) | Denoted::Free => Ok(None),
    }
}

fn copied(alloc: Global, path: &ModulePath, name: &str) -> Result<(ModulePath, Text), AllocError> {
    let name = Text::from_str(alloc, name)?;
    Ok((path.clone_in(alloc)?, name))
}
