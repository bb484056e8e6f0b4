//! What names denote (WGSL, "Declaration and Scope").

use std::alloc::{AllocError, Global};
use wesl_mark::{Mark, MarkList, Place, Scopes};

/// What a mark denotes.
#[derive(Clone, Copy, PartialEq, Eq)]
pub enum Meaning {
    /// It is no use of a name, or one behind the path of a module.
    Nothing,
    /// The local declaration whose mark has this number.
    Local(usize),
    /// The declaration of the module at this place.
    Global(usize),
    /// A name that the unit does not declare there.
    Free,
}

/// The declarations of a name in a module's scope.
#[derive(Clone, Copy)]
pub(crate) struct Declared {
    /// The place of the first one.
    pub first: Option<usize>,
    /// Whether there are two or more.
    pub is_shared: bool,
}

/// For each name of the list the declarations of it in the module's scope.
pub(crate) fn declared_names(
    alloc: Global,
    list: &MarkList,
    places: &[Place],
) -> Result<Vec<Declared>, AllocError> {
    let none = Declared {
        first: None,
        is_shared: false,
    };
    let mut names = vec![in alloc; none; list.name_count()]?;
    for (at, place) in places.iter().enumerate() {
        if let Some(name) = place.name {
            declare(names.as_mut_slice(), name, at);
        }
    }
    Ok(names)
}

/// Notes that the declaration at a place has a name.
fn declare(names: &mut [Declared], name: u32, place: usize) {
    let at = name as usize;
    if at < names.len() {
        match names[at].first {
            None => names[at].first = Some(place),
            Some(_) => names[at].is_shared = true,
        }
    }
}

/// What each mark denotes.
pub(crate) fn meanings_of(
    alloc: Global,
    list: &MarkList,
    names: &[Declared],
) -> Result<Vec<Meaning>, AllocError> {
    let mut scopes = Scopes::new(alloc);
    let mut meanings = Vec::new(alloc);
    for (at, mark) in list.marks().iter().enumerate() {
        follow(&mut scopes, at, *mark)?;
        meanings.push(meaning_of(list, names, &scopes, *mark))?;
    }
    Ok(meanings)
}

/// Opens and closes scopes, and declares locals by the numbers of their marks. More marks than a `u32` counts are out of memory.
pub(crate) fn follow(scopes: &mut Scopes, at: usize, mark: Mark) -> Result<(), AllocError> {
    match mark {
        Mark::Enter => scopes.enter(),
        Mark::Leave => {
            scopes.leave();
            Ok(())
        }
        Mark::Local { name, symbol: _ } => match u32::try_from(at) {
            Ok(value) => scopes.declare(name, value),
            Err(_) => Err(AllocError),
        },
        _ => Ok(()),
    }
}

fn meaning_of(list: &MarkList, names: &[Declared], scopes: &Scopes, mark: Mark) -> Meaning {
    match mark {
        Mark::Occurs { reference, .. } => match list.reference(reference) {
            Some(reference) if reference.path.is_none() => {
                meaning_of_name(names, scopes, reference.name)
            }
            _ => Meaning::Nothing,
        },
        _ => Meaning::Nothing,
    }
}

fn meaning_of_name(names: &[Declared], scopes: &Scopes, name: u32) -> Meaning {
    if let Some(local) = scopes.find(name) {
        return Meaning::Local(local as usize);
    }
    match names.get(name as usize) {
        Some(
            Declared {
                first: Some(place),
                is_shared: _,
            },
        ) => Meaning::Global(*place),
        _ => Meaning::Free,
    }
}
