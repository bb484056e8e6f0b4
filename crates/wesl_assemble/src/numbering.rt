//! The symbols of the linked unit: one for each held declaration that has a name.

use std::alloc::{AllocError, Global};
use wesl_load::Resolutions;
use wesl_mark::Place;
use wesl_module_index::DeclarationId;
use wgsl_path::ModulePath;

/// The symbols of the linked unit, numbered in its order: the root's held declarations, then those of the other modules in byte order of
/// their printed paths, each in the order of its text.
#[derive(Drop)]
pub struct Numbering {
    /// For each module and each place the number of its symbol, where it has one.
    numbers: Vec<Vec<Option<u32>>>,
    /// Where the symbol of each number is declared.
    spots: Vec<DeclarationId>,
}

impl Numbering {
    /// Where each symbol is declared, by number.
    pub fn spots(&self) -> &[DeclarationId] {
        self.spots.as_slice()
    }

    /// The number of the symbol that is declared at a spot, if that is held and has a name.
    pub fn number(&self, spot: DeclarationId) -> Option<u32> {
        match self.numbers.get(spot.module) {
            None => None,
            Some(numbers) => match numbers.get(spot.place) {
                None => None,
                Some(number) => *number,
            },
        }
    }
}

/// Numbers the symbols of what is held.
pub fn number_held(alloc: Global, resolutions: &Resolutions) -> Result<Numbering, AllocError> {
    let mut numbering = Numbering {
        numbers: Vec::new(alloc),
        spots: Vec::new(alloc),
    };
    for _module in 0..resolutions.modules.len() {
        numbering.numbers.push(Vec::new(alloc))?;
    }
    for module in resolutions.modules.in_linked_order(alloc)?.as_slice() {
        if let Some(tables) = resolutions.modules.get(*module) {
            let places = tables.places.as_slice();
            let numbers = number_places(alloc, resolutions, *module, places, &mut numbering.spots)?;
            if *module < numbering.numbers.len() {
                numbering.numbers[*module] = numbers;
            }
        }
    }
    Ok(numbering)
}

/// Numbers the held places with a name of one module. The number of each is how many stand before it.
fn number_places(
    alloc: Global,
    resolutions: &Resolutions,
    module: usize,
    places: &[Place],
    spots: &mut Vec<DeclarationId>,
) -> Result<Vec<Option<u32>>, AllocError> {
    let mut numbers = Vec::new(alloc);
    for (place, entry) in places.iter().enumerate() {
        let spot = DeclarationId { module, place };
        let number = if entry.name.is_some() && resolutions.is_held(spot) {
            let number = counted(spots.len())?;
            spots.push(spot)?;
            Some(number)
        } else {
            None
        };
        numbers.push(number)?;
    }
    Ok(numbers)
}

/// A count as a symbol number. Past `u32` it is out of memory.
pub(crate) fn counted(count: usize) -> Result<u32, AllocError> {
    match u32::try_from(count) {
        Ok(count) => Ok(count),
        Err(_) => Err(AllocError),
    }
}

/// The module that a spot stands in, and the name that is declared there, if one is.
pub fn origin(
    resolutions: &Resolutions,
    spot: DeclarationId,
) -> Option<(&ModulePath, Option<&str>)> {
    match resolutions.modules.get(spot.module) {
        None => None,
        Some(module) => Some((&module.target.path, module.name_at(spot.place))),
    }
}
