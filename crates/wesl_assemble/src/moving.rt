//! Declarations and directives are moved from one unit to another. What moves them is generic, so that no drop of a tree is proved again.

ghost use Rattle.std.specs.Prelude.{◌≡◌, []};

use std::alloc::{AllocError, Global};
use std::collections::HashMap;
use std::fmt::Display;
use wgsl_base::Items;
use wgsl_declarations::TranslationUnit;

/// A unit with nothing in it.
pub(crate) fn empty_unit(alloc: Global) -> TranslationUnit
    ensures { result.imports ≡ [] }
{
    TranslationUnit {
        imports: Items::new(alloc),
        global_directives: Items::new(alloc),
        global_declarations: Items::new(alloc),
    }
}

/// Moves all items, the last one first.
pub(crate) fn move_reversed<T: Drop>(
    from: &mut Items<T>,
    to: &mut Items<T>,
) -> Result<(), AllocError> {
    while let Some(item) = from.pop() {
        to.push(item)?;
    }
    Ok(())
}

/// Where items went that were moved, by their texts. Equal items have one text.
#[derive(Drop)]
pub(crate) struct Moved {
    alloc: Global,
    places: HashMap<String, Vec<usize>>,
}

impl Moved {
    /// Nothing was moved.
    pub fn new(alloc: Global) -> Moved {
        Moved {
            alloc,
            places: HashMap::new(alloc),
        }
    }

    /// Whether an item with this text is among others, to which all items went.
    fn is_among<T: PartialEq>(&self, text: &str, item: &T, others: &[T]) -> bool {
        if let Some(places) = self.places.get(text) {
            for place in places {
                if let Some(other) = others.get(*place)
                    && *item == *other
                {
                    return true;
                }
            }
        }
        false
    }

    /// An item with this text goes to a place.
    fn add(&mut self, text: String, place: usize) -> Result<(), AllocError> {
        if let Some(places) = self.places.get_mut(text.as_str()) {
            places.push(place)?;
            return Ok(());
        }
        let mut places = Vec::new(self.alloc);
        places.push(place)?;
        self.places.insert(text, places)?;
        Ok(())
    }
}

/// Moves the last item, where there is one. One that is there already goes to what is left. Whether it was new.
pub(crate) fn move_unless_equal<T: Drop + PartialEq + Display>(
    from: &mut Items<T>,
    to: &mut Items<T>,
    left: &mut Items<T>,
    moved: &mut Moved,
) -> Result<bool, AllocError> {
    match from.pop() {
        None => Ok(false),
        Some(item) => {
            let text = item.to_string(moved.alloc)?;
            if moved.is_among(text.as_str(), &item, to.as_slice()) {
                left.push(item)?;
                Ok(false)
            } else {
                moved.add(text, to.len())?;
                to.push(item)?;
                Ok(true)
            }
        }
    }
}
