//! The modules that linking loaded, and what is held of them.

use crate::held_unit::HeldUnit;
use std::alloc::{AllocError, Global};
use wesl_reachability::{
    Closing, DeclarationId, Denoted, Ends, Modules, Reached, all_places, denotation, kept_places,
};
use wgsl_base::Text;

/// The modules that linking loaded, and what is held of them. The root has number 0. `units` has the trees by the modules' numbers, and
/// `held` says of each module, by number, which of its places (directives, then declarations, `;` counted) are held.
#[derive(Drop)]
pub struct Resolutions {
    pub modules: Modules,
    pub units: Vec<HeldUnit>,
    pub held: Reached,
    /// What chains of published imports end at.
    pub ends: Ends,
}

impl Resolutions {
    /// Drops from what is held all declarations but those that these names of the root lead to; the root's entry points, where no name is
    /// given. Directives and the assertions that are led to stay.
    pub fn strip_except(&mut self, alloc: Global, keep: &[Text]) -> Result<(), AllocError> {
        let mut closing = Closing::new(alloc);
        closing.take_in(&self.modules)?;
        closing.pass(&self.modules, 0)?;
        let kept = kept_places(alloc, &self.modules, keep)?;
        closing.reach_all(kept.as_slice())?;
        closing.follow_all(&self.modules)?;
        self.held = closing.into_reached();
        Ok(())
    }

    /// Holds all places.
    pub fn hold_all(&mut self, alloc: Global) -> Result<(), AllocError> {
        let mut closing = Closing::new(alloc);
        closing.take_in(&self.modules)?;
        let spots = all_places(alloc, &self.modules, 0)?;
        closing.reach_all(spots.as_slice())?;
        self.held = closing.into_reached();
        Ok(())
    }

    /// Whether a place is held.
    pub fn is_held(&self, spot: DeclarationId) -> bool {
        match self.held.get(spot.module) {
            None => false,
            Some(places) => matches!(places.get(spot.place), Some(true)),
        }
    }

    /// The declaration that a reference of the module of this number denotes, if no local declaration hides its first name.
    pub fn denoted(&self, number: usize, reference: u32) -> Option<DeclarationId> {
        match denotation(&self.modules, &self.ends, number, reference) {
            Denoted::Declared(spot) => Some(spot),
            Denoted::Unloaded(_) | Denoted::Missing(..) | Denoted::Private(..) | Denoted::Free => {
                None
            }
        }
    }
}
