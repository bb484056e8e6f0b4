//! Linked modules are dropped by a call of this module, so that whoever holds them need not prove the drop of all that they own again.

ghost use Rattle.std.specs.Prelude.{◌≡◌};
ghost use Rattle.core_resolver.specs.Asked.{StayAsked};

use crate::link::{LinkedModules, link_modules};
use core_resolver::BeyondCore;
use std::alloc::Global;
use wesl_resolvers::Resolver;
use weslc_errors::{CompileError, Options};
use wgsl_path::ModulePath;

/// Linked modules.
pub struct HeldModules {
    linked: LinkedModules,
}

impl HeldModules {
    /// Links modules, of which one that is parsed already may be handed in. The root is not relative.
    pub fn link<R: Resolver>(
        alloc: Global,
        resolver: &mut R,
        beyond: Option<BeyondCore>,
        root: &ModulePath,
        options: &Options,
    ) -> Result<HeldModules, CompileError>
        ensures asked { StayAsked (R.asked resolver.old) (R.asked resolver.new) }
        ensures same_reference { R.holds resolver.new ≡ R.holds resolver.old }
    {
        match link_modules(alloc, resolver, beyond, root, options) {
            Ok(linked) => Ok(HeldModules { linked }),
            Err(error) => Err(error),
        }
    }

    /// What is linked.
    pub fn get(&self) -> &LinkedModules {
        &self.linked
    }

    /// What is linked, to be changed.
    pub fn get_mut(&mut self) -> &mut LinkedModules {
        &mut self.linked
    }
}

impl Drop for HeldModules {
    fn drop(self) {
        let HeldModules { linked } = self;
        drop(linked);
    }
}
