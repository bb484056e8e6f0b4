//! The modules that are asked for.

ghost use Rattle.std.specs.Prelude.{◌≡◌, ◌++◌, ◌∷◌, [], IfOk, OnOk};
ghost use Rattle.wesl_name_resolution.specs.Links.{symbol_of};
ghost use Rattle.wesl_reachability.specs.Asking.{waits_for, waiting};

use std::alloc::{AllocError, Global};
use std::collections::BTreeMap;
use wesl_name_resolution::{Link, Target, Via};
use wgsl_base::Text;

/// An item that is sought in a module that is not loaded, and the published import that names it, at which chains wait, if one does.
#[derive(Drop)]
pub struct Pending {
    pub target: Target,
    pub name: Text,
    pub before: Option<Via>,
}

/// What is asked for in modules that are not loaded.
#[derive(Drop)]
pub struct Asked {
    /// The modules, by their printed paths.
    pub modules: BTreeMap<String, Target>,
    /// What is sought there, in the order in which it was asked for.
    pub pending: Vec<Pending>,
}

impl Asked {
    /// Nothing is asked for.
    pub fn new(alloc: Global) -> Asked
        ensures { waiting result ≡ [] }
    {
        Asked {
            modules: BTreeMap::new(alloc),
            pending: Vec::new(alloc),
        }
    }

    /// Whether no module is asked for.
    pub fn is_empty(&self) -> bool {
        self.modules.is_empty()
    }

    /// Asks for an item, which the published import `before` names.
    pub(crate) fn ask(
        &mut self,
        alloc: Global,
        link: Link<'_>,
        before: Option<Via>,
    ) -> Result<(), AllocError>
        ensures { OnOk result (waiting self.new ≡ waiting self.old ++ (symbol_of link.entry, before) ∷ []) }
    {
        add_module(alloc, &mut self.modules, link.target)?;
        let pending = waiting(alloc, link, before)?;
        self.pending.push(pending)?;
        Ok(())
    }
}

fn waiting(alloc: Global, link: Link<'_>, before: Option<Via>) -> Result<Pending, AllocError>
    ensures { IfOk result (λ p. waits_for p ≡ (symbol_of link.entry, before)) }
{
    let name = Text::from_str(alloc, link.name)?;
    Ok(Pending {
        target: Target::new(alloc, &link.target.path)?,
        name,
        before,
    })
}

fn add_module(
    alloc: Global,
    modules: &mut BTreeMap<String, Target>,
    target: &Target,
) -> Result<(), AllocError> {
    let text = target.printed_path.as_str();
    if !modules.contains_key(text) {
        let key = String::from_str(alloc, text)?;
        modules.insert(key, Target::new(alloc, &target.path)?)?;
    }
    Ok(())
}
