//! Names of the linked unit for the names that occur.

ghost use Rattle.std.specs.Prelude.{◌≡◌, string_bytes};
ghost use Rattle.std.specs.Option.{option_copied};
ghost use Rattle.core_reach.specs.Closing.{held_at};
ghost use Rattle.core_names.specs.Naming.{printed_in};

use core_reach::{HeldNames, Naming};
use core_scopes::{Denoted, Module, Modules, Symbol, denotation};
use std::alloc::{AllocError, Global};
use wgsl_base::Text;

/// A module's scope: a name that denotes a held symbol gets that symbol's printed name, others stay.
#[derive(Clone, Copy)]
pub struct ModuleNaming<'a> {
    pub modules: &'a Modules,
    pub held: &'a HeldNames,
    pub module: &'a Module,
}

impl Naming for ModuleNaming<'_> {
    ghost use Rattle.core_scopes.specs.Outcomes.{home_of, loaded};
    ghost use Rattle.core_reach.specs.Closing.{held_at};
    ghost use Rattle.core_names.specs.Naming.{naming};

    ghost gives = { λ n x. naming (loaded n.modules.now) (held_at n.held.now) (home_of n.«module».now) x };

    fn new_name(&self, alloc: Global, name: &str) -> Result<Text, AllocError> {
        match printed(self.modules, self.held, self.module, name) {
            Some(printed) => Text::from_str(alloc, printed),
            None => Text::from_str(alloc, name),
        }
    }
}

/// The printed name of the held symbol that a name of a module denotes.
pub fn printed<'a>(
    modules: &'a Modules,
    held: &'a HeldNames,
    module: &'a Module,
    name: &str,
) -> Option<&'a str>
    ensures { option_copied result ≡ printed_in held.now modules.now «module».now name.now }
{
    match denotation(modules, module, name) {
        Denoted::Declared(symbol) => held_name(held, symbol),
        Denoted::Unloaded(_) | Denoted::Missing(_, _) | Denoted::Private(_, _) | Denoted::Free =>
            None,
    }
}

/// The printed name of a symbol, where it is held.
pub fn held_name<'a>(held: &'a HeldNames, symbol: Symbol<'_>) -> Option<&'a str>
    ensures { option_copied result ≡ held_at held.now (string_bytes symbol.entry.«module».now.printed_path) symbol.entry.place }
{
    let name = held
        .get(symbol.module.printed_path.as_str())?
        .get(&symbol.place)?;
    Some(name.as_str())
}
