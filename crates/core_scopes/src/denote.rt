//! What names denote.

ghost use Rattle.std.specs.Prelude.{◌≡◌, Some, string_bytes};
ghost use Rattle.core_syntax.specs.Tree.{UnitTree};
ghost use Rattle.core_syntax.specs.View.{unit_tree};
ghost use Rattle.core_link_spec.specs.Modules as spec;
ghost use Rattle.core_link_spec.specs.Named.{HasImportOf};
ghost use Rattle.core_scopes.specs.Outcomes.{item_at, item_outcome, outcome, outcome_of, home_of, loaded, IsInTable, DenotesInTable, StandsUnder, IsNamedIn};
ghost use Rattle.core_scopes.specs.Tells.{TellsDenoted};

use crate::module::{Module, Modules};
use crate::target::{Meaning, Target};
use core_syntax::GlobalDeclaration;
use wgsl_base::Text;
use wgsl_path::ModulePath;

/// A declaration of a loaded module.
#[derive(Clone, Copy)]
pub struct Symbol<'a> {
    pub module: &'a Module,
    /// The place of the declaration among those of its module.
    pub place: usize,
}

impl<'a> Symbol<'a> {
    ghost use Rattle.std.specs.Prelude.{◌≡◌, slice_get};
    ghost use Rattle.std.specs.Option.{option_map};
    ghost use Rattle.core_syntax.specs.View.{unit_tree, declaration_tree};

    pub fn declaration(&self) -> Option<&'a GlobalDeclaration>
        ensures { option_map (λ d. declaration_tree d.now) result ≡ slice_get (unit_tree self.now.«module».now.unit).declarations self.now.place }
    {
        self.module.declaration(self.place)
    }
}

/// What a name that no parameter hides denotes.
#[derive(Clone, Copy)]
pub enum Denoted<'a> {
    Declared(Symbol<'a>),
    /// An item of a module that is not loaded.
    Unloaded(&'a Target),
    /// Nothing: the module at this path lacks the item of this name.
    Missing(&'a ModulePath, &'a Text),
    /// Nothing: the module at this path only imports the item of this name.
    Private(&'a ModulePath, &'a Text),
    /// A name that the module neither declares nor imports.
    Free,
}

/// What a name of a module denotes: its own declaration, else what its import names.
pub fn denotation<'a>(modules: &'a Modules, module: &'a Module, name: &str) -> Denoted<'a>
    ensures found { outcome_of result ≡ outcome (loaded modules.now) (home_of module.now) name.now }
    ensures means { TellsDenoted modules.now module.now name.now (outcome_of result) }
    ensures in_table { IsInTable modules.now module.now → DenotesInTable modules.now result }
    ensures named { IsNamedIn (unit_tree module.now.unit) result }
{
    looked_up(modules, module, name)
}

fn looked_up<'a>(modules: &'a Modules, module: &'a Module, name: &str) -> Denoted<'a>
    ensures in_table { IsInTable modules.now module.now → DenotesInTable modules.now result }
    ensures found { outcome_of result ≡ outcome (loaded modules.now) (home_of module.now) name.now }
    ensures named { IsNamedIn (unit_tree module.now.unit) result }
{
    match module.meanings.get(name) {
        None => Denoted::Free,
        Some(Meaning::Declared(place)) => Denoted::Declared(Symbol {
            module,
            place: *place,
        }),
        Some(Meaning::Imported(target)) => imported_item(modules, target),
        Some(Meaning::Bare(item)) => Denoted::Missing(&module.path, item),
    }
}

fn imported_item<'a>(modules: &'a Modules, target: &'a Target) -> Denoted<'a>
    ensures in_table { DenotesInTable modules.now result }
    ensures named { (unit : UnitTree) → HasImportOf unit target.now.path → IsNamedIn unit result }
    ensures found { outcome_of result ≡ item_at (record { home = string_bytes target.now.printed_path; name = target.now.item }) (loaded modules.now (string_bytes target.now.printed_path)) }
{
    match item_of(modules, target.printed_path.as_str(), target.item.as_str()) {
        Item::Declared(symbol) => Denoted::Declared(symbol),
        Item::Imported => Denoted::Private(&target.path, &target.item),
        Item::Absent => Denoted::Missing(&target.path, &target.item),
        Item::Unloaded => Denoted::Unloaded(target),
    }
}

/// What a module has under a name.
#[derive(Clone, Copy)]
pub enum Item<'a> {
    Declared(Symbol<'a>),
    Imported,
    Absent,
    /// The module is not loaded.
    Unloaded,
}

/// What the module at a printed path has under a name.
pub fn item_of<'a>(modules: &'a Modules, text: &str, name: &str) -> Item<'a>
    ensures stands { StandsUnder modules.now text.now result }
    ensures found { item_outcome (record { home = text.now; name = name.now }) result ≡ item_at (record { home = text.now; name = name.now }) (loaded modules.now text.now) }
{
    let Some(module) = modules.get(text) else {
        return Item::Unloaded;
    };
    match module.meanings.get(name) {
        None => Item::Absent,
        Some(Meaning::Imported(_) | Meaning::Bare(_)) => Item::Imported,
        Some(Meaning::Declared(place)) => Item::Declared(Symbol {
            module,
            place: *place,
        }),
    }
}
