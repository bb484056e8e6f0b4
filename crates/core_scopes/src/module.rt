//! A module that is loaded.

ghost use Rattle.std.specs.Prelude.{◌≡◌, ◌++◌, [], None, IfOk, OnOk, string_bytes};
ghost use Rattle.std.specs.List.{list_any};
ghost use Rattle.wgsl_path.specs.Paths.{path_text};
ghost use Rattle.core_syntax.specs.View.{unit_tree, declaration_tree, attributes_tree, attribute_tree};
ghost use Rattle.core_link_spec.specs.Kept as spec;
ghost use Rattle.core_scopes.specs.Meanings.{IsTableOf, entries, names, first_again};

use crate::error::ImportError;
use crate::table::meanings_of;
use crate::target::Meaning;
use core_syntax::{Attribute, AttributeNode, GlobalDeclaration, TranslationUnit};
use std::alloc::{AllocError, Global};
use std::collections::{BTreeMap, HashMap};
use wgsl_base::{CloneIn, Text};
use wgsl_path::ModulePath;

/// A module that is loaded.
#[derive(Drop)]
pub struct Module {
    pub path: ModulePath,
    /// The path as it is printed.
    pub printed_path: String,
    pub unit: TranslationUnit,
    pub meanings: HashMap<String, Meaning>,
    ghost printed: { string_bytes printed_path ≡ path_text path },
    ghost tabulated: { IsTableOf meanings (entries (unit_tree unit)) },
    ghost fresh: { first_again [] (names (entries (unit_tree unit))) ≡ None },
}

/// The loaded modules, by their printed paths.
pub type Modules = BTreeMap<String, Module>;

impl Module {
    ghost use Rattle.std.specs.Prelude.{◌≡◌, slice_get};
    ghost use Rattle.std.specs.Option.{option_map};
    ghost use Rattle.core_syntax.specs.View.{unit_tree, declaration_tree};
    ghost use Rattle.core_scopes.specs.Tells.{Opens};

    /// A module with the table of its names. It is refused where a name is declared or imported twice.
    pub fn new(
        alloc: Global,
        path: &ModulePath,
        unit: TranslationUnit,
    ) -> Result<Module, ImportError>
        ensures { Opens path.now unit result }
    {
        let meanings = meanings_of(alloc, path, &unit)?;
        Ok(Module {
            path: path.clone_in(alloc)?,
            printed_path: path.to_string(alloc)?,
            unit,
            meanings,
        })
    }

    /// The declaration at a place.
    #[tactic(auto, using(crate::proofs::ScopeLemmas::declaration_place))]
    pub fn declaration(&self, place: usize) -> Option<&GlobalDeclaration>
        ensures { option_map (λ d. declaration_tree d.now) result ≡ slice_get (unit_tree self.now.unit).declarations place }
    {
        match self.unit.global_declarations.get(place) {
            None => None,
            Some(declaration) => Some(declaration.node()),
        }
    }
}

/// The names of a module's entry points: its functions with a stage attribute.
pub fn entry_points(alloc: Global, unit: &TranslationUnit) -> Result<Vec<Text>, AllocError>
    ensures { IfOk result (λ names. names.items ≡ spec.entry_points (unit_tree unit.now).declarations) }
{
    let mut names = Vec::new(alloc);
    for declaration in unit.global_declarations.as_slice() {
        add_entry_point(alloc, declaration.node(), &mut names)?;
    }
    Ok(names)
}

fn add_entry_point(
    alloc: Global,
    declaration: &GlobalDeclaration,
    names: &mut Vec<Text>,
) -> Result<(), AllocError>
    ensures { OnOk result (names.new.items ≡ names.old.items ++ spec.entry_name (declaration_tree declaration.now)) }
{
    if let GlobalDeclaration::Function(function) = declaration
        && has_stage(function.attributes.as_slice())
    {
        names.push(function.ident.name.clone_in(alloc)?)?;
    }
    Ok(())
}

fn has_stage(attributes: &[AttributeNode]) -> bool
    ensures { result ≡ list_any spec.is_stage (attributes_tree attributes.now) }
{
    for attribute in attributes {
        if is_stage(attribute.node()) {
            return true;
        }
    }
    false
}

fn is_stage(attribute: &Attribute) -> bool
    ensures { result ≡ spec.is_stage (attribute_tree attribute.now) }
{
    matches!(attribute, Attribute::Fragment)
}
