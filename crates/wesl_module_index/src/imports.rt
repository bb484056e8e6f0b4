//! The items of a module's imports.

ghost use Rattle.std.specs.Prelude.{◌≡◌, ◌∷◌, [], Some, map, option_map, if◌then◌else◌, IfOk, OnOk};
ghost use Rattle.std.specs.Str.{bytes_eq};
ghost use Rattle.std.specs.HashMap.{get_by_text};
ghost use Rattle.std.specs.Option.{option_copied};
ghost use Rattle.std.specs.List.{list_any};
ghost use Rattle.wgsl_expressions.specs.AttributesView.{attribute_tree, attributes_tree};
ghost use Rattle.wgsl_declarations.specs.ImportsView.{item_tree, content_tree, importing_tree};
ghost use Rattle.wesl_chains.specs.Outlines.{Name};
ghost use Rattle.wesl_chains.specs.Senses.{meant_by};
ghost use Rattle.wesl_linking_spec.specs.Outlining as spec;
ghost use Rattle.wesl_linking_spec.specs.Outlining.{items_in, items_of};
ghost use Rattle.wesl_module_index.specs.Tables.{target_at};
ghost use Rattle.wesl_module_index.specs.Naming.{HasTarget, IsTarget, OnlyMore, Adds, AddsEach, Gathers, declared_by, local_of};

use crate::error::ImportError;
use crate::module::Meaning;
use crate::target::{ImportItem, Target, meant, package};
use std::alloc::{AllocError, Global};
use std::collections::HashMap;
use wesl_mark::MarkList;
use wgsl_base::{Boxed, CloneIn, Items, Text};
use wgsl_declarations::{Import, ImportContent, ImportItem as ItemTree, ImportStatement};
use wgsl_expressions::{Attribute, AttributeNode};
use wgsl_path::ModulePath;

/// The names of a module while they are gathered.
#[derive(Drop)]
pub(crate) struct Names {
    pub alloc: Global,
    /// The module's own path.
    pub path: ModulePath,
    /// The modules that imports name.
    pub targets: Vec<Target>,
    pub items: Vec<ImportItem>,
    pub scope: HashMap<String, Meaning>,
}

impl Names {
    /// Adds the items of an import.
    pub fn add_import(&mut self, statement: &ImportStatement) -> Result<(), ImportError>
        ensures { Gathers self.old (items_of self.old.path (importing_tree statement.now)) result self.new }
    {
        let module = self.first_module(&statement.path)?;
        let is_published = is_published(statement.attributes.as_slice());
        let mut target = None;
        add_content(self, &module, &mut target, &statement.content, is_published)
    }

    fn first_module(
        &self,
        written: &Option<Boxed<ModulePath>>,
    ) -> Result<Option<ModulePath>, AllocError>
        ensures { IfOk result (λ path. path ≡ option_map (λ p. meant_by self.now.path p p.origin) written.now) }
    {
        match written {
            None => Ok(None),
            Some(written) => Ok(Some(meant(self.alloc, &self.path, written.get())?)),
        }
    }

    fn add_item(
        &mut self,
        module: &Option<ModulePath>,
        target: &mut Option<usize>,
        item: &ItemTree,
        is_published: bool,
    ) -> Result<(), ImportError>
        requires { HasTarget self.old.targets.items target.old module.now }
        ensures target { OnOk result (HasTarget self.new.targets.items target.new module.now) }
        ensures gathers { Gathers self.old (items_in is_published module.now (item_tree item.now)) result self.new }
    {
        let number = self.items.len();
        self.add(local_name(item), Meaning::Imported(number))?;
        let module = self.target(module, target)?;
        let name = Text::from_str(self.alloc, item.ident.as_str())?;
        self.items.push(ImportItem {
            module,
            name,
            is_published,
        })?;
        Ok(())
    }

    /// The number of a module that is named. It gets one the first time.
    fn target(
        &mut self,
        module: &Option<ModulePath>,
        target: &mut Option<usize>,
    ) -> Result<Option<usize>, AllocError>
        requires { HasTarget self.old.targets.items target.old module.now }
        ensures target { OnOk result (HasTarget self.new.targets.items target.new module.now) }
        ensures number { IfOk result (λ number. IsTarget self.new.targets.items module.now number) }
        ensures more { OnOk result (OnlyMore self.old.targets.items self.new.targets.items) }
        ensures path { self.new.path ≡ self.old.path }
        ensures items { self.new.items.items ≡ self.old.items.items }
        ensures scope { self.new.scope ≡ self.old.scope }
    {
        if target.is_some() {
            return Ok(*target);
        }
        let Some(path) = module else {
            return Ok(None);
        };
        let number = self.targets.len();
        self.targets.push(Target::new(self.alloc, path)?)?;
        *target = Some(number);
        Ok(*target)
    }

    /// The module that an import item names its last name in; none where it is one bare name.
    pub fn target_of(&self, item: &ImportItem) -> Option<&Target>
        ensures { option_copied result ≡ target_at self.now.targets.items item.now.«module» }
    {
        self.targets.get(item.module?)
    }

    /// Adds a name. It is refused where the name is there.
    pub fn add(&mut self, name: &str, meaning: Meaning) -> Result<(), ImportError>
        ensures { Adds self.old name.now meaning result self.new }
    {
        if self.scope.contains_key(name) {
            let name = Text::from_str(self.alloc, name)?;
            let path = self.path.clone_in(self.alloc)?;
            return Err(ImportError::DuplicateSymbol(path, name));
        }
        put(self.alloc, &mut self.scope, name, meaning)?;
        Ok(())
    }
}

/// Adds the name that a place declares, if it has one.
pub(crate) fn add_declared(
    names: &mut Names,
    list: &MarkList,
    at: usize,
    name: Option<u32>,
) -> Result<(), ImportError>
    ensures { AddsEach names.old (declared_by list.now.names.keys at name) result names.new }
{
    match name {
        None => Ok(()),
        Some(name) => names.add(list.name(name), Meaning::Declared(at)),
    }
}

/// Puts a meaning under a name.
fn put(
    alloc: Global,
    scope: &mut HashMap<String, Meaning>,
    name: &str,
    meaning: Meaning,
) -> Result<(), AllocError>
    ensures { OnOk result ((x : Name) → get_by_text scope.new x ≡ (if bytes_eq name.now x then Some meaning else get_by_text scope.old x)) }
{
    scope.insert(String::from_str(alloc, name)?, meaning)?;
    Ok(())
}

/// The name that an item brings into scope.
fn local_name(item: &ItemTree) -> &str
    ensures { result.now ≡ local_of item.now }
{
    match &item.rename {
        Some(name) => name.as_str(),
        None => item.ident.as_str(),
    }
}

/// Adds the items behind a module. Its target's number is that of the first of these items, once it is there.
#[cycle(import)]
fn add_content(
    names: &mut Names,
    module: &Option<ModulePath>,
    target: &mut Option<usize>,
    content: &ImportContent,
    is_published: bool,
) -> Result<(), ImportError>
    requires { HasTarget names.old.targets.items target.old module.now }
    ensures target { OnOk result (HasTarget names.new.targets.items target.new module.now) }
    ensures gathers { Gathers names.old (items_in is_published module.now (content_tree content.now)) result names.new }
{
    match content {
        ImportContent::Item(item) => names.add_item(module, target, item, is_published),
        ImportContent::Collection(imports) => {
            for import in imports.as_slice() {
                add_nested(names, module, target, import, is_published)?;
            }
            Ok(())
        }
    }
}

#[cycle(import)]
fn add_nested(
    names: &mut Names,
    module: &Option<ModulePath>,
    target: &mut Option<usize>,
    import: &Import,
    is_published: bool,
) -> Result<(), ImportError>
    requires { HasTarget names.old.targets.items target.old module.now }
    ensures target { OnOk result (HasTarget names.new.targets.items target.new module.now) }
    ensures gathers { Gathers names.old (items_in is_published (spec.longer module.now import.now.path) (content_tree import.now.content)) result names.new }
{
    if import.path.is_empty() {
        return add_content(names, module, target, &import.content, is_published);
    }
    let module = longer(names.alloc, module, import.path.as_slice())?;
    let mut target = None;
    add_content(names, &module, &mut target, &import.content, is_published)
}

/// A path, and names behind it. The first name of all is a package's.
fn longer(
    alloc: Global,
    module: &Option<ModulePath>,
    names: &[Text],
) -> Result<Option<ModulePath>, AllocError>
    ensures { IfOk result (λ path. path ≡ spec.longer module.now names.now) }
{
    let mut module = module.clone_in(alloc)?;
    for name in names {
        module = Some(step(alloc, module, name)?);
    }
    Ok(module)
}

fn step(alloc: Global, module: Option<ModulePath>, name: &Text) -> Result<ModulePath, AllocError>
    ensures { IfOk result (λ path. Some path ≡ spec.longer «module» (name.now ∷ [])) }
{
    match module {
        None => package(alloc, name.as_str()),
        Some(path) => path.with_name(name.clone_in(alloc)?),
    }
}

fn is_published(attributes: &[AttributeNode]) -> bool
    ensures { result ≡ list_any spec.is_publish (attributes_tree attributes.now) }
{
    for attribute in attributes {
        if is_publish(attribute.node()) {
            return true;
        }
    }
    false
}

fn is_publish(attribute: &Attribute) -> bool
    ensures { result ≡ spec.is_publish (attribute_tree attribute.now) }
{
    matches!(attribute, Attribute::Publish)
}
