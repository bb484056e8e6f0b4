//! Names of the linked unit that are read otherwise than meant.

ghost use Rattle.std.specs.Prelude.{◌≡◌, [], Some, None, IfOk, OnOk, if◌then◌else◌, ◌++◌, string_bytes};
ghost use Rattle.std.specs.BTreeMap.{IsOrdered};
ghost use Rattle.std.specs.String.{string_cmp};
ghost use Rattle.core_syntax.specs.View.{declaration_tree};
ghost use Rattle.core_link_spec.specs.Occurrences.{locals, names_before, names_behind, names_in_body};
ghost use Rattle.core_link.specs.Clashing as spec;
ghost use Rattle.core_link.specs.Clashing.{sharing_at, sharing_in};
ghost use Rattle.core_reach.specs.Closing.{held_at};
ghost use Rattle.core_scopes.specs.Outcomes.{loaded, home_of};
ghost use Rattle.core_link.specs.ResolutionClauses.{FindsClash, FindsFirstClash, printed_names, clash_beside, clash_of_symbol};
ghost use Rattle.core_rename.specs.Scopes.{texts};

use crate::rounds::Resolutions;
use core_names::{held_name, printed};
use core_rename::{Scope, names_before, names_behind, names_in_body};
use core_scopes::{Module, Symbol};
use core_syntax::GlobalDeclaration;
use std::alloc::{AllocError, Global};
use std::collections::HashMap;
use wgsl_base::Text;

/// How many held symbols have a name in the linked unit: each name that one has, and whether more have it.
type Sharing<'a> = HashMap<&'a str, bool>;

impl Resolutions {
    /// The first name of the linked unit, in its order, that two symbols share or that plain scoping reads otherwise than
    /// meant.
    pub fn names_clash(&self, alloc: Global) -> Result<Option<Text>, AllocError>
        ensures whole { IfOk result (λ clash. clash ≡ spec.unit_clash self.now.modules self.now.held (string_bytes self.now.root)) }
        ensures free { IfOk result (FindsClash self.now) }
        ensures first { IfOk result (FindsFirstClash self.now) }
    {
        let clash = self.unit_clash(alloc)?;
        Ok(clash)
    }

    fn unit_clash(&self, alloc: Global) -> Result<Option<Text>, AllocError>
        ensures whole { IfOk result (λ clash. clash ≡ spec.unit_clash self.now.modules self.now.held (string_bytes self.now.root)) }
        ensures ordered { IfOk result (λ clash. IsOrdered string_cmp self.now.modules) }
    {
        let names = self.held_names(alloc)?;
        let sharing = sharing_of(alloc, names.as_slice())?;
        let clash = self.clash_in_root(alloc, &sharing)?;
        if clash.is_some() {
            return Ok(clash);
        }
        self.clash_in_others(alloc, &sharing)
    }

    /// The names in the linked unit of all held symbols.
    fn held_names<'a>(&'a self, alloc: Global) -> Result<Vec<&'a str>, AllocError>
        ensures names { IfOk result (λ found. texts found.items ≡ spec.held_names self.now.held self.now.modules.entries) }
        ensures ordered { IfOk result (λ found. IsOrdered string_cmp self.now.modules) }
    {
        let mut found = Vec::new(alloc);
        for (_, module) in &self.modules {
            self.add_names(module, &mut found)?;
        }
        Ok(found)
    }

    fn add_names<'a>(
        &'a self,
        module: &'a Module,
        found: &mut Vec<&'a str>,
    ) -> Result<(), AllocError>
        ensures { OnOk result (texts found.new.items ≡ texts found.old.items ++ spec.names_in (held_at self.now.held) (home_of «module».now)) }
    {
        for (place, _) in module
            .unit
            .global_declarations
            .as_slice()
            .iter()
            .enumerate()
        {
            if let Some(name) = held_name(&self.held, Symbol { module, place }) {
                found.push(name)?;
            }
        }
        Ok(())
    }

    fn clash_in_root(
        &self,
        alloc: Global,
        sharing: &Sharing<'_>,
    ) -> Result<Option<Text>, AllocError>
        ensures { IfOk result (λ clash. clash ≡ spec.clash_at (sharing_at sharing.now) (loaded self.now.modules) (held_at self.now.held) (loaded self.now.modules (string_bytes self.now.root))) }
    {
        match self.modules.get(self.root.as_str()) {
            None => Ok(None),
            Some(root) => self.clash_in(alloc, sharing, root),
        }
    }

    fn clash_in_others(
        &self,
        alloc: Global,
        sharing: &Sharing<'_>,
    ) -> Result<Option<Text>, AllocError>
        ensures { IfOk result (λ clash. clash ≡ spec.others_clash (sharing_at sharing.now) self.now.modules self.now.held (string_bytes self.now.root) self.now.modules.entries) }
    {
        for (text, module) in &self.modules {
            let clash = self.clash_in_other(alloc, sharing, text.as_str(), module)?;
            if clash.is_some() {
                return Ok(clash);
            }
        }
        Ok(None)
    }

    fn clash_in_other(
        &self,
        alloc: Global,
        sharing: &Sharing<'_>,
        text: &str,
        module: &Module,
    ) -> Result<Option<Text>, AllocError>
        ensures { IfOk result (λ clash. clash ≡ clash_beside (sharing_at sharing.now) self.now text.now «module».now) }
    {
        if text == self.root.as_str() {
            return Ok(None);
        }
        self.clash_in(alloc, sharing, module)
    }

    fn clash_in(
        &self,
        alloc: Global,
        sharing: &Sharing<'_>,
        module: &Module,
    ) -> Result<Option<Text>, AllocError>
        ensures { IfOk result (λ clash. clash ≡ spec.module_clash (sharing_at sharing.now) (loaded self.now.modules) (held_at self.now.held) (home_of «module».now)) }
    {
        for (place, node) in module
            .unit
            .global_declarations
            .as_slice()
            .iter()
            .enumerate()
        {
            let symbol = Symbol { module, place };
            let clash = self.clash_of_held(alloc, sharing, symbol, node.node())?;
            if clash.is_some() {
                return Ok(clash);
            }
        }
        Ok(None)
    }

    /// The first name that clashes in a declaration, if it is held.
    fn clash_of_held(
        &self,
        alloc: Global,
        sharing: &Sharing<'_>,
        symbol: Symbol<'_>,
        declaration: &GlobalDeclaration,
    ) -> Result<Option<Text>, AllocError>
        ensures { IfOk result (λ clash. clash ≡ clash_of_symbol (sharing_at sharing.now) self.now symbol.entry declaration.now) }
    {
        match held_name(&self.held, symbol) {
            None => Ok(None),
            Some(name) => self.clash_of(alloc, sharing, symbol.module, declaration, name),
        }
    }

    /// The first name that clashes in a declaration: in its attributes, its own, then the others.
    fn clash_of(
        &self,
        alloc: Global,
        sharing: &Sharing<'_>,
        module: &Module,
        declaration: &GlobalDeclaration,
        name: &str,
    ) -> Result<Option<Text>, AllocError>
        ensures { IfOk result (λ clash. clash ≡ spec.declaration_clash (sharing_at sharing.now) (printed_names self.now «module».now) name.now (declaration_tree declaration.now)) }
    {
        let before = names_before(alloc, declaration)?;
        match self.clash_within(alloc, sharing, module, Scope::module(alloc), before)? {
            Some(clash) => Ok(Some(clash)),
            None if is_shared(sharing, name) => Ok(Some(Text::from_str(alloc, name)?)),
            None => self.clash_behind(alloc, sharing, module, declaration),
        }
    }

    /// The first name that clashes behind a declaration's own name: in the scope of the module, then in the body.
    fn clash_behind(
        &self,
        alloc: Global,
        sharing: &Sharing<'_>,
        module: &Module,
        declaration: &GlobalDeclaration,
    ) -> Result<Option<Text>, AllocError>
        ensures { IfOk result (λ clash. clash ≡ spec.or_else (spec.names_clash (sharing_at sharing.now) (printed_names self.now «module».now) [] (names_behind (declaration_tree declaration.now)))
            (spec.names_clash (sharing_at sharing.now) (printed_names self.now «module».now) (locals (declaration_tree declaration.now)) (names_in_body (declaration_tree declaration.now)))) }
    {
        let behind = names_behind(alloc, declaration)?;
        match self.clash_within(alloc, sharing, module, Scope::module(alloc), behind)? {
            Some(clash) => Ok(Some(clash)),
            None => self.clash_in_body(alloc, sharing, module, declaration),
        }
    }

    fn clash_in_body(
        &self,
        alloc: Global,
        sharing: &Sharing<'_>,
        module: &Module,
        declaration: &GlobalDeclaration,
    ) -> Result<Option<Text>, AllocError>
        ensures { IfOk result (λ clash. clash ≡ spec.names_clash (sharing_at sharing.now) (printed_names self.now «module».now) (locals (declaration_tree declaration.now)) (names_in_body (declaration_tree declaration.now))) }
    {
        let inside = names_in_body(alloc, declaration)?;
        let body = scope_of(alloc, declaration)?;
        self.clash_within(alloc, sharing, module, body, inside)
    }

    /// The first of the names of a scope that clashes there.
    fn clash_within(
        &self,
        alloc: Global,
        sharing: &Sharing<'_>,
        module: &Module,
        scope: Scope<'_>,
        names: Vec<&str>,
    ) -> Result<Option<Text>, AllocError>
        ensures { IfOk result (λ clash. clash ≡ spec.names_clash (sharing_at sharing.now) (printed_names self.now «module».now) scope.entry (texts names.entry.items)) }
    {
        self.first_clash(alloc, sharing, module, &scope, names.as_slice())
    }

    fn first_clash(
        &self,
        alloc: Global,
        sharing: &Sharing<'_>,
        module: &Module,
        scope: &Scope<'_>,
        names: &[&str],
    ) -> Result<Option<Text>, AllocError>
        ensures { IfOk result (λ clash. clash ≡ spec.names_clash (sharing_at sharing.now) (printed_names self.now «module».now) scope.now (texts names.now)) }
    {
        for name in names {
            let clash = self.clash_of_name(alloc, sharing, module, scope, name)?;
            if clash.is_some() {
                return Ok(clash);
            }
        }
        Ok(None)
    }

    /// The name as which an occurrence clashes: the printed name of what it denotes, or its own where it is free.
    fn clash_of_name(
        &self,
        alloc: Global,
        sharing: &Sharing<'_>,
        module: &Module,
        scope: &Scope<'_>,
        occurring: &str,
    ) -> Result<Option<Text>, AllocError>
        ensures { IfOk result (λ clash. clash ≡ spec.name_clash (sharing_at sharing.now) scope.now (printed_names self.now «module».now occurring.now) occurring.now) }
    {
        match printed(&self.modules, &self.held, module, occurring) {
            Some(name) => {
                if is_shared(sharing, name) || scope.hides(name) {
                    return Ok(Some(Text::from_str(alloc, name)?));
                }
            }
            None => {
                if sharing.contains_key(occurring) {
                    return Ok(Some(Text::from_str(alloc, occurring)?));
                }
            }
        }
        Ok(None)
    }
}

fn is_shared(sharing: &Sharing<'_>, name: &str) -> bool
    ensures { result ≡ spec.is_shared (sharing_at sharing.now) name.now }
{
    sharing.get(name).copied().unwrap_or(false)
}

fn sharing_of<'a>(alloc: Global, names: &[&'a str]) -> Result<Sharing<'a>, AllocError>
    ensures { IfOk result (λ sharing. sharing_at sharing ≡ sharing_in (texts names.now)) }
{
    let mut sharing = Sharing::new(alloc);
    for name in names {
        let is_there = sharing.contains_key(*name);
        sharing.insert(*name, is_there)?;
    }
    Ok(sharing)
}

/// The scope of a declaration's body.
fn scope_of<'a>(alloc: Global, declaration: &'a GlobalDeclaration) -> Result<Scope<'a>, AllocError>
    ensures { IfOk result (λ scope. scope ≡ locals (declaration_tree declaration.now)) }
{
    match declaration {
        GlobalDeclaration::Declaration(_) => Ok(Scope::module(alloc)),
        GlobalDeclaration::Function(function) => Scope::body(alloc, function.parameters.as_slice()),
    }
}
