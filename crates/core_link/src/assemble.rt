//! The linked unit.

ghost use Rattle.std.specs.Prelude.{◌≡◌, map, IfOk, OnOk, string_bytes};
ghost use Rattle.std.specs.BTreeMap.{IsOrdered};
ghost use Rattle.std.specs.String.{string_cmp};
ghost use Rattle.core_syntax.specs.View.{unit_tree, declaration_tree};
ghost use Rattle.core_link_spec.specs.Linked.{renamed_declaration, IsLinked};
ghost use Rattle.core_scopes.specs.Outcomes.{loaded};
ghost use Rattle.core_link.specs.ResolutionClauses.{WhereResolved, Adds, linked_root, linked_in, linked_beside, linked_symbol, recorded_symbol};
ghost use Rattle.core_link.specs.Assembling.{declaration_trees, linked_tree, linked_trees, linked_of, others_linked, assembled};
ghost use Rattle.wesl_resolve.specs.SourceMaps.{decl_at};
ghost use Rattle.core_link.specs.Recording.{records_in, records_of, AreRecorded, AreTold};

use crate::rounds::Resolutions;
use core_names::{ModuleNaming, held_name};
use core_reach::is_held;
use core_rename::renamed_declaration;
use core_scopes::{Module, Symbol};
use core_syntax::{GlobalDeclaration, GlobalDeclarationNode, TranslationUnit};
use std::alloc::{AllocError, Global};
use wesl_resolve::BasicSourceMap;
use wgsl_base::Items;
use wgsl_path::{ModulePath, Spanned};

/// A held symbol's declaration, as its module has it.
#[derive(Clone, Copy)]
pub struct HeldDeclaration<'a> {
    pub(crate) module: &'a Module,
    pub(crate) node: &'a GlobalDeclarationNode,
}

impl Resolutions {
    /// One unit without imports: the declarations of the held symbols, in their order, under their names in the linked unit.
    pub fn assemble(&self, alloc: Global) -> Result<TranslationUnit, AllocError>
        ensures whole { IfOk result (λ unit. unit_tree unit ≡ assembled self.now.modules self.now.held (string_bytes self.now.root)) }
        ensures linked { IfOk result (λ unit. WhereResolved self.now (λ ms root keep. IsLinked ms root keep (unit_tree unit))) }
    {
        let held = self.held_declarations(alloc)?;
        let declarations = self.linked_declarations(alloc, held.as_slice())?;
        Ok(TranslationUnit {
            imports: Items::new(alloc),
            global_declarations: declarations,
        })
    }

    /// The declarations of the held symbols in the order of the linked unit: the root's, then those of the other modules in
    /// byte order of their printed paths, each in text order.
    pub fn held_declarations<'a>(
        &'a self,
        alloc: Global,
    ) -> Result<Vec<HeldDeclaration<'a>>, AllocError>
        ensures whole { IfOk result (λ held. linked_of self.now.modules self.now.held held.items ≡ assembled self.now.modules self.now.held (string_bytes self.now.root)) }
        ensures linked { IfOk result (λ held. WhereResolved self.now (λ ms root keep. IsLinked ms root keep (linked_of self.now.modules self.now.held held.items))) }
    {
        let mut found = Vec::new(alloc);
        self.add_root(&mut found)?;
        self.add_others(&mut found)?;
        Ok(found)
    }

    /// A declaration under its names in the linked unit.
    pub fn linked_declaration(
        &self,
        alloc: Global,
        held: HeldDeclaration<'_>,
    ) -> Result<GlobalDeclaration, AllocError>
        ensures { IfOk result (λ declaration. declaration_tree declaration ≡ linked_tree self.now.modules self.now.held held.entry) }
    {
        let naming = ModuleNaming {
            modules: &self.modules,
            held: &self.held,
            module: held.module,
        };
        renamed_declaration(alloc, naming, held.node.node())
    }

    fn linked_declarations(
        &self,
        alloc: Global,
        held: &[HeldDeclaration<'_>],
    ) -> Result<Items<GlobalDeclarationNode>, AllocError>
        ensures { IfOk result (λ declarations. declaration_trees declarations ≡ linked_trees self.now.modules self.now.held held.now) }
    {
        let mut declarations = Items::new(alloc);
        for declaration in held {
            let new = self.linked_declaration(alloc, *declaration)?;
            declarations.push(Spanned::new(alloc, new, declaration.node.span)?)?;
        }
        Ok(declarations)
    }

    fn add_root<'a>(&'a self, found: &mut Vec<HeldDeclaration<'a>>) -> Result<(), AllocError>
        ensures { OnOk result (Adds self.now found.old.items found.new.items (linked_root self.now)) }
    {
        match self.modules.get(self.root.as_str()) {
            None => Ok(()),
            Some(root) => self.add_declarations(root, found),
        }
    }

    fn add_others<'a>(&'a self, found: &mut Vec<HeldDeclaration<'a>>) -> Result<(), AllocError>
        ensures trees { OnOk result (Adds self.now found.old.items found.new.items (others_linked self.now.modules self.now.held (string_bytes self.now.root) self.now.modules.entries)) }
        ensures ordered { IsOrdered string_cmp self.now.modules }
    {
        for (text, module) in &self.modules {
            self.add_other(text.as_str(), module, found)?;
        }
        Ok(())
    }

    fn add_other<'a>(
        &'a self,
        text: &str,
        module: &'a Module,
        found: &mut Vec<HeldDeclaration<'a>>,
    ) -> Result<(), AllocError>
        ensures { OnOk result (Adds self.now found.old.items found.new.items (linked_beside self.now text.now «module».now)) }
    {
        if text == self.root.as_str() {
            return Ok(());
        }
        self.add_declarations(module, found)
    }

    fn add_declarations<'a>(
        &'a self,
        module: &'a Module,
        found: &mut Vec<HeldDeclaration<'a>>,
    ) -> Result<(), AllocError>
        ensures { OnOk result (Adds self.now found.old.items found.new.items (linked_in self.now «module».now)) }
    {
        for (place, node) in module
            .unit
            .global_declarations
            .as_slice()
            .iter()
            .enumerate()
        {
            self.add_held(Symbol { module, place }, node, found)?;
        }
        Ok(())
    }

    /// Adds a declaration, if it is held.
    fn add_held<'a>(
        &'a self,
        symbol: Symbol<'a>,
        node: &'a GlobalDeclarationNode,
        found: &mut Vec<HeldDeclaration<'a>>,
    ) -> Result<(), AllocError>
        ensures { OnOk result (Adds self.now found.old.items found.new.items (linked_symbol self.now symbol.entry node.now)) }
    {
        if !is_held(&self.held, symbol) {
            return Ok(());
        }
        found.push(HeldDeclaration {
            module: symbol.module,
            node,
        })?;
        Ok(())
    }

    /// The paths of the loaded modules.
    pub fn paths<'a>(&'a self, alloc: Global) -> Result<Vec<&'a ModulePath>, AllocError>
        ensures { IfOk result (λ paths. map (λ p. p.now) paths.items ≡ map (λ e. e.1.path) self.now.modules.entries) }
    {
        let mut paths = Vec::new(alloc);
        for (_, module) in &self.modules {
            paths.push(&module.path)?;
        }
        Ok(paths)
    }

    /// Records each held symbol under its name in the linked unit.
    pub fn add_decls(&self, map: &mut BasicSourceMap) -> Result<(), AllocError>
        ensures told { OnOk result (WhereResolved self.now (λ ms root keep. AreTold ms root keep (decl_at map.old) (decl_at map.new))) }
        ensures sources { map.new.sources ≡ map.old.sources }
        ensures default_source { map.new.default_source ≡ map.old.default_source }
    {
        self.record_held(map)?;
        Ok(())
    }

    fn record_held(&self, map: &mut BasicSourceMap) -> Result<(), AllocError>
        ensures recorded { OnOk result (AreRecorded (records_of self.now.held self.now.modules.entries) (decl_at map.old) (decl_at map.new)) }
        ensures ordered { IsOrdered string_cmp self.now.modules }
        ensures sources { map.new.sources ≡ map.old.sources }
        ensures default_source { map.new.default_source ≡ map.old.default_source }
    {
        for (_, module) in &self.modules {
            self.record_held_in(module, map)?;
        }
        Ok(())
    }

    fn record_held_in(&self, module: &Module, map: &mut BasicSourceMap) -> Result<(), AllocError>
        ensures recorded { OnOk result (AreRecorded (records_in self.now.held «module».now) (decl_at map.old) (decl_at map.new)) }
        ensures sources { map.new.sources ≡ map.old.sources }
        ensures default_source { map.new.default_source ≡ map.old.default_source }
    {
        for (place, node) in module
            .unit
            .global_declarations
            .as_slice()
            .iter()
            .enumerate()
        {
            self.record_symbol(Symbol { module, place }, node, map)?;
        }
        Ok(())
    }

    /// Records a declaration under its printed name, if it is held.
    fn record_symbol(
        &self,
        symbol: Symbol<'_>,
        node: &GlobalDeclarationNode,
        map: &mut BasicSourceMap,
    ) -> Result<(), AllocError>
        ensures recorded { OnOk result (AreRecorded (recorded_symbol self.now symbol.entry node.now) (decl_at map.old) (decl_at map.new)) }
        ensures sources { map.new.sources ≡ map.old.sources }
        ensures default_source { map.new.default_source ≡ map.old.default_source }
    {
        match held_name(&self.held, symbol) {
            None => Ok(()),
            Some(name) => map.add_decl(name, &symbol.module.path, node.node().declared_name()),
        }
    }
}
