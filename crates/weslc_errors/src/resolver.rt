//! Modules whose texts are handed in.

ghost use Rattle.weslc_errors.specs.Keyed.{AreKeyed};

use core_link::{ResolveError, Resolver};
use core_syntax::TranslationUnit;
use core_unit::{PartError, parse_core};
use indexmap::IndexMap;
use std::alloc::{AllocError, Global};
use wgsl_base::{CloneIn, Text};
use wgsl_path::ModulePath;

#[derive(Drop)]
struct VirtualModule {
    path: ModulePath,
    text: Text,
}

/// Modules whose texts were added, by their printed paths, the first added first.
#[derive(Drop)]
pub struct VirtualResolver {
    alloc: Global,
    modules: IndexMap<String, VirtualModule>,
    ghost keyed: { AreKeyed modules.entries },
}

impl VirtualResolver {
    ghost use Rattle.std.specs.Prelude.{◌≡◌, [], IfOk, OnOk, OnErr, map};
    ghost use Rattle.std.specs.Option.{is_some};
    ghost use Rattle.wgsl_path.specs.Paths.{path_text};
    ghost use Rattle.weslc_errors.specs.Stored.{text_at, texts_added, one_added, IsAdded, TellsStored};

    /// No modules.
    pub fn new(alloc: Global) -> VirtualResolver
        ensures { texts_added result ≡ [] }
    {
        VirtualResolver {
            alloc,
            modules: IndexMap::new(alloc),
        }
    }

    /// Adds the text of a module at a path, in place of the one that was there. Where memory is refused nothing is changed.
    pub fn add_module(&mut self, path: ModulePath, text: Text) -> Result<(), AllocError>
        ensures listed { OnOk result (texts_added self.new ≡ one_added path text (texts_added self.old)) }
        ensures added { OnOk result (IsAdded self.old (path_text path) text self.new) }
        ensures refused { OnErr result (texts_added self.new ≡ texts_added self.old) }
    {
        let key = path.to_string(self.alloc)?;
        self.modules.insert(key, VirtualModule { path, text })?;
        Ok(())
    }

    /// The text of a module.
    pub fn get_module(&self, path: &ModulePath) -> Result<&str, ResolveError>
        ensures { TellsStored self.now path.now result }
    {
        let key = path.to_string(self.alloc)?;
        match self.modules.get(key.as_str()) {
            Some(module) => Ok(module.text.as_str()),
            None => Err(ResolveError::ModuleNotFound(path.clone_in(self.alloc)?)),
        }
    }

    /// The paths and texts of the modules, the first added first.
    pub fn modules(&self) -> Result<Vec<(&ModulePath, &str)>, AllocError>
        ensures { IfOk result (λ modules. map (λ m. (m.0.now, m.1.now)) modules.items ≡ texts_added self.now) }
    {
        let mut modules = Vec::new(self.alloc);
        for module in self.modules.values() {
            modules.push((&module.path, module.text.as_str()))?;
        }
        Ok(modules)
    }

    /// Whether there is a module at a path.
    pub fn contains(&self, path: &ModulePath) -> Result<bool, AllocError>
        ensures { IfOk result (λ found. found ≡ is_some (text_at self.now (path_text path.now))) }
    {
        let key = path.to_string(self.alloc)?;
        Ok(self.modules.contains_key(key.as_str()))
    }
}

impl Resolver for VirtualResolver {
    ghost use Rattle.std.specs.Prelude.{◌≡◌, Some, None};
    ghost use Rattle.std.specs.Option.{unwrap_or};
    ghost use Rattle.std.proofs.Common.{ap, sym, ◌∙◌};
    ghost use Rattle.wesl_resolve.specs.Found.{Answer};
    ghost use Rattle.weslc_errors.specs.Stored.{text_at, found_in, text_of_found};

    ghost answers = { λ r p a. found_in (text_at r p) a };

    ghost texts = { λ r p text. text_at r p ≡ Some text };

    fn resolve_source(&mut self, alloc: Global, path: &ModulePath) -> Result<Text, ResolveError> {
        Ok(Text::from_str(alloc, self.get_module(path)?)?)
    }

    fn resolve_module(
        &mut self,
        alloc: Global,
        path: &ModulePath,
    ) -> Result<TranslationUnit, ResolveError> {
        let text = self.get_module(path)?;
        match parse_core(alloc, text) {
            Ok(unit) => Ok(unit),
            Err(PartError::Syntax(error)) => Err(ResolveError::Syntax(
                path.clone_in(alloc)?,
                error,
            )),
            Err(PartError::Unsupported) => Err(ResolveError::Unsupported(path.clone_in(alloc)?)),
            Err(PartError::GaveUp(refusal)) => {
                Err(ResolveError::GaveUp(path.clone_in(alloc)?, refusal))
            }
            Err(PartError::OutOfMemory) => Err(ResolveError::OutOfMemory),
        }
    }

    fn display_name(
        &mut self,
        _alloc: Global,
        _path: &ModulePath,
    ) -> Result<Option<Text>, AllocError> {
        Ok(None)
    }

    ghost one_answer = { λ r p. elim (text_at r p) as (λ o. (a b : Answer) → found_in o a → found_in o b → a ≡ b) [ None ↦ λ _ _ h k. h ∙ sym k | Some text ↦ λ a _ h k. k.only a h.says ] };

    ghost one_text = { λ r p a b h k. ap (λ text. unwrap_or text a) (sym h ∙ k) };

    ghost text_of_unit = { λ r p u. text_of_found (text_at r p) u };
}
