//! The modules of a workspace as one call asks for them.

ghost use Rattle.weslc_workspace.specs.Told.{AreOfTexts};
ghost use Rattle.weslc_workspace.specs.Noted.{AreNoted};

use crate::modules::Modules;
use crate::parse::{Parse, ParsedText};
use indexmap::{IndexMap, IndexSet};
use std::alloc::{AllocError, Global};
use wesl_resolvers::{ResolveError, Resolver};
use wgsl_base::{CloneIn, Items, Text};
use wgsl_declarations::TranslationUnit;
use wgsl_path::ModulePath;

/// The modules of a workspace, the paths of those that were asked for, in order, and as they are printed, and what was parsed for that.
#[derive(Drop)]
pub(crate) struct Asking<'a> {
    modules: &'a Modules,
    requests: Items<ModulePath>,
    asked: IndexSet<String>,
    fresh: IndexMap<String, ParsedText>,
    ghost of_texts: { AreOfTexts modules.now.texts fresh },
    ghost noted: { AreNoted requests asked },
}

impl<'a> Asking<'a> {
    ghost use Rattle.std.specs.Prelude.{◌≡◌, ◌++◌, ◌∷◌, [], Some, OnOk, OnErr, string_bytes};
    ghost use Rattle.wgsl_path.specs.Paths.{path_text};
    ghost use Rattle.wesl_resolvers.specs.Found.{TellsUnit};
    ghost use Rattle.weslc_workspace.specs.Found.{found_in};
    ghost use Rattle.weslc_workspace.specs.Noted.{IsNoted};
    ghost use Rattle.weslc_workspace.specs.Outcome.{IsToldOf};
    ghost use Rattle.weslc_workspace.specs.Held.{text_at};

    /// Nothing was asked for.
    pub(crate) fn new(alloc: Global, modules: &'a Modules) -> Asking<'a>
        ensures modules { result.modules ≡ modules.entry }
        ensures requests { result.requests ≡ [] }
    {
        Asking {
            modules,
            requests: Items::new(alloc),
            asked: IndexSet::new(alloc),
            fresh: IndexMap::new(alloc),
        }
    }

    /// The printed paths of what was asked for, found or not, and what was parsed.
    pub(crate) fn into_parts(self) -> (IndexSet<String>, IndexMap<String, ParsedText>)
        ensures { AreNoted self.entry.requests result.0 }
    {
        let Asking {
            modules: _,
            requests: _,
            asked,
            fresh,
        } = self;
        (asked, fresh)
    }

    /// The tree of a text that was not parsed before this call.
    fn parse_now(
        &mut self,
        alloc: Global,
        key: String,
        path: &ModulePath,
        text: &Text,
    ) -> Result<TranslationUnit, ResolveError>
        requires { text_at self.old.modules.now (string_bytes key) ≡ Some text.now }
        ensures unit { TellsUnit (found_in (Some text.now)) path.now result }
        ensures modules { self.new.modules ≡ self.old.modules }
        ensures requests { self.new.requests ≡ self.old.requests }
    {
        if let Some(parsed) = self.fresh.get(key.as_str()) {
            return parsed.parse.copy(alloc, path);
        }
        let text = text.clone_in(alloc)?;
        self.fresh.reserve(1)?;
        let parse = Parse::new(alloc, text.as_str())?;
        let copied = parse.copy(alloc, path);
        self.keep(key, ParsedText { text, parse });
        copied
    }

    /// Notes that a module was asked for.
    fn note(&mut self, alloc: Global, path: &ModulePath) -> Result<(), AllocError>
        ensures noted { OnOk result (IsNoted self.old.asked (path_text path.now) self.new.asked) }
        ensures requests { OnOk result (self.new.requests ≡ self.old.requests ++ path.now ∷ []) }
        ensures refused { OnErr result (self.new.requests ≡ self.old.requests) }
        ensures modules { self.new.modules ≡ self.old.modules }
    {
        let printed = path.to_string(alloc)?;
        let path = path.clone_in(alloc)?;
        self.asked.insert(printed)?;
        self.requests.push(path)?;
        Ok(())
    }

    /// Keeps what was parsed, for which there is room.
    fn keep(&mut self, path: String, parsed: ParsedText)
        requires { IsToldOf (text_at self.old.modules.now (string_bytes path)) parsed.parse.outcome }
        ensures modules { self.new.modules ≡ self.old.modules }
        ensures requests { self.new.requests ≡ self.old.requests }
    {
        drop(self.fresh.insert(path, parsed));
    }
}

impl<'a> Resolver for Asking<'a> {
    ghost use Rattle.std.specs.Prelude.{◌≡◌, Some};
    ghost use Rattle.std.specs.Option.{unwrap_or};
    ghost use Rattle.std.proofs.Common.{ap, sym, ◌∙◌};
    ghost use Rattle.wgsl_path.specs.Paths.{path_text};
    ghost use Rattle.weslc_workspace.specs.Found.{found_in, one_found, text_of_found};
    ghost use Rattle.weslc_workspace.specs.Held.{text_at};

    ghost answers = { λ r p a. found_in (text_at r.modules.now (path_text p)) a };

    ghost texts = { λ r p text. text_at r.modules.now (path_text p) ≡ Some text };

    ghost asked = { λ r. Some r.requests };

    fn resolve_source(&mut self, alloc: Global, path: &ModulePath) -> Result<Text, ResolveError> {
        let key = path.to_string(alloc)?;
        match self.modules.text(key.as_str()) {
            Some(text) => Ok(text.clone_in(alloc)?),
            None => Err(ResolveError::ModuleNotFound(path.clone_in(alloc)?)),
        }
    }

    fn resolve_module(
        &mut self,
        alloc: Global,
        path: &ModulePath,
    ) -> Result<TranslationUnit, ResolveError> {
        self.note(alloc, path)?;
        let key = path.to_string(alloc)?;
        let Some(text) = self.modules.text(key.as_str()) else {
            return Err(ResolveError::ModuleNotFound(path.clone_in(alloc)?));
        };
        match self.modules.parse(key.as_str()) {
            Some(parse) => parse.copy(alloc, path),
            None => self.parse_now(alloc, key, path, text),
        }
    }

    fn display_name(
        &mut self,
        _alloc: Global,
        _path: &ModulePath,
    ) -> Result<Option<Text>, AllocError> {
        Ok(None)
    }

    ghost one_answer = { λ r p. one_found (text_at r.modules.now (path_text p)) };

    ghost one_text = { λ r p a b h k. ap (λ text. unwrap_or text a) (sym h ∙ k) };

    ghost text_of_unit = { λ r p u. text_of_found (text_at r.modules.now (path_text p)) u };
}
