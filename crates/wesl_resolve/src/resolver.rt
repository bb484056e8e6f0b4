//! Where modules come from.

ghost use base.Fml.{GName};
ghost use Rattle.std.specs.Prelude.{◌≡◌, ℕ, List, Option, None, IfOk};
ghost use Rattle.wgsl_path.specs.Paths.{path_text};
ghost use Rattle.core_syntax.specs.Tree.{UnitTree};
ghost use Rattle.wesl_resolve.specs.Found.{Answer, unit_of, TellsUnit, TellsText, SameAnswers, SameTexts, IsSomeText, Asked, AsksFor};

use crate::error::ResolveError;
use core_syntax::TranslationUnit;
use std::alloc::{AllocError, Global};
use wgsl_base::Text;
use wgsl_path::ModulePath;

/// Finds modules by their paths. What is found, the text and the display name are each a fixed function of the path, which no
/// call changes. Paths that print alike are one path.
pub trait Resolver: Drop {
    /// What is found at a printed path.
    ghost answers: { Self → List ℕ → Answer → Type 0 };

    /// The text of the module at a printed path.
    ghost texts: { Self → List ℕ → List ℕ → Type 0 };

    /// The name that a message gives the module at a printed path, where it has one.
    ghost display_names: { Self → List ℕ → Option (List ℕ) } = { λ _ _. None };

    /// The printed paths of the modules that were asked for so far, in order. `None` claims nothing.
    ghost asked: { Self → Asked } = { λ _. None };

    /// The reference that it holds, where it holds one, which no call replaces. By it the caller who lent the reference knows
    /// what became of it.
    ghost holds: { Self → Option GName } = { λ _. None };

    /// The text of the module at a path.
    fn resolve_source(&mut self, alloc: Global, path: &ModulePath) -> Result<Text, ResolveError>
        ensures text { TellsText (answers self.old (path_text path.now)) (texts self.old (path_text path.now)) path.now result }
        ensures same_answers { SameAnswers (answers self.old) (answers self.new) }
        ensures same_texts { SameTexts (texts self.old) (texts self.new) }
        ensures same_names { display_names self.new ≡ display_names self.old }
        ensures same_reference { holds self.new ≡ holds self.old }
        ensures asked { asked self.new ≡ asked self.old };

    /// The syntax tree of the module at a path. Where memory is refused, the module may not have been asked for.
    fn resolve_module(
        &mut self,
        alloc: Global,
        path: &ModulePath,
    ) -> Result<TranslationUnit, ResolveError>
        ensures unit { TellsUnit (answers self.old (path_text path.now)) path.now result }
        ensures same_answers { SameAnswers (answers self.old) (answers self.new) }
        ensures same_texts { SameTexts (texts self.old) (texts self.new) }
        ensures same_names { display_names self.new ≡ display_names self.old }
        ensures same_reference { holds self.new ≡ holds self.old }
        ensures asked { AsksFor (asked self.old) (path_text path.now) result (asked self.new) };

    /// The name that a message gives the module, where it has one. It is refused for memory alone.
    fn display_name(&mut self, alloc: Global, path: &ModulePath) -> Result<Option<Text>, AllocError>
        ensures name { IfOk result (λ name. name ≡ display_names self.old (path_text path.now)) }
        ensures same_answers { SameAnswers (answers self.old) (answers self.new) }
        ensures same_texts { SameTexts (texts self.old) (texts self.new) }
        ensures same_names { display_names self.new ≡ display_names self.old }
        ensures same_reference { holds self.new ≡ holds self.old }
        ensures asked { asked self.new ≡ asked self.old };

    /// At a path one answer is found at most.
    ghost one_answer: { (r : Self) (p : List ℕ) (a b : Answer) → answers r p a → answers r p b → a ≡ b };

    /// At a path there is one text at most.
    ghost one_text: { (r : Self) (p a b : List ℕ) → texts r p a → texts r p b → a ≡ b };

    /// Where a unit is found there is a text.
    ghost text_of_unit: { (r : Self) (p : List ℕ) (u : UnitTree) → answers r p (unit_of u) → IsSomeText (texts r p) };
}
