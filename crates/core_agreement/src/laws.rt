//! Laws of the calls' answers. Each function states its law and does nothing.

ghost use Rattle.core_agreement.specs.Answers.{CompiledAlike, LinkedAlike};
ghost use Rattle.core_agreement.specs.Texts.{AddedImportsAreApart, CompiledTextsAreOne, LinkedTextsAreOne, SameTokensCompileAlike, SameTokensLinkAlike};

use wesl_resolve::Resolver;

/// Two resolvers that agree on the modules that `compile` asks of one of them get the same answer: one text, or errors that tell
/// the same.
pub fn compiled_alike<R: Resolver, S: Resolver>()
    ensures { (one : R) (other : S) → CompiledAlike (R.answers one) (S.answers other) }
{}

/// Likewise with `link`.
pub fn linked_alike<R: Resolver, S: Resolver>()
    ensures { (one : R) (other : S) → LinkedAlike (R.answers one) (S.answers other) }
{}

/// A resolver that has each unit that `compile` asks of another gets the same text, where both get one.
pub fn compiled_texts_are_one<R: Resolver, S: Resolver>()
    ensures { (one : R) (other : S) → CompiledTextsAreOne (R.answers one) (S.answers other) }
{}

/// Likewise with `link`.
pub fn linked_texts_are_one<R: Resolver, S: Resolver>()
    ensures { (one : R) (other : S) → LinkedTextsAreOne (R.answers one) (S.answers other) }
{}

/// Imports of handed-in texts that print alike name modules by one path.
pub fn added_imports_are_apart()
    ensures { AddedImportsAreApart }
{}

/// Texts of modules with the same tokens are compiled to one text.
pub fn same_tokens_compile_alike()
    ensures { SameTokensCompileAlike }
{}

/// Texts of modules with the same tokens are linked to one text.
pub fn same_tokens_link_alike()
    ensures { SameTokensLinkAlike }
{}
