//! Laws of paths and identifiers. Each function states some, and does nothing.

ghost use Rattle.std.specs.Prelude.{◌≡◌, IfOk, string_bytes};
ghost use Rattle.std.specs.Bool.{Decides};
ghost use Rattle.std.specs.Cmp.{IsEquivalence};
ghost use Rattle.std.specs.Hash.{Alike};
ghost use Rattle.wgsl_path.specs.declared.ident.Ident.{Ident};
ghost use Rattle.wgsl_path.specs.declared.path.ModulePath.{ModulePath};
ghost use Rattle.wgsl_path.specs.Laws.{SelfBefore, SelfBehind, JoinsInAnyOrder, BeginsWithItself, BeginsAlong, BeginsWithTheFirst, PrintsToBeRead, PrintedOnce, WorkedJoins};

use crate::ident::Ident;
use crate::path::ModulePath;
use crate::reading::ModulePathParseError;
use crate::span::Spanned;
use std::alloc::Global;
use std::hash::Hash;

/// `join_path` does not ask in which order three paths are joined, where the number of `super` that the last two make fits a `usize`.
/// The path `self` changes nothing, on either side.
pub fn join_path_is_a_monoid()
    ensures associative { JoinsInAnyOrder }
    ensures before { SelfBefore }
    ensures behind { SelfBehind }
{}

/// Examples of what `join_path` answers.
pub fn join_path_at_examples()
    ensures { WorkedJoins }
{}

/// `starts_with` is reflexive and transitive, and a path with more names starts with the path.
pub fn starts_with_is_a_preorder()
    ensures reflexive { BeginsWithItself }
    ensures transitive { BeginsAlong }
    ensures joined { BeginsWithTheFirst }
{}

/// `==` of identifiers is an equivalence: it tells whether the names are the same. Equal ones are hashed alike.
pub fn identifiers_are_equal_by_name()
    ensures equivalence { IsEquivalence ⟦<Ident as PartialEq>⟧.eq }
    ensures name { (a b : Ident) → Decides (⟦<Ident as PartialEq>⟧.eq a b) (a.name ≡ b.name) }
    ensures hash { Alike ⟦<Ident as PartialEq>⟧.eq ⟦<Ident as Hash>⟧.hash_input }
{}

/// `==` of paths is an equivalence: it tells whether the paths are the same. Equal ones are hashed alike.
pub fn paths_are_equal_where_they_are_the_same()
    ensures equivalence { IsEquivalence ⟦<ModulePath as PartialEq>⟧.eq }
    ensures same { (p q : ModulePath) → Decides (⟦<ModulePath as PartialEq>⟧.eq p q) (p ≡ q) }
    ensures hash { Alike ⟦<ModulePath as PartialEq>⟧.eq ⟦<ModulePath as Hash>⟧.hash_input }
{}

/// `==` of two values with places is that of the values, wherever they stand.
pub fn equality_ignores_places<T: PartialEq>(left: &Spanned<T>, right: &Spanned<T>) -> bool
    ensures { result ≡ T.eq left.now.node right.now.node }
{
    *left == *right
}

/// A text that is read as a path is printed again as it was.
pub fn read_and_printed(alloc: Global, text: &str) -> Result<String, ModulePathParseError>
    ensures { IfOk result (λ printed. string_bytes printed ≡ text.now) }
{
    let path = ModulePath::from_str(alloc, text)?;
    Ok(format!(in alloc; "{path}")?)
}

/// A path of names that identifiers may be is printed as a text that is read as that path, so no two of them are printed alike. Others may
/// be: a package of the name `package` is printed as the root of the own package is.
pub fn printed_to_be_read()
    ensures read { PrintsToBeRead }
    ensures once { PrintedOnce }
{}
