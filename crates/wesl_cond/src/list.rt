//! The first error of lists of items that may have conditions.

ghost use Rattle.std.specs.Prelude.{◌≡◌, Some, filter_map, map};
ghost use Rattle.std.specs.Option.{option_map};
ghost use Rattle.wgsl_expressions.specs.AttributesView.{attributes_tree};
ghost use Rattle.wesl_conditions.specs.Seen.{list_fault};
ghost use Rattle.wesl_conditions.specs.Told.{TellsFault};
ghost use Rattle.wesl_cond.specs.Passing.{Passes, see};

use crate::check::check_declaration;
use std::alloc::Global;
use wesl_cond_items::{Check, Item};
use wesl_conditions::{CondCompError, Features};
use wgsl_declarations::{
    FormalParameter, GlobalDeclarationNode, GlobalDirective, ImportStatement, StructMemberNode,
};
use wgsl_expressions::Attributes;

/// An item that may have an error inside.
pub trait CheckedItem: Item {
    ghost use Rattle.std.specs.Option.{option_and_then};
    ghost use Rattle.wesl_conditions.specs.Told.{TellsFault};

    /// The first error inside the item.
    fn check_inside(&self, alloc: Global, features: &Features) -> Result<(), CondCompError>
        ensures { TellsFault (option_and_then (Self.inside features.now) (Self.tree self.now)) result };
}

impl CheckedItem for StructMemberNode {
    fn check_inside(&self, _alloc: Global, _features: &Features) -> Result<(), CondCompError> {
        Ok(())
    }
}

impl CheckedItem for FormalParameter {
    fn check_inside(&self, _alloc: Global, _features: &Features) -> Result<(), CondCompError> {
        Ok(())
    }
}

impl CheckedItem for ImportStatement {
    fn check_inside(&self, _alloc: Global, _features: &Features) -> Result<(), CondCompError> {
        Ok(())
    }
}

impl CheckedItem for GlobalDirective {
    fn check_inside(&self, _alloc: Global, _features: &Features) -> Result<(), CondCompError> {
        Ok(())
    }
}

impl CheckedItem for GlobalDeclarationNode {
    fn check_inside(&self, alloc: Global, features: &Features) -> Result<(), CondCompError> {
        check_declaration(alloc, self.node(), features)
    }
}

/// Passes one item.
#[tactic(auto, using(crate::proofs::Passing::nothing))]
fn check_item<T: CheckedItem>(
    alloc: Global,
    item: &T,
    check: &mut Check,
    features: &Features,
) -> Result<(), CondCompError>
    ensures { Passes features.now check.old (option_map (see T.has (T.inside features.now)) (T.tree item.now)) result check.new }
{
    match item.attributes() {
        None => Ok(()),
        Some(attributes) => enter(alloc, attributes, item, check, features),
    }
}

/// Passes one item, which has these attributes.
#[tactic(auto, using(crate::proofs::Passing::passed, crate::proofs::Passing::refused_before, crate::proofs::Passing::entered, crate::proofs::Passing::memory))]
fn enter<T: CheckedItem>(
    alloc: Global,
    attributes: &Attributes,
    item: &T,
    check: &mut Check,
    features: &Features,
) -> Result<(), CondCompError>
    requires { Some (attributes_tree attributes.now) ≡ option_map T.has.attributes (T.tree item.now) }
    ensures { Passes features.now check.old (option_map (see T.has (T.inside features.now)) (T.tree item.now)) result check.new }
{
    if !check.enter(alloc, attributes, features)? {
        return Ok(());
    }
    check.found(item.check_inside(alloc, features))
}

/// The first error of a list.
#[tactic(auto, using(crate::proofs::Passing::begins))]
pub fn check_list<T: CheckedItem>(
    alloc: Global,
    items: &[T],
    features: &Features,
) -> Result<(), CondCompError>
    ensures { TellsFault (list_fault features.now (map (see T.has (T.inside features.now)) (filter_map T.tree items.now))) result }
{
    let mut check = Check::new();
    for item in items {
        check_item(alloc, item, &mut check, features)?;
    }
    check.end()
}
