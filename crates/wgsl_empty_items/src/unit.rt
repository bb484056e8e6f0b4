//! Modules without their empty items, in place.

ghost use Rattle.std.specs.Prelude.{◌≡◌, map};
ghost use Rattle.wgsl_empty_items.specs.DeclarationsView.{unit_tree};
ghost use Rattle.wgsl_empty_items.specs.DeclarationsPrint.{unit_text};
ghost use Rattle.wgsl_empty_items.specs.Counts.{voids_in_unit};
ghost use Rattle.wgsl_empty_items.specs.Units.{is_empty_declaration, declaration_without_voids, node_without_voids, kept_declarations, unit_without_voids};

use crate::meaning::{
    GlobalDeclaration, GlobalDeclarationNode, TranslationUnit, retain_declarations,
};
use crate::statements::remove_voids_in_block;
use wgsl_base::Items;

/// Whether it is a `;` alone.
fn is_empty(declaration: &GlobalDeclaration) -> bool
    ensures { result ≡ is_empty_declaration declaration.now }
{
    matches!(declaration, GlobalDeclaration::Void)
}

/// Removes each empty item inside a declaration. An empty declaration stays one.
pub fn remove_voids_in_declaration(declaration: &mut GlobalDeclaration)
    ensures { declaration.new ≡ declaration_without_voids declaration.old }
{
    match declaration {
        GlobalDeclaration::Function(x) => remove_voids_in_block(&mut x.body),
        GlobalDeclaration::Void => {}
        GlobalDeclaration::Declaration(_) => {}
        GlobalDeclaration::TypeAlias(_) => {}
        GlobalDeclaration::Struct(_) => {}
        GlobalDeclaration::ConstAssert(_) => {}
    }
}

fn remove_in_node(node: &mut GlobalDeclarationNode)
    ensures { node.new ≡ node_without_voids node.old }
{
    remove_voids_in_declaration(node.node_mut());
}

/// Removes the empty items inside each declaration of a list.
fn remove_inside(declarations: &mut Items<GlobalDeclarationNode>)
    ensures { declarations.new ≡ map node_without_voids declarations.old }
{
    for i in 0..declarations.len() {
        remove_in_node(declarations.get_mut(i));
    }
}

/// Removes the empty items of a list itself.
fn keep(declarations: &mut Items<GlobalDeclarationNode>)
    ensures { declarations.new ≡ kept_declarations declarations.old }
{
    retain_declarations(declarations, |declaration| !is_empty(declaration.node()));
}

/// Removes each empty item of a module, at every depth. It needs no memory. The module stands for the same tree, so that it is
/// printed alike, and another call changes nothing.
#[tactic(auto, using(crate::proofs::Modules::tree_stays, crate::proofs::Modules::none_is_left, crate::proofs::Modules::twice_is_once))]
pub fn remove_voids(unit: &mut TranslationUnit)
    ensures removed { unit.new ≡ unit_without_voids unit.old }
    ensures tree { unit_tree unit.new ≡ unit_tree unit.old }
    ensures text { unit_text (unit_tree unit.new) ≡ unit_text (unit_tree unit.old) }
    ensures none_left { voids_in_unit unit.new ≡ 0 }
    ensures settled { unit_without_voids unit.new ≡ unit.new }
{
    remove_inside(&mut unit.global_declarations);
    keep(&mut unit.global_declarations);
}
