//! What features leave of a module, in place. It needs no memory.

ghost use Rattle.std.specs.Prelude.{◌≡◌, map};
ghost use Rattle.std.specs.Option.{option_map};
ghost use Rattle.wgsl_declarations.specs.View.{declaration_tree, structure_tree, function_tree, unit_tree};
ghost use Rattle.wesl_conditions.specs.Trees.{unit_left};
ghost use Rattle.wesl_cond.specs.Declarations.{declaration_left};

use crate::statements::settle_block;
use wesl_cond_items::settle_list;
use wesl_conditions::Features;
use wgsl_base::Items;
use wgsl_declarations::{
    Function, GlobalDeclaration, GlobalDeclarationNode, Struct, TranslationUnit,
};

/// What features leave inside a declaration. Its own attributes stay.
fn settle_declaration(declaration: &mut GlobalDeclaration, features: &Features)
    ensures { declaration_tree declaration.new ≡ option_map (declaration_left features.now) (declaration_tree declaration.old) }
{
    match declaration {
        GlobalDeclaration::Struct(x) => settle_struct(x, features),
        GlobalDeclaration::Function(x) => settle_function(x, features),
        GlobalDeclaration::Void => {}
        GlobalDeclaration::Declaration(_) => {}
        GlobalDeclaration::TypeAlias(_) => {}
        GlobalDeclaration::ConstAssert(_) => {}
    }
}

#[tactic(auto, using(crate::proofs::Flat::members_left))]
fn settle_struct(x: &mut Struct, features: &Features)
    ensures { structure_tree x.new ≡ declaration_left features.now (structure_tree x.old) }
{
    settle_list(&mut x.members, features);
}

#[tactic(auto, using(crate::proofs::Flat::parameters_left))]
fn settle_function(x: &mut Function, features: &Features)
    ensures { function_tree x.new ≡ declaration_left features.now (function_tree x.old) }
{
    settle_list(&mut x.parameters, features);
    settle_block(&mut x.body, features);
}

fn settle_node(node: &mut GlobalDeclarationNode, features: &Features)
    ensures { declaration_tree node.new.node ≡ option_map (declaration_left features.now) (declaration_tree node.old.node) }
{
    settle_declaration(node.node_mut(), features);
}

/// What features leave inside each declaration of a list.
fn settle_each(nodes: &mut Items<GlobalDeclarationNode>, features: &Features)
    ensures { map (λ n. declaration_tree n.node) nodes.new ≡ map (option_map (declaration_left features.now)) (map (λ n. declaration_tree n.node) nodes.old) }
{
    for i in 0..nodes.len() {
        settle_node(nodes.get_mut(i), features);
    }
}

/// What features leave of a module.
pub(crate) fn settle_unit(unit: &mut TranslationUnit, features: &Features)
    ensures { unit_tree unit.new ≡ unit_left features.now (unit_tree unit.old) }
{
    settle_list(&mut unit.imports, features);
    settle_list(&mut unit.global_directives, features);
    settle_each(&mut unit.global_declarations, features);
    settle_list(&mut unit.global_declarations, features);
}
