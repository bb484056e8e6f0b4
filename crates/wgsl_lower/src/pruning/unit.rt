//! Modules without statements that are never done.

ghost use Rattle.std.specs.Prelude.{◌≡◌, map};
ghost use Rattle.wgsl_lower.specs.Bodies.{around_body, around_body_node};

use crate::effects::Effects;
use crate::pruning::statements::prune_block;
use std::alloc::Global;
use wgsl_base::Items;
use wgsl_declarations::{GlobalDeclaration, GlobalDeclarationNode, TranslationUnit};

fn prune_declaration(alloc: Global, declaration: &mut GlobalDeclaration, effects: &Effects<'_>)
    ensures { around_body declaration.new ≡ around_body declaration.old }
{
    match declaration {
        GlobalDeclaration::Function(x) => prune_block(alloc, &mut x.body, effects),
        GlobalDeclaration::Void => {}
        GlobalDeclaration::Declaration(_) => {}
        GlobalDeclaration::TypeAlias(_) => {}
        GlobalDeclaration::Struct(_) => {}
        GlobalDeclaration::ConstAssert(_) => {}
    }
}

fn prune_node(alloc: Global, node: &mut GlobalDeclarationNode, effects: &Effects<'_>)
    ensures { around_body_node node.new ≡ around_body_node node.old }
{
    prune_declaration(alloc, node.node_mut(), effects);
}

fn prune_declarations(
    alloc: Global,
    declarations: &mut Items<GlobalDeclarationNode>,
    effects: &Effects<'_>,
)
    ensures { map around_body_node declarations.new ≡ map around_body_node declarations.old }
{
    for i in 0..declarations.len() {
        prune_node(alloc, declarations.get_mut(i), effects);
    }
}

/// Prunes the bodies of a module's functions, inner statements first: `;` items and empty blocks go; a block of one statement that is no
/// declaration becomes that statement; clauses of `if` that are `false` or stand behind one that is `true` go, and one that is always
/// chosen leaves its body as a block; `while false` goes, and `for` with `false` where its header does nothing. What has attributes
/// stays. `effects` has the functions whose calls may do something. It needs no memory. All but the statements of functions stays.
pub fn prune(alloc: Global, unit: &mut TranslationUnit, effects: &Effects<'_>)
    ensures imports { unit.new.imports ≡ unit.old.imports }
    ensures directives { unit.new.global_directives ≡ unit.old.global_directives }
    ensures declarations { map around_body_node unit.new.global_declarations ≡ map around_body_node unit.old.global_declarations }
{
    prune_declarations(alloc, &mut unit.global_declarations, effects);
}
