//! Modules of one declaration.

ghost use Rattle.std.specs.Prelude.{◌≡◌, IfOk};
ghost use Rattle.wgsl_nodes_in_order.specs.DeclarationsView.{declaration_tree, unit_tree};
ghost use Rattle.wgsl_nodes_in_order.specs.Found.{node_of};
ghost use Rattle.wgsl_nodes_in_order.specs.Placed.{holding};
ghost use Rattle.wgsl_nodes_in_order.specs.Alone.{alone, at_most_one};

use crate::single::placed::placed;
use crate::{GlobalDeclaration, NodeRef, TranslationUnit};
use std::alloc::{AllocError, Global};
use wgsl_base::{CloneIn, FromIn};
use wgsl_path::Spanned;

fn module_of(alloc: Global, declaration: GlobalDeclaration) -> Result<TranslationUnit, AllocError>
    ensures { IfOk result (λ unit. unit_tree unit ≡ at_most_one (declaration_tree declaration)) }
{
    let mut unit = TranslationUnit::new(alloc);
    unit.global_declarations
        .push(Spanned::from_in(alloc, declaration)?)?;
    Ok(unit)
}

/// The module of a copy of a declaration alone. Of a `;` it is an empty one.
pub fn with_declaration(
    alloc: Global,
    declaration: &GlobalDeclaration,
) -> Result<TranslationUnit, AllocError>
    ensures { IfOk result (λ unit. unit_tree unit ≡ at_most_one (declaration_tree declaration.now)) }
{
    module_of(alloc, declaration.clone_in(alloc)?)
}

/// The module of a declaration that holds a copy of a node alone.
pub fn with_node(alloc: Global, node: NodeRef) -> Result<TranslationUnit, AllocError>
    ensures { IfOk result (λ unit. unit_tree unit ≡ alone (holding (node_of node.entry))) }
{
    module_of(alloc, placed(alloc, node)?)
}
