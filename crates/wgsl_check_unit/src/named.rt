//! The first node that no text derives.

ghost use Rattle.std.specs.Prelude.{◌≡◌, ◌∷◌, [], IfOk};
ghost use Rattle.std.specs.Option.{option_copied, option_or};
ghost use Rattle.wgsl_statements.specs.View.{statement_tree, stms};
ghost use Rattle.wgsl_read_back.specs.Found as found;
ghost use Rattle.wgsl_check_unit.specs.Names as names;
ghost use Rattle.wgsl_check_unit.specs.Telling.{IsNamed};

use std::alloc::Global;
use wgsl_base::Text;
use wgsl_read_back::{NodeRef, is_node_derivable};
use wgsl_statements::Statement;
use wgsl_token::fault::Refusal;

/// The name that a local declaration declares.
#[tactic(auto, using(wgsl_statements::proofs::Trees::tree_of_void, wgsl_statements::proofs::Trees::tree_of_compound, wgsl_statements::proofs::Trees::tree_of_assignment, wgsl_statements::proofs::Trees::tree_of_increment, wgsl_statements::proofs::Trees::tree_of_decrement, wgsl_statements::proofs::Trees::tree_of_if, wgsl_statements::proofs::Trees::tree_of_switch, wgsl_statements::proofs::Trees::tree_of_loop, wgsl_statements::proofs::Trees::tree_of_for, wgsl_statements::proofs::Trees::tree_of_while, wgsl_statements::proofs::Trees::tree_of_break, wgsl_statements::proofs::Trees::tree_of_continue, wgsl_statements::proofs::Trees::tree_of_return, wgsl_statements::proofs::Trees::tree_of_discard, wgsl_statements::proofs::Trees::tree_of_call, wgsl_statements::proofs::Trees::tree_of_assertion, wgsl_statements::proofs::Trees::tree_of_value))]
fn local_name(statement: &Statement) -> Option<&str>
    ensures { option_copied result ≡ names.local_name (stms (statement_tree statement.now ∷ [])) }
{
    match statement {
        Statement::Declaration(x) => Some(x.get().ident.as_str()),
        _ => None,
    }
}

/// The name of a node.
fn node_name<'a>(node: NodeRef<'a>) -> Option<&'a str>
    ensures { option_copied result ≡ names.node_name (found.node_of node.entry) }
{
    match node {
        NodeRef::Attribute(_) => None,
        NodeRef::Expression(_) => None,
        NodeRef::Type(x) => Some(x.ident.as_str()),
        NodeRef::Statement(x) => local_name(x),
        NodeRef::Member(x) => Some(x.ident.as_str()),
        NodeRef::Parameter(x) => Some(x.ident.as_str()),
    }
}

/// A name, or the owner's.
fn either<'a>(name: Option<&'a str>, owner: Option<&'a str>) -> Option<&'a str>
    ensures { option_copied result ≡ option_or (option_copied name.entry) (option_copied owner.entry) }
{
    match name {
        Some(name) => Some(name),
        None => owner,
    }
}

/// A copy of a name.
fn copied(alloc: Global, name: Option<&str>) -> Result<Option<Text>, Refusal>
    ensures { IfOk result (λ copy. copy ≡ option_copied name.entry) }
{
    match name {
        Some(name) => Ok(Some(Text::from_str(alloc, name)?)),
        None => Ok(None),
    }
}

/// The name of the first node that no text derives, where it has none the owner's; where there is no such node, the rest's.
pub(crate) fn named(
    alloc: Global,
    nodes: &[NodeRef],
    owner: Option<&str>,
    rest: Option<&str>,
) -> Result<Option<Text>, Refusal>
    ensures { IfOk result (λ name. IsNamed (option_copied owner.entry) (option_copied rest.entry) (found.nodes nodes.now) name) }
{
    for node in nodes {
        if !is_node_derivable(alloc, *node)? {
            return copied(alloc, either(node_name(*node), owner));
        }
    }
    copied(alloc, rest)
}
