//! Attributes that are put before statements and directives.

ghost use Rattle.std.specs.Prelude.{◌≡◌, MatchOption};
ghost use Rattle.wgsl_nodes.specs.Directives.{directive_with};
ghost use Rattle.wgsl_nodes.specs.Statements.{statement_with};

use std::mem;
use wgsl_base::Boxed;
use wgsl_declarations::GlobalDirective;
use wgsl_expressions::Attributes;
use wgsl_nodes::SyntaxNode;
use wgsl_statements::Statement;

/// Puts attributes in the place of a node's own, where it can have some.
fn put_attributes<N: SyntaxNode>(node: &mut N, attributes: Attributes)
    ensures { MatchOption (N.own node.old) (node.new ≡ node.old) (λ _. node.new ≡ N.with_own node.old attributes) }
{
    if let Some(place) = node.attributes_mut() {
        drop(mem::replace(place, attributes));
    }
}

/// A directive with these attributes in the place of its own.
pub(crate) fn directive_behind(
    attributes: Attributes,
    directive: Boxed<GlobalDirective>,
) -> Boxed<GlobalDirective>
    ensures { result ≡ directive_with directive attributes }
{
    let mut directive = directive;
    put_attributes(directive.get_mut(), attributes);
    directive
}

/// A statement with these attributes in the place of its own.
#[tactic(auto, using(crate::proofs::Behind::without))]
pub(crate) fn statement_behind(
    attributes: Attributes,
    statement: Boxed<Statement>,
) -> Boxed<Statement>
    ensures { result ≡ statement_with statement attributes }
{
    let mut statement = statement;
    put_attributes(statement.get_mut(), attributes);
    statement
}
