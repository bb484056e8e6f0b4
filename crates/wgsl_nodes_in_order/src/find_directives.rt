//! The nodes in directives.

ghost use Rattle.std.specs.Prelude.{◌≡◌, ◌++◌, map, IfOk, OnOk};
ghost use Rattle.wgsl_declarations.specs.ImportsView.{directive_tree};
ghost use Rattle.wgsl_nodes_in_order.specs.Nodes.{in_directive, in_directives};
ghost use Rattle.wgsl_nodes_in_order.specs.Found.{nodes};

use crate::find::find_attributes;
use crate::node::NodeRef;
use std::alloc::{AllocError, Global};
use wgsl_declarations::GlobalDirective;

/// Lists the nodes of a directive's attributes.
fn find_directive<'a>(
    directive: &'a GlobalDirective,
    found: &mut Vec<NodeRef<'a>>,
) -> Result<(), AllocError>
    ensures { OnOk result (nodes found.new.items ≡ nodes found.old.items ++ in_directive (directive_tree directive.now)) }
{
    match directive {
        GlobalDirective::Diagnostic(x) => find_attributes(&x.attributes.as_slice(), found),
        GlobalDirective::Enable(x) => find_attributes(&x.attributes.as_slice(), found),
        GlobalDirective::Requires(x) => find_attributes(&x.attributes.as_slice(), found),
    }
}

/// The attributes of directives, and the expressions and types in them, in the order in which they end in the text: each stands behind
/// those inside it.
pub fn find_directive_nodes<'a>(
    alloc: Global,
    directives: &'a [GlobalDirective],
) -> Result<Vec<NodeRef<'a>>, AllocError>
    ensures { IfOk result (λ found. nodes found.items ≡ in_directives (map directive_tree directives.now)) }
{
    let mut found = Vec::new(alloc);
    for directive in directives {
        find_directive(directive, &mut found)?;
    }
    Ok(found)
}
