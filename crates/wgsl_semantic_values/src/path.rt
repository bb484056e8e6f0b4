//! Paths that go on.

ghost use Rattle.std.specs.Prelude.{◌≡◌, IfOk};
ghost use Rattle.wgsl_semantic_values.specs.Making.{path_within, template_of};

use crate::part::QualifiedName;
use std::alloc::{AllocError, Global};
use wgsl_base::Items;
use wgsl_expressions::{ExpressionNode, TemplateArg};
use wgsl_path::{ModulePath, PathOrigin};

/// The path of what stands within the module of this name.
pub(crate) fn within(alloc: Global, name: QualifiedName) -> Result<ModulePath, AllocError>
    ensures { IfOk result (λ path. path ≡ path_within name.path name.ident.name) }
{
    let QualifiedName { path, ident } = name;
    let name = ident.into_name();
    match path {
        None => Ok(ModulePath {
            origin: PathOrigin::Package(name),
            components: Items::new(alloc),
        }),
        Some(path) => path.into_inner().with_name(name),
    }
}

/// Expressions as template arguments.
pub(crate) fn template(
    alloc: Global,
    expressions: Items<ExpressionNode>,
) -> Result<Items<TemplateArg>, AllocError>
    ensures { IfOk result (λ arguments. arguments ≡ template_of expressions) }
{
    let mut arguments = Items::new(alloc);
    for expression in expressions.into_vec() {
        arguments.push(TemplateArg { expression })?;
    }
    Ok(arguments)
}
