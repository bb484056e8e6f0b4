//! What stands under a name.

ghost use Rattle.std.specs.Prelude.{◌≡◌, codes, IfOk};
ghost use Rattle.std.specs.Str.{bytes_eq};
ghost use Rattle.core_syntax.specs.View.{type_tree};
ghost use Rattle.core_meaning.specs.Names as spec;
ghost use Rattle.core_eval.specs.Ends.{Gives};
ghost use Rattle.core_eval.specs.Scopes.{decls, lookup, Declares};

use crate::error::{EvalError, named};
use crate::scope::Declarations;
use core_meaning::{IntegerType, NameFault, ScalarType};
use core_syntax::{GlobalDeclaration, GlobalDeclarationNode, TypeExpression};
use std::alloc::{AllocError, Global};
use std::collections::HashMap;
use wgsl_base::Text;

/// What stands first under a name.
pub(crate) fn found<T: Copy>(name: &Text, entries: &[(Text, T)]) -> Option<T>
    ensures { result ≡ spec.find name.now entries.now }
{
    let mut rest = entries;
    while let [entry, more @ ..] = rest {
        if name.as_str() == entry.0.as_str() {
            return Some(entry.1);
        }
        rest = more;
    }
    None
}

/// The first declaration of a name.
pub(crate) fn declaration<'a>(
    name: &Text,
    declarations: &Declarations<'a>,
) -> Option<&'a GlobalDeclaration>
    ensures { result ≡ lookup declarations.now name.now }
{
    declarations.get(name.as_str()).copied()
}

/// The declarations under their names.
pub fn declarations_of<'a>(
    alloc: Global,
    nodes: &'a [GlobalDeclarationNode],
) -> Result<Declarations<'a>, AllocError>
    ensures { IfOk result (λ table. Declares table (decls nodes.now)) }
{
    let mut table = HashMap::new(alloc);
    for node in nodes {
        let name = node.node().declared_name();
        if table.contains_key(name) {
            continue;
        }
        table.insert(name, node.node())?;
    }
    Ok(table)
}

/// The type of a built-in name.
pub(crate) fn built_in_type(alloc: Global, name: &Text) -> Result<ScalarType, EvalError>
    ensures { Gives (λ t. t) (spec.built_in_type name.now) result }
{
    match name.as_str() {
        "i32" => Ok(ScalarType::Integer(IntegerType::I32)),
        "u32" => Ok(ScalarType::Integer(IntegerType::U32)),
        _ => Err(named(alloc, NameFault::Todo, name)),
    }
}

/// A plain name, without path and template arguments.
pub fn plain_name<'a>(alloc: Global, ty: &'a TypeExpression) -> Result<&'a Text, EvalError>
    ensures { Gives (λ name. name.now) (spec.plain_name (type_tree ty.now)) result }
{
    let name = &ty.ident.name;
    if ty.path.is_some() {
        Err(named(alloc, NameFault::UnknownDecl, name))
    } else if ty.template_args.is_some() {
        Err(named(alloc, NameFault::UnexpectedTemplate, name))
    } else {
        Ok(name)
    }
}
