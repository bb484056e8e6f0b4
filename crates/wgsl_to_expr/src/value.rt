//! Values of all types as expressions.

ghost use Rattle.std.specs.Prelude.{◌≡◌, map, IfOk};
ghost use Rattle.std.specs.Option.{option_map};
ghost use Rattle.wgsl_expressions.specs.Tree as T;
ghost use Rattle.wgsl_expressions.specs.View.{tree};
ghost use Rattle.wgsl_instance.specs.Typed.{type_of};
ghost use Rattle.wgsl_instance.specs.declared.tree.Instance.TheVariants as v;
ghost use Rattle.wgsl_to_expr.specs.Written.{literal_exp, call_of, vector_exp, all_of, written, type_written, Writes, IsWritten};

use crate::call::{call, push_node};
use crate::literal::literal_to_expr;
use crate::ty::type_to_type_expression;
use std::alloc::{AllocError, Global};
use wgsl_base::OrOutOfMemory;
use wgsl_expressions::{Expression, Items};
use wgsl_instance::{ArrayInstance, Instance, StructInstance, VecInstance};
use wgsl_shader_type::{Error, LiteralInstance, Type};

fn components_to_exprs(
    alloc: Global,
    name: &str,
    components: &[LiteralInstance],
) -> Result<Expression, AllocError>
    ensures { IfOk result (λ e. tree e ≡ call_of name.now (map literal_exp components.now)) }
{
    let mut arguments = Items::new(alloc);
    for component in components {
        let argument = literal_to_expr(alloc, *component)?;
        push_node(alloc, &mut arguments, argument)?;
    }
    call(alloc, name, arguments)
}

/// The expression that is written for a vector, as `vec2(1u, 2u)`.
pub fn vector_to_expr(alloc: Global, value: &VecInstance) -> Result<Expression, AllocError>
    ensures { IfOk result (λ e. tree e ≡ vector_exp value.now) }
{
    let count = value.components.len();
    let name = format!(in alloc; "vec{count}")?;
    components_to_exprs(alloc, name.as_str(), value.components.as_slice())
}

/// The expression that is written for a value. Pointers, references and values of which only the type is known have none, and so no
/// value that holds one: then the error is the first such part.
#[cycle(written)]
pub fn written_instance<'a>(
    alloc: Global,
    value: &'a Instance,
) -> Result<Expression, OrOutOfMemory<&'a Instance>>
    ensures { Writes tree (written value.now) result }
{
    match value {
        Instance::Literal(x) => Ok(literal_to_expr(alloc, *x)?),
        Instance::Struct(x) => written_struct(alloc, x),
        Instance::Array(x) => written_array(alloc, x),
        Instance::Vec(x) => Ok(vector_to_expr(alloc, x)?),
        Instance::Ptr(_) | Instance::Ref(_) | Instance::Deferred(_) => {
            Err(OrOutOfMemory::Error(value))
        }
    }
}

/// The expression that is written for a struct: a call by its name. The error is as that of `written_instance`.
#[cycle(written)]
pub fn written_struct<'a>(
    alloc: Global,
    value: &'a StructInstance,
) -> Result<Expression, OrOutOfMemory<&'a Instance>>
    ensures { Writes tree (written (v.Struct value.now)) result }
{
    written_call(alloc, value.ty.name.as_str(), value.members.as_slice())
}

/// The expression that is written for an array, as `array(1u, 2u)`. The error is as that of `written_instance`.
#[cycle(written)]
pub fn written_array<'a>(
    alloc: Global,
    value: &'a ArrayInstance,
) -> Result<Expression, OrOutOfMemory<&'a Instance>>
    ensures { Writes tree (written (v.Array value.now)) result }
{
    written_call(alloc, "array", value.components.as_slice())
}

#[cycle(written)]
fn written_call<'a>(
    alloc: Global,
    name: &str,
    parts: &'a [Instance],
) -> Result<Expression, OrOutOfMemory<&'a Instance>>
    ensures { Writes tree (option_map (call_of name.now) (all_of (map written parts.now))) result }
{
    let mut arguments = Items::new(alloc);
    for part in parts {
        let argument = written_instance(alloc, part)?;
        push_node(alloc, &mut arguments, argument)?;
    }
    Ok(call(alloc, name, arguments)?)
}

/// The refusal of a type that no expression is written for.
fn not_constructible(alloc: Global, ty: &Type) -> Result<Error, AllocError>
    ensures { IfOk result (λ e. e ≡ Error.NotConstructible ty.now) }
{
    let ty = ty.clone(alloc)?;
    Ok(Error::NotConstructible(ty))
}

/// The refusal of a value that no expression is written for.
fn refused_part(alloc: Global, part: &Instance) -> Result<Error, AllocError>
    ensures { IfOk result (λ e. e ≡ Error.NotConstructible (type_of part.now)) }
{
    let ty = part.ty(alloc)?;
    Ok(Error::NotConstructible(ty))
}

/// The expression that is written for a value. A pointer, a reference or a value of which only the type is known is
/// `NotConstructible` with its type, also where it is a part.
pub fn instance_to_expr(alloc: Global, value: &Instance) -> Result<Expression, Error>
    ensures { IsWritten tree (written value.now) result }
{
    match written_instance(alloc, value) {
        Ok(expression) => Ok(expression),
        Err(OrOutOfMemory::Error(part)) => Err(refused_part(alloc, part)?),
        Err(OrOutOfMemory::OutOfMemory) => Err(Error::OutOfMemory),
    }
}

/// The expression that is written for a struct. The error is as that of `instance_to_expr`.
pub fn struct_to_expr(alloc: Global, value: &StructInstance) -> Result<Expression, Error>
    ensures { IsWritten tree (written (v.Struct value.now)) result }
{
    match written_struct(alloc, value) {
        Ok(expression) => Ok(expression),
        Err(OrOutOfMemory::Error(part)) => Err(refused_part(alloc, part)?),
        Err(OrOutOfMemory::OutOfMemory) => Err(Error::OutOfMemory),
    }
}

/// The expression that is written for an array. The error is as that of `instance_to_expr`.
pub fn array_to_expr(alloc: Global, value: &ArrayInstance) -> Result<Expression, Error>
    ensures { IsWritten tree (written (v.Array value.now)) result }
{
    match written_array(alloc, value) {
        Ok(expression) => Ok(expression),
        Err(OrOutOfMemory::Error(part)) => Err(refused_part(alloc, part)?),
        Err(OrOutOfMemory::OutOfMemory) => Err(Error::OutOfMemory),
    }
}

/// The expression that is written for a type, in full. A reference or an abstract type is `NotConstructible`, also where it is a part.
pub fn type_to_expr(alloc: Global, ty: &Type) -> Result<Expression, Error>
    ensures { IsWritten tree (option_map T.named (type_written ty.now)) result }
{
    match type_to_type_expression(alloc, ty) {
        Ok(written) => Ok(Expression::TypeOrIdentifier(written)),
        Err(OrOutOfMemory::Error(part)) => Err(not_constructible(alloc, part)?),
        Err(OrOutOfMemory::OutOfMemory) => Err(Error::OutOfMemory),
    }
}
