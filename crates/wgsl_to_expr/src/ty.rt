//! Types as expressions: in full, with template arguments, and a pointer into the storage space with its access mode.

ghost use Rattle.std.specs.Prelude.{◌≡◌, [], ◌∷◌, ◌++◌, map, IfOk, OnOk};
ghost use Rattle.std.specs.Option.{option_map};
ghost use Rattle.wgsl_words.specs.Texts.{address_space_text, access_mode_text};
ghost use Rattle.wgsl_expressions.specs.Tree as T;
ghost use Rattle.wgsl_expressions.specs.View.{tree, type_tree};
ghost use Rattle.wgsl_to_expr.specs.Written.{name_alone, template_of, argument_tree, count_exp, counts, vector_typ, access_exps, pointer_typ, type_written, Writes};

use crate::call::{named, push_argument, push_type, templated};
use std::alloc::{AllocError, Global};
use wgsl_base::OrOutOfMemory;
use wgsl_expressions::{Expression, Items, LiteralExpression, TemplateArg, TypeExpression};
use wgsl_shader_type::Type;
use wgsl_words::{AccessMode, AddressSpace};

/// The word of an address space.
pub fn address_space_to_type(
    alloc: Global,
    space: AddressSpace,
) -> Result<TypeExpression, AllocError>
    ensures { IfOk result (λ ty. type_tree ty ≡ name_alone (address_space_text space)) }
{
    let word = space.to_string(alloc)?;
    named(alloc, word.as_str())
}

/// The word of an access mode.
pub fn access_mode_to_type(alloc: Global, access: AccessMode) -> Result<TypeExpression, AllocError>
    ensures { IfOk result (λ ty. type_tree ty ≡ name_alone (access_mode_text access)) }
{
    let word = access.to_string(alloc)?;
    named(alloc, word.as_str())
}

/// The number of elements of an array, where a literal can say it.
fn count_of(count: usize) -> Option<Expression>
    ensures { option_map tree result ≡ count_exp count }
{
    match i64::try_from(count) {
        Ok(count) => Some(Expression::Literal(LiteralExpression::AbstractInt(count))),
        Err(_) => None,
    }
}

/// A type of one template argument, and a count behind it where there is one.
fn with_argument(
    alloc: Global,
    name: &str,
    argument: TypeExpression,
    count: Option<Expression>,
) -> Result<TypeExpression, AllocError>
    ensures { IfOk result (λ ty. type_tree ty ≡ template_of name.now (T.named (type_tree argument) ∷ counts (option_map tree count))) }
{
    let mut arguments = Items::new(alloc);
    push_type(alloc, &mut arguments, argument)?;
    if let Some(count) = count {
        push_argument(alloc, &mut arguments, count)?;
    }
    templated(alloc, name, arguments)
}

fn vector_to_type(
    alloc: Global,
    count: u8,
    component: TypeExpression,
) -> Result<TypeExpression, AllocError>
    ensures { IfOk result (λ ty. type_tree ty ≡ vector_typ count (type_tree component)) }
{
    let name = format!(in alloc; "vec{count}")?;
    with_argument(alloc, name.as_str(), component, None)
}

/// The space of a pointer, as a list of template arguments that it begins.
fn space_arguments(alloc: Global, space: AddressSpace) -> Result<Items<TemplateArg>, AllocError>
    ensures { IfOk result (λ arguments. map argument_tree arguments ≡ T.named (name_alone (address_space_text space)) ∷ []) }
{
    let word = address_space_to_type(alloc, space)?;
    let mut arguments = Items::new(alloc);
    push_type(alloc, &mut arguments, word)?;
    Ok(arguments)
}

/// Adds the access mode of a pointer, in the storage space alone.
fn push_access(
    alloc: Global,
    arguments: &mut Items<TemplateArg>,
    space: AddressSpace,
    access: AccessMode,
) -> Result<(), AllocError>
    ensures { OnOk result (map argument_tree arguments.new ≡ map argument_tree arguments.old ++ access_exps space access) }
{
    match space {
        AddressSpace::Storage => {
            let word = access_mode_to_type(alloc, access)?;
            push_type(alloc, arguments, word)
        }
        _ => Ok(()),
    }
}

fn pointer_to_type(
    alloc: Global,
    space: AddressSpace,
    stored: TypeExpression,
    access: AccessMode,
) -> Result<TypeExpression, AllocError>
    ensures { IfOk result (λ ty. type_tree ty ≡ pointer_typ space access (type_tree stored)) }
{
    let mut arguments = space_arguments(alloc, space)?;
    push_type(alloc, &mut arguments, stored)?;
    push_access(alloc, &mut arguments, space, access)?;
    templated(alloc, "ptr", arguments)
}

/// The type as it is written, in full. References and abstract types have no form, and so no type that holds one: then the error is
/// the first such type. An array of more elements than a literal can say is one too.
pub fn type_to_type_expression<'a>(
    alloc: Global,
    ty: &'a Type,
) -> Result<TypeExpression, OrOutOfMemory<&'a Type>>
    ensures { Writes type_tree (type_written ty.now) result }
{
    match ty {
        Type::Bool => Ok(named(alloc, "bool")?),
        Type::I32 => Ok(named(alloc, "i32")?),
        Type::U32 => Ok(named(alloc, "u32")?),
        Type::F32 => Ok(named(alloc, "f32")?),
        Type::F16 => Ok(named(alloc, "f16")?),
        Type::Struct(x) => Ok(named(alloc, x.get().name.as_str())?),
        Type::Array(element, None) => {
            let element = type_to_type_expression(alloc, element.get())?;
            Ok(with_argument(alloc, "array", element, None)?)
        }
        Type::Array(element, Some(count)) => {
            let Some(count) = count_of(*count) else {
                return Err(OrOutOfMemory::Error(ty));
            };
            let element = type_to_type_expression(alloc, element.get())?;
            Ok(with_argument(alloc, "array", element, Some(count))?)
        }
        Type::Vec(count, component) => {
            let component = type_to_type_expression(alloc, component.get())?;
            Ok(vector_to_type(alloc, *count, component)?)
        }
        Type::Ptr(space, stored, access) => {
            let stored = type_to_type_expression(alloc, stored.get())?;
            Ok(pointer_to_type(alloc, *space, stored, *access)?)
        }
        Type::AbstractInt | Type::AbstractFloat | Type::Ref(_, _, _) => {
            Err(OrOutOfMemory::Error(ty))
        }
    }
}
