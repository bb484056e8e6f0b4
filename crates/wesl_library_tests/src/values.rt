//! Constructors by their own names, values and types as expressions, types of expressions, scopes.

use crate::resolvers::unit;
use std::alloc::Global;
use std::test::Fail;
use wgsl_base::{Items, Text};
use wgsl_context::Context;
use wgsl_declarations::{GlobalDeclaration, TranslationUnit};
use wgsl_expressions::{Expression, ExpressionNode, TypeExpression};
use wgsl_instance::{ArrayInstance, Instance, StructInstance};
use wgsl_memory::Scope;
use wgsl_shader_type::{LiteralInstance, StructType, Type};
use wgsl_to_expr::{array_to_expr, struct_to_expr, type_to_expr};

fn is_scalar<E: Drop>(answer: Result<Instance, E>, wanted: LiteralInstance) -> bool {
    match answer {
        Ok(Instance::Literal(value)) => value == wanted,
        _ => false,
    }
}

fn is_vector<E: Drop>(answer: Result<Instance, E>) -> bool {
    matches!(answer, Ok(Instance::Vec(_)))
}

fn constructs(alloc: Global) -> bool {
    let one = [Instance::Literal(LiteralInstance::AbstractInt(1))];
    is_scalar(
        wgsl_instance_operators::bool(alloc, &one),
        LiteralInstance::Bool(true),
    ) && is_scalar(
        wgsl_instance_operators::i32(alloc, &one),
        LiteralInstance::I32(1),
    ) && is_scalar(
        wgsl_instance_operators::u32(alloc, &one),
        LiteralInstance::U32(1),
    ) && is_vector(wgsl_instance_operators::vec(alloc, 2, None, &one))
}

#[test]
fn constructors_construct(rt: HostRuntime) -> Result<(), Fail> {
    assert!(rt; constructs(rt.alloc()));
    Ok(())
}

fn prints<E: Drop>(alloc: Global, answer: Result<Expression, E>, wanted: &str) -> Option<bool> {
    let expression = answer.ok()?;
    let text = format!(in alloc; "{expression}").ok()?;
    Some(text.as_str() == wanted)
}

fn array(alloc: Global) -> Option<ArrayInstance> {
    let mut components = Items::new(alloc);
    components
        .push(Instance::Literal(LiteralInstance::U32(7)))
        .ok()?;
    Some(ArrayInstance {
        element: Type::U32,
        components,
        runtime_sized: false,
    })
}

fn structure(alloc: Global) -> Option<StructInstance> {
    let name = Text::from_str(alloc, "S").ok()?;
    let mut members = Items::new(alloc);
    members
        .push(Instance::Literal(LiteralInstance::U32(7)))
        .ok()?;
    let ty = StructType {
        name,
        members: Items::new(alloc),
    };
    Some(StructInstance { ty, members })
}

fn array_prints(alloc: Global) -> Option<bool> {
    let array = array(alloc)?;
    prints(alloc, array_to_expr(alloc, &array), "array(7u)")
}

fn structure_prints(alloc: Global) -> Option<bool> {
    let structure = structure(alloc)?;
    prints(alloc, struct_to_expr(alloc, &structure), "S(7u)")
}

#[test]
fn values_are_written(rt: HostRuntime) -> Result<(), Fail> {
    let alloc = rt.alloc();
    assert_eq!(rt; array_prints(alloc), Some(true));
    assert_eq!(rt; structure_prints(alloc), Some(true));
    let written = prints(alloc, type_to_expr(alloc, &Type::U32), "u32");
    assert_eq!(rt; written, Some(true));
    Ok(())
}

/// The variable's type, and its initializer.
fn variable(unit: &TranslationUnit) -> Option<(&TypeExpression, &ExpressionNode)> {
    match unit.global_declarations.as_slice().last()?.node() {
        GlobalDeclaration::Declaration(declaration) => {
            Some((declaration.ty.as_ref()?, declaration.initializer.as_ref()?))
        }
        _ => None,
    }
}

/// Whether an answer is the type `u32`.
fn is_u32<E: Drop>(answer: Result<Type, E>) -> bool {
    matches!(answer, Ok(Type::U32))
}

/// Whether a variable's type and its initializer are of the type `u32`, of which there is an alias.
fn types(alloc: Global) -> Option<bool> {
    let unit = unit(
        alloc,
        "const a = 1u; alias T = u32; var<private> v: T = a + 1;",
    )?;
    let (ty, value) = variable(unit.get())?;
    let mut context = Context::new(alloc, unit.get()).ok()?;
    Some(is_u32(context.eval_ty(value)) && is_u32(context.ty_eval_ty(ty)))
}

#[test]
fn types_are_told(rt: HostRuntime) -> Result<(), Fail> {
    assert_eq!(rt; types(rt.alloc()), Some(true));
    Ok(())
}

/// Whether a name that is added behind a transparent level is not added again, and goes with the level.
fn hides(alloc: Global) -> Option<bool> {
    let mut scope: Scope<u8> = Scope::new(alloc);
    scope.push().ok()?;
    let is_new = scope.add(alloc, "x", 1).ok()?;
    scope.push_transparent().ok()?;
    let is_added_twice = scope.add(alloc, "x", 2).ok()?;
    Some(is_new && !is_added_twice && scope.get("x") == Some(&1))
}

#[test]
fn scopes_are_transparent(rt: HostRuntime) -> Result<(), Fail> {
    assert_eq!(rt; hides(rt.alloc()), Some(true));
    Ok(())
}
