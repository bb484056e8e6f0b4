//! Operators between two values (WGSL, "Arithmetic Expressions", "Comparison Expressions", "Logical Expressions", "Bit Expressions").

ghost use Rattle.std.specs.Prelude.{◌≡◌};
ghost use Rattle.wgsl_instance.specs.declared.tree.Instance.{out-Instance};
ghost use Rattle.wgsl_instance.specs.Answer.{Answers, collected};
ghost use Rattle.wgsl_instance.specs.Typed.{type_of};
ghost use Rattle.wgsl_instance_operators.specs.Operators as spec;

use std::alloc::Global;
use wgsl_base::Items;
use wgsl_instance::{Instance, VecInstance};
use wgsl_scalar::{ScalarType, binary_scalar_op};
use wgsl_shader_type::{Error, LiteralInstance, Type};
use wgsl_type_operators::type_binary_op;
use wgsl_words::{BinaryOperator, ShaderStage};

/// The type of the first scalar of a list that has one.
fn first_type(components: &[LiteralInstance]) -> ScalarType
    ensures { result ≡ spec.first_type components.now }
{
    match components.first() {
        Some(first) => wgsl_scalar::type_of(*first),
        None => ScalarType::Bool,
    }
}

/// A vector of the components that an operator gave.
pub(crate) fn vector_of(components: Items<LiteralInstance>) -> Instance
    ensures { result ≡ spec.vector_of components }
{
    let ty = first_type(components.as_slice());
    Instance::Vec(VecInstance { ty, components })
}

fn of_pairs(
    alloc: Global,
    operator: BinaryOperator,
    left: &[LiteralInstance],
    right: &[LiteralInstance],
    stage: ShaderStage,
) -> Result<Items<LiteralInstance>, Error>
    ensures { Answers (spec.of_pairs stage operator left.now right.now) result }
{
    let mut components = Items::new(alloc);
    let mut rest = right;
    for first in left {
        match rest.split_first() {
            Some((second, others)) => {
                components.push(binary_scalar_op(operator, *first, *second, stage)?)?;
                rest = others;
            }
            None => return Ok(components),
        }
    }
    Ok(components)
}

fn with_right(
    alloc: Global,
    operator: BinaryOperator,
    left: &[LiteralInstance],
    right: LiteralInstance,
    stage: ShaderStage,
) -> Result<Items<LiteralInstance>, Error>
    ensures { Answers (collected (spec.with_right stage operator right) left.now) result }
{
    let mut components = Items::new(alloc);
    for component in left {
        components.push(binary_scalar_op(operator, *component, right, stage)?)?;
    }
    Ok(components)
}

fn with_left(
    alloc: Global,
    operator: BinaryOperator,
    left: LiteralInstance,
    right: &[LiteralInstance],
    stage: ShaderStage,
) -> Result<Items<LiteralInstance>, Error>
    ensures { Answers (collected (spec.with_left stage operator left) right.now) result }
{
    let mut components = Items::new(alloc);
    for component in right {
        components.push(binary_scalar_op(operator, left, *component, stage)?)?;
    }
    Ok(components)
}

/// The refusal of values that aren't scalars or vectors.
fn no_operands(
    alloc: Global,
    operator: BinaryOperator,
    left: &Instance,
    right: &Instance,
) -> Result<Instance, Error>
    ensures { Answers (spec.no_operands operator left.now right.now) result }
{
    let left = left.ty(alloc)?;
    let right = right.ty(alloc)?;
    Err(Error::Binary(operator, left, right))
}

fn of_vector(
    alloc: Global,
    operator: BinaryOperator,
    left: &Instance,
    vector: &VecInstance,
    right: &Instance,
    stage: ShaderStage,
) -> Result<Instance, Error>
    ensures { Answers (spec.by_vector stage operator (spec.no_operands operator left.now right.now) vector.now (out-Instance right.now)) result }
{
    match right {
        Instance::Literal(y) => Ok(vector_of(with_right(
            alloc,
            operator,
            vector.components.as_slice(),
            *y,
            stage,
        )?)),
        Instance::Vec(y) => Ok(vector_of(of_pairs(
            alloc,
            operator,
            vector.components.as_slice(),
            y.components.as_slice(),
            stage,
        )?)),
        _ => no_operands(alloc, operator, left, right),
    }
}

fn of_scalar(
    alloc: Global,
    operator: BinaryOperator,
    left: &Instance,
    scalar: LiteralInstance,
    right: &Instance,
    stage: ShaderStage,
) -> Result<Instance, Error>
    ensures { Answers (spec.by_right stage operator (spec.no_operands operator left.now right.now) scalar (out-Instance right.now)) result }
{
    match right {
        Instance::Literal(y) => Ok(Instance::Literal(binary_scalar_op(
            operator, scalar, *y, stage,
        )?)),
        Instance::Vec(y) => Ok(vector_of(with_left(
            alloc,
            operator,
            scalar,
            y.components.as_slice(),
            stage,
        )?)),
        _ => no_operands(alloc, operator, left, right),
    }
}

/// Scalar by scalar, where the types have a result.
fn combined(
    alloc: Global,
    operator: BinaryOperator,
    left: &Instance,
    right: &Instance,
    stage: ShaderStage,
) -> Result<Instance, Error>
    ensures { Answers (spec.combined stage operator left.now right.now) result }
{
    match left {
        Instance::Literal(x) => of_scalar(alloc, operator, left, *x, right, stage),
        Instance::Vec(x) => of_vector(alloc, operator, left, x, right, stage),
        _ => no_operands(alloc, operator, left, right),
    }
}

/// Whether two types have a result; else they are `Binary`.
fn check_types(
    alloc: Global,
    operator: BinaryOperator,
    left: &Type,
    right: &Type,
) -> Result<(), Error>
    ensures { spec.ChecksTypes operator left.now right.now result }
{
    drop(type_binary_op(alloc, operator, left, right)?);
    Ok(())
}

/// Whether a type and an operand's type have a result.
fn check_right(
    alloc: Global,
    operator: BinaryOperator,
    left: &Type,
    right: &Instance,
) -> Result<(), Error>
    ensures { spec.ChecksTypes operator left.now (type_of right.now) result }
{
    let right = right.ty(alloc)?;
    let checked = check_types(alloc, operator, left, &right);
    drop(right);
    checked
}

/// Whether the operands' types have a result.
fn check_operands(
    alloc: Global,
    operator: BinaryOperator,
    left: &Instance,
    right: &Instance,
) -> Result<(), Error>
    ensures { spec.ChecksTypes operator (type_of left.now) (type_of right.now) result }
{
    let left = left.ty(alloc)?;
    let checked = check_right(alloc, operator, &left, right);
    drop(left);
    checked
}

/// The value of an operator between two values, on scalars, componentwise on vectors of one length, and for `+ - * / %` on a
/// vector and a scalar in either order. Where the operands' types have no result they are `Binary`, with both types; else the
/// fault of the first component that has one, as `binary_scalar_op` gives it.
pub fn call_binary_op(
    alloc: Global,
    operator: BinaryOperator,
    left: &Instance,
    right: &Instance,
    stage: ShaderStage,
) -> Result<Instance, Error>
    ensures { spec.AnswersBinaryValue stage operator left.now right.now result }
{
    check_operands(alloc, operator, left, right)?;
    combined(alloc, operator, left, right, stage)
}
