//! Operators in front of a value (WGSL, "Unary Expressions", "Address-Of Expression", "Indirection Expression").

ghost use Rattle.std.specs.Prelude.{◌≡◌};
ghost use Rattle.wgsl_scalar.specs.Operators as on_scalars;
ghost use Rattle.wgsl_instance.specs.Answer.{Answers, collected};
ghost use Rattle.wgsl_instance_operators.specs.Operators as spec;

use crate::binary::vector_of;
use std::alloc::Global;
use wgsl_base::Items;
use wgsl_instance::Instance;
use wgsl_scalar::unary_scalar_op;
use wgsl_shader_type::{Error, LiteralInstance};
use wgsl_type_operators::type_unary_op;
use wgsl_words::{ShaderStage, UnaryOperator};

fn of_components(
    alloc: Global,
    operator: UnaryOperator,
    operands: &[LiteralInstance],
    stage: ShaderStage,
) -> Result<Items<LiteralInstance>, Error>
    ensures { Answers (collected (on_scalars.unary_value stage operator) operands.now) result }
{
    let mut components = Items::new(alloc);
    for operand in operands {
        components.push(unary_scalar_op(operator, *operand, stage)?)?;
    }
    Ok(components)
}

/// The refusal of a value that is no scalar or vector.
fn no_operand(alloc: Global, operator: UnaryOperator, operand: &Instance) -> Result<Instance, Error>
    ensures { Answers (spec.no_operand operator operand.now) result }
{
    let ty = operand.ty(alloc)?;
    Err(Error::Unary(operator, ty))
}

/// Scalar by scalar, where the type has a result.
fn each_component(
    alloc: Global,
    operator: UnaryOperator,
    operand: &Instance,
    stage: ShaderStage,
) -> Result<Instance, Error>
    ensures { Answers (spec.each_component stage operator operand.now) result }
{
    match operand {
        Instance::Literal(x) => Ok(Instance::Literal(unary_scalar_op(operator, *x, stage)?)),
        Instance::Vec(x) => Ok(vector_of(of_components(
            alloc,
            operator,
            x.components.as_slice(),
            stage,
        )?)),
        _ => no_operand(alloc, operator, operand),
    }
}

/// Whether the operand's type has a result; else it is `Unary`.
fn check_type(alloc: Global, operator: UnaryOperator, operand: &Instance) -> Result<(), Error>
    ensures { spec.ChecksUnary operator operand.now result }
{
    let ty = operand.ty(alloc)?;
    let found = type_unary_op(alloc, operator, &ty);
    drop(ty);
    drop(found?);
    Ok(())
}

fn of_scalars(
    alloc: Global,
    operator: UnaryOperator,
    operand: &Instance,
    stage: ShaderStage,
) -> Result<Instance, Error>
    ensures { spec.AnswersUnaryValue stage operator operand.now result }
{
    check_type(alloc, operator, operand)?;
    each_component(alloc, operator, operand, stage)
}

/// The value of an operator in front of a value. `-`, `!` and `~` go over scalars, and over vectors component by component;
/// an operand whose type has no result is `Unary`, with that type. `&` is `op_ref` and `*` is `op_deref`.
pub fn call_unary_op(
    alloc: Global,
    operator: UnaryOperator,
    operand: &Instance,
    stage: ShaderStage,
) -> Result<Instance, Error>
    ensures { spec.AnswersUnaryCall stage operator operand.now result }
{
    match operator {
        UnaryOperator::AddressOf => operand.op_ref(alloc),
        UnaryOperator::Indirection => operand.op_deref(alloc),
        UnaryOperator::LogicalNegation
        | UnaryOperator::Negation
        | UnaryOperator::BitwiseComplement => { of_scalars(alloc, operator, operand, stage) }
    }
}
