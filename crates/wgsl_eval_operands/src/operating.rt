//! Operators.

use wgsl_eval_machine::{Machine, Operand, Stop};
use wgsl_instance::Instance;
use wgsl_instance_operators::{call_binary_op, call_unary_op};
use wgsl_shader_type::{Error, LiteralInstance, Type};
use wgsl_words::{BinaryOperator, ShaderStage, UnaryOperator};

/// An operator, on the uppermost operand.
pub fn unary(machine: &mut Machine, operator: UnaryOperator) -> Result<(), Stop> {
    let operand = machine.pop()?;
    let value = call_unary_op(machine.alloc, operator, &operand, machine.stage);
    drop(operand);
    let value = machine.answered(value)?;
    machine.push_value(value)
}

/// `*`, on the uppermost operand.
pub fn indirection(machine: &mut Machine) -> Result<(), Stop> {
    let operand = machine.pop()?;
    let value = operand.op_deref(machine.alloc);
    drop(operand);
    let value = machine.answered(value)?;
    machine.push_value(value)
}

/// `&`, on the uppermost operand.
pub fn address_of(machine: &mut Machine) -> Result<(), Stop> {
    let operand = machine.pop()?;
    let value = operand.op_ref(machine.alloc);
    drop(operand);
    let value = machine.answered(value)?;
    machine.push_value(value)
}

/// An operator, on the two uppermost operands.
pub fn binary(machine: &mut Machine, operator: BinaryOperator) -> Result<(), Stop> {
    let right = machine.pop()?;
    let value = with_left(machine, operator, &right);
    drop(right);
    let value = value?;
    machine.push_value(value)
}

/// An operator, on the uppermost operand, which is taken off, and a right one.
fn with_left(
    machine: &mut Machine,
    operator: BinaryOperator,
    right: &Instance,
) -> Result<Instance, Stop> {
    let left = machine.pop()?;
    let stage: ShaderStage = machine.stage;
    let value = call_binary_op(machine.alloc, operator, &left, right, stage);
    drop(left);
    machine.answered(value)
}

/// The truth value that the uppermost operand is.
fn top_truth(machine: &Machine) -> Option<bool> {
    match machine.operands.top() {
        Some(Operand::Value(Instance::Literal(LiteralInstance::Bool(b)))) => Some(*b),
        _ => None,
    }
}

/// Stops, since an operand of `&&` or `||` is no truth value.
fn refuse_side<T>(machine: &mut Machine, operator: BinaryOperator) -> Result<T, Stop> {
    let operand = machine.pop()?;
    let ty = operand.ty(machine.alloc);
    drop(operand);
    let ty = ty?;
    machine.refuse_operation(Error::Binary(operator, ty, Type::Bool))
}

/// Whether the uppermost operand is the answer of `&&` or `||` already. Else it is taken off.
pub fn decided(machine: &mut Machine, operator: BinaryOperator) -> Result<bool, Stop> {
    match top_truth(machine) {
        Some(left) => {
            if left == matches!(operator, BinaryOperator::ShortCircuitOr) {
                Ok(true)
            } else {
                drop(machine.pop_operand());
                Ok(false)
            }
        }
        None => refuse_side(machine, operator),
    }
}

/// The uppermost operand has to be a truth value.
pub fn truth_of(machine: &mut Machine, operator: BinaryOperator) -> Result<(), Stop> {
    match top_truth(machine) {
        Some(_) => Ok(()),
        None => refuse_side(machine, operator),
    }
}
