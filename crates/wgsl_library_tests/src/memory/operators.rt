//! Operators at each stage. The expected values and faults are those of the project's description.

use crate::memory::answer::{Kind, error_kind, gives, instances};
use std::alloc::Global;
use std::test::Fail;
use wgsl_instance::Instance;
use wgsl_instance_operators::call_binary_op;
use wgsl_shader_type::{Error, LiteralInstance};
use wgsl_words::{BinaryOperator, ShaderStage};

const ADD: BinaryOperator = BinaryOperator::Addition;

const DIVIDE: BinaryOperator = BinaryOperator::Division;

const SHIFT: BinaryOperator = BinaryOperator::ShiftLeft;

/// Two scalars.
type Pair = (LiteralInstance, LiteralInstance);

fn applied(
    alloc: Global,
    operator: BinaryOperator,
    operands: Pair,
    stage: ShaderStage,
) -> Result<Instance, Error> {
    let operands = instances(alloc, &[operands.0, operands.1])?;
    match operands.as_slice() {
        [left, right] => call_binary_op(alloc, operator, left, right, stage),
        _ => Err(Error::OutOfMemory),
    }
}

/// Whether an operator on two scalars gives this scalar when the shader runs.
fn runs_as(
    alloc: Global,
    operator: BinaryOperator,
    operands: Pair,
    wanted: LiteralInstance,
) -> bool {
    gives(
        applied(alloc, operator, operands, ShaderStage::Exec),
        wanted,
    )
}

/// Whether an operator on two scalars has this error at a stage.
fn fails(
    alloc: Global,
    operator: BinaryOperator,
    operands: Pair,
    stage: ShaderStage,
    wanted: Kind,
) -> bool {
    error_kind(applied(alloc, operator, operands, stage)) == wanted
}

#[test]
fn sums_fit_or_wrap(rt: HostRuntime) -> Result<(), Fail> {
    let alloc = rt.alloc();
    let operands = (LiteralInstance::I32(2147483647), LiteralInstance::I32(1));
    let least = LiteralInstance::I32(-2147483648);
    assert!(rt; fails(alloc, ADD, operands, ShaderStage::Const, Kind::AddOverflow));
    assert!(rt; runs_as(alloc, ADD, operands, least));
    Ok(())
}

#[test]
fn shift_amounts(rt: HostRuntime) -> Result<(), Fail> {
    let alloc = rt.alloc();
    let one = LiteralInstance::U32(1);
    let operands = (one, LiteralInstance::U32(32));
    assert!(rt;
        fails(
            alloc,
            SHIFT,
            operands,
            ShaderStage::Const,
            Kind::ShlOverflow(32)
        )
    );
    assert!(rt; runs_as(alloc, SHIFT, operands, one));
    Ok(())
}

#[test]
fn division_by_zero(rt: HostRuntime) -> Result<(), Fail> {
    let alloc = rt.alloc();
    let seven = LiteralInstance::U32(7);
    let operands = (seven, LiteralInstance::U32(0));
    assert!(rt;
        fails(
            alloc,
            DIVIDE,
            operands,
            ShaderStage::Override,
            Kind::DivByZero
        )
    );
    assert!(rt; runs_as(alloc, DIVIDE, operands, seven));
    Ok(())
}
