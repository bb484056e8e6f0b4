//! The types that operators give.

ghost use Rattle.std.specs.Prelude.{◌≡◌, IfOk};
ghost use Rattle.wgsl_type_operators.specs.Answer.{AnswersBinary, AnswersUnary};
ghost use Rattle.wgsl_type_operators.specs.Operator as spec;
ghost use Rattle.wgsl_type_operators.specs.ResultOf as plain;

use std::alloc::{AllocError, Global};
use wgsl_shader_type::{AccessMode, AddressSpace, Boxed, Error, Type, convert_ty};
use wgsl_words::{BinaryOperator, UnaryOperator};

fn is_arithmetic(operator: BinaryOperator) -> bool
    ensures { result ≡ spec.is_arithmetic operator }
{
    matches!(
        operator,
        BinaryOperator::Addition
            | BinaryOperator::Subtraction
            | BinaryOperator::Multiplication
            | BinaryOperator::Division
            | BinaryOperator::Remainder
    )
}

fn is_comparison(operator: BinaryOperator) -> bool
    ensures { result ≡ spec.is_comparison operator }
{
    matches!(
        operator,
        BinaryOperator::Equality
            | BinaryOperator::Inequality
            | BinaryOperator::LessThan
            | BinaryOperator::LessThanEqual
            | BinaryOperator::GreaterThan
            | BinaryOperator::GreaterThanEqual
    )
}

fn is_shift(operator: BinaryOperator) -> bool
    ensures { result ≡ spec.is_shift operator }
{
    matches!(
        operator,
        BinaryOperator::ShiftLeft | BinaryOperator::ShiftRight
    )
}

fn is_logical(operator: BinaryOperator) -> bool
    ensures { result ≡ spec.is_logical operator }
{
    matches!(
        operator,
        BinaryOperator::ShortCircuitOr | BinaryOperator::ShortCircuitAnd
    )
}

/// Whether both operands may be of this scalar type.
fn is_taken(operator: BinaryOperator, ty: &Type) -> bool
    ensures { result ≡ spec.takes operator ty.now }
{
    match operator {
        BinaryOperator::ShortCircuitOr | BinaryOperator::ShortCircuitAnd => ty.is_bool(),
        BinaryOperator::Addition
        | BinaryOperator::Subtraction
        | BinaryOperator::Multiplication
        | BinaryOperator::Division
        | BinaryOperator::Remainder
        | BinaryOperator::LessThan
        | BinaryOperator::LessThanEqual
        | BinaryOperator::GreaterThan
        | BinaryOperator::GreaterThanEqual => ty.is_numeric(),
        BinaryOperator::Equality | BinaryOperator::Inequality => ty.is_scalar(),
        BinaryOperator::BitwiseOr | BinaryOperator::BitwiseAnd => ty.is_bool() || ty.is_integer(),
        BinaryOperator::BitwiseXor => ty.is_integer(),
        BinaryOperator::ShiftLeft | BinaryOperator::ShiftRight => false,
    }
}

/// What two operands of one type give.
fn given_type(alloc: Global, operator: BinaryOperator, ty: &Type) -> Result<Type, AllocError>
    ensures { IfOk result (λ given. given ≡ spec.gives operator ty.now) }
{
    if is_comparison(operator) {
        Ok(Type::Bool)
    } else {
        ty.clone(alloc)
    }
}

/// What scalars give, or nothing where the operator takes none such.
fn component_type(
    alloc: Global,
    operator: BinaryOperator,
    left: &Type,
    right: &Type,
) -> Result<Option<Type>, AllocError>
    ensures { IfOk result (λ found. found ≡ plain.component operator left.now right.now) }
{
    if is_shift(operator) {
        if left.is_integer() && right.is_convertible_to(&Type::U32) {
            return Ok(Some(left.clone(alloc)?));
        }
        return Ok(None);
    }
    match convert_ty(left, right) {
        None => Ok(None),
        Some(common) => {
            if is_taken(operator, common) {
                Ok(Some(given_type(alloc, operator, common)?))
            } else {
                Ok(None)
            }
        }
    }
}

/// A vector of a component that may be none.
fn in_vector(alloc: Global, count: u8, component: Option<Type>) -> Result<Option<Type>, AllocError>
    ensures { IfOk result (λ found. found ≡ plain.in_vector count component) }
{
    match component {
        None => Ok(None),
        Some(component) => Ok(Some(Type::Vec(count, Boxed::new(alloc, component)?))),
    }
}

/// What two operands give, by their shapes.
fn binary_type(
    alloc: Global,
    operator: BinaryOperator,
    left: &Type,
    right: &Type,
) -> Result<Option<Type>, AllocError>
    ensures { IfOk result (λ found. found ≡ plain.binary_result operator left.now right.now) }
{
    match left {
        Type::Vec(count, component) => match right {
            Type::Vec(count_right, component_right) => {
                if *count != *count_right || is_logical(operator) {
                    return Ok(None);
                }
                let found = component_type(
                    alloc,
                    operator,
                    component.get(),
                    component_right.get(),
                )?;
                in_vector(alloc, *count, found)
            }
            _ => {
                if !is_arithmetic(operator) {
                    return Ok(None);
                }
                let found = component_type(alloc, operator, component.get(), right)?;
                in_vector(alloc, *count, found)
            }
        },
        _ => match right {
            Type::Vec(count, component) => {
                if !is_arithmetic(operator) {
                    return Ok(None);
                }
                let found = component_type(alloc, operator, left, component.get())?;
                in_vector(alloc, *count, found)
            }
            _ => component_type(alloc, operator, left, right),
        },
    }
}

/// The result of a binary operator: that of the one candidate signature of the least sum of conversion ranks.
#[tactic(auto, using(crate::proofs::Candidates::result_found, crate::proofs::Candidates::none_found))]
pub fn type_binary_op(
    alloc: Global,
    operator: BinaryOperator,
    left: &Type,
    right: &Type,
) -> Result<Type, Error>
    ensures { AnswersBinary operator left.now right.now result }
{
    match binary_type(alloc, operator, left, right)? {
        Some(given) => Ok(given),
        None => {
            let left = left.clone(alloc)?;
            let right = right.clone(alloc)?;
            Err(Error::Binary(operator, left, right))
        }
    }
}

fn is_taken_alone(operator: UnaryOperator, ty: &Type) -> bool
    ensures { result ≡ spec.unary_takes operator ty.now }
{
    match operator {
        UnaryOperator::LogicalNegation => ty.is_bool(),
        UnaryOperator::Negation => ty.is_numeric() && !ty.is_u32(),
        UnaryOperator::BitwiseComplement => ty.is_integer(),
        UnaryOperator::AddressOf | UnaryOperator::Indirection => false,
    }
}

/// What one operand gives, by its shape.
fn unary_type(
    alloc: Global,
    operator: UnaryOperator,
    operand: &Type,
) -> Result<Option<Type>, AllocError>
    ensures { IfOk result (λ found. found ≡ plain.unary_result operator operand.now) }
{
    match operand {
        Type::Ref(space, stored, access) => match operator {
            UnaryOperator::AddressOf => pointer_to(alloc, *space, stored.get(), *access),
            _ => Ok(None),
        },
        Type::Ptr(space, stored, access) => match operator {
            UnaryOperator::Indirection => {
                let stored = stored.get().clone(alloc)?;
                Ok(Some(Type::Ref(*space, Boxed::new(alloc, stored)?, *access)))
            }
            _ => Ok(None),
        },
        Type::Vec(_, component) => {
            if is_taken_alone(operator, component.get()) {
                Ok(Some(operand.clone(alloc)?))
            } else {
                Ok(None)
            }
        }
        _ => {
            if is_taken_alone(operator, operand) {
                Ok(Some(operand.clone(alloc)?))
            } else {
                Ok(None)
            }
        }
    }
}

fn pointer_to(
    alloc: Global,
    space: AddressSpace,
    stored: &Type,
    access: AccessMode,
) -> Result<Option<Type>, AllocError>
    ensures { IfOk result (λ found. found ≡ plain.address_of space stored.now access) }
{
    if space == AddressSpace::Handle {
        return Ok(None);
    }
    let stored = stored.clone(alloc)?;
    Ok(Some(Type::Ptr(space, Boxed::new(alloc, stored)?, access)))
}

/// The refusal of an operand.
fn unary_fault(alloc: Global, operator: UnaryOperator, operand: &Type) -> Result<Error, AllocError>
    ensures { IfOk result (λ fault. fault ≡ plain.unary_fault operator operand.now) }
{
    if let UnaryOperator::AddressOf = operator {
        if let Type::Ref(AddressSpace::Handle, _, _) = operand {
            return Ok(Error::PtrHandle);
        }
    }
    Ok(Error::Unary(operator, operand.clone(alloc)?))
}

/// The result of a unary operator: that of the one candidate signature of the least conversion rank.
#[tactic(auto, using(crate::proofs::UnaryCandidates::result_found, crate::proofs::UnaryCandidates::none_found))]
pub fn type_unary_op(alloc: Global, operator: UnaryOperator, operand: &Type) -> Result<Type, Error>
    ensures { AnswersUnary operator operand.now result }
{
    match unary_type(alloc, operator, operand)? {
        Some(given) => Ok(given),
        None => Err(unary_fault(alloc, operator, operand)?),
    }
}
