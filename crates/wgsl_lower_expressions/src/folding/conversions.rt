//! Conversions that are written as calls of constructors: of arguments and of what is returned.

use wgsl_base::Items;
use wgsl_eval::{Evaluator, Stop};
use wgsl_eval_names::{Declared, Meaning};
use wgsl_expressions::{
    BinaryOperator, Expression, ExpressionNode, FunctionCall, TypeExpression, UnaryOperator,
};
use wgsl_shader_type::{Type, conversion_rank};
use wgsl_type_operators::{type_binary_op, type_unary_op};

/// The type to which a value of one type is converted where another is wanted, if that is written: arrays and types that don't convert
/// are left alone.
pub fn conversion(have: Type, wanted: Type) -> Option<Type> {
    let is_written = have != wanted
        && !matches!(&have, Type::Array(_, _))
        && conversion_rank(&have, &wanted).is_some();
    drop(have);
    if is_written {
        Some(wanted)
    } else {
        drop(wanted);
        None
    }
}

/// The conversion of a returned value, where the function has a type.
pub fn returned_conversion(
    evaluator: &mut Evaluator<'_>,
    node: &ExpressionNode,
    ty: Option<&Type>,
) -> Result<Option<Type>, Stop> {
    let Some(ty) = ty else {
        return Ok(None);
    };
    let have = evaluator.value_type(node)?;
    match ty.clone(evaluator.alloc()) {
        Ok(wanted) => Ok(conversion(have, wanted)),
        Err(error) => {
            drop(have);
            Err(Stop::from(error))
        }
    }
}

fn both_types(left: Result<Type, Stop>, right: Result<Type, Stop>) -> Result<(Type, Type), Stop> {
    let left = left?;
    let right = right?;
    Ok((left, right))
}

/// The type of an operation on values of two types.
fn binary_type(
    evaluator: &mut Evaluator<'_>,
    operator: BinaryOperator,
    left: Result<Type, Stop>,
    right: Result<Type, Stop>,
) -> Result<Type, Stop> {
    let (left, right) = both_types(left, right)?;
    let made = type_binary_op(evaluator.alloc(), operator, &left, &right);
    drop(left);
    drop(right);
    evaluator.answered(made)
}

fn unary_type(
    evaluator: &mut Evaluator<'_>,
    operator: UnaryOperator,
    operand: Result<Type, Stop>,
) -> Result<Type, Stop> {
    let operand = operand?;
    let made = type_unary_op(evaluator.alloc(), operator, &operand);
    drop(operand);
    evaluator.answered(made)
}

/// The type of the result of a function of the module, if one is called that has it.
fn result_type(evaluator: &mut Evaluator<'_>, call: &FunctionCall) -> Result<Option<Type>, Stop> {
    let target = evaluator.target(&call.ty)?;
    let Meaning::Module(number) = target.meaning else {
        return Ok(None);
    };
    match evaluator.directory().declared(number) {
        Declared::Function(header) => match header.return_type {
            Some(ty) => Ok(Some(evaluator.module_type(ty)?)),
            None => Ok(None),
        },
        _ => Ok(None),
    }
}

/// The type of the value of an expression, where it and all its parts are known to have types: that of the result of a function is found
/// without its arguments.
fn found_type(evaluator: &mut Evaluator<'_>, node: &ExpressionNode) -> Result<Type, Stop> {
    match node.node() {
        Expression::Parenthesized(x) => found_type(evaluator, &x.expression),
        Expression::Binary(x) => {
            let left = found_type(evaluator, &x.left);
            let right = found_type(evaluator, &x.right);
            binary_type(evaluator, x.operator, left, right)
        }
        Expression::Unary(x) => match x.operator {
            UnaryOperator::AddressOf => evaluator.value_type(node),
            UnaryOperator::Indirection => evaluator.value_type(node),
            operator => {
                let operand = found_type(evaluator, &x.operand);
                unary_type(evaluator, operator, operand)
            }
        },
        Expression::FunctionCall(x) => match result_type(evaluator, x.get())? {
            Some(ty) => Ok(ty),
            None => evaluator.value_type(node),
        },
        Expression::Literal(_) => evaluator.value_type(node),
        Expression::NamedComponent(_) => evaluator.value_type(node),
        Expression::Indexing(_) => evaluator.value_type(node),
        Expression::TypeOrIdentifier(_) => evaluator.value_type(node),
    }
}

/// The type of an argument, where it may be known that it has one.
fn argument_type(
    evaluator: &mut Evaluator<'_>,
    argument: &ExpressionNode,
    is_typed: bool,
) -> Result<Type, Stop> {
    if is_typed {
        found_type(evaluator, argument)
    } else {
        evaluator.value_type(argument)
    }
}

fn argument_conversion(
    evaluator: &mut Evaluator<'_>,
    argument: &ExpressionNode,
    parameter: &TypeExpression,
    is_typed: bool,
) -> Result<Option<Type>, Stop> {
    let have = argument_type(evaluator, argument, is_typed)?;
    match evaluator.module_type(parameter) {
        Ok(wanted) => Ok(conversion(have, wanted)),
        Err(stop) => {
            drop(have);
            Err(stop)
        }
    }
}

/// The conversions of the arguments of a call, where a function of the module is called. It may be known that they have types.
#[inline(never)]
pub(crate) fn argument_conversions(
    evaluator: &mut Evaluator<'_>,
    call: &FunctionCall,
    is_typed: bool,
) -> Result<Items<Option<Type>>, Stop> {
    let mut conversions = Items::new(evaluator.alloc());
    let target = evaluator.target(&call.ty)?;
    let Meaning::Module(number) = target.meaning else {
        return Ok(conversions);
    };
    if let Declared::Function(header) = evaluator.directory().declared(number) {
        for (argument, parameter) in call
            .arguments
            .as_slice()
            .iter()
            .zip(header.parameters.iter())
        {
            conversions.push(argument_conversion(evaluator, argument, &parameter.ty, is_typed)?)?;
        }
    }
    Ok(conversions)
}
