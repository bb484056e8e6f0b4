//! Operators on scalars. A line of such cases, which `tools/scalar_cases.py` computes in another way, is a call, its stage,
//! operator and left operand, where it has them, and the result for each of the operands that the first line lists: a value, or the
//! letter of an error.

use crate::cut;
use std::alloc::{AllocError, Global};
use std::fmt::{Debug, Display, Write};
use wgsl_scalar::{
    IntegerType, ScalarType, ShaderStage, binary_scalar_op, construct_scalar, convert_scalar,
    unary_scalar_op,
};
use wgsl_shader_type::{Error, LiteralInstance};
use wgsl_words::{BinaryOperator, UnaryOperator};

/// Tells of the results of a text that differ. How many results there are.
pub fn compare_all(alloc: Global, report: &mut String, cases: &str) -> Result<u64, AllocError> {
    let mut count: u64 = 0;
    let (operands, rows) = cases.split_once('\n').unwrap_or((cases, ""));
    for line in rows.lines() {
        if let Some((call, results)) = line.rsplit_once('\t') {
            count = count.saturating_add(compare_row(alloc, report, call, operands, results)?);
        }
    }
    Ok(count)
}

/// Compares what a call gives for each operand. How many there are.
fn compare_row(
    alloc: Global,
    report: &mut String,
    call: &str,
    operands: &str,
    results: &str,
) -> Result<u64, AllocError> {
    let mut count: u64 = 0;
    let mut operands = operands.split(' ');
    for wanted in results.split(' ') {
        compare(alloc, report, call, operands.next().unwrap_or(""), wanted)?;
        count = count.saturating_add(1);
    }
    Ok(count)
}

fn compare(
    alloc: Global,
    report: &mut String,
    call: &str,
    operand: &str,
    wanted: &str,
) -> Result<(), AllocError> {
    let given = told(alloc, answer(call, literal_of(operand)))?;
    if given.as_str() != wanted {
        writeln!(report, "{call} {operand}: wanted {wanted}, given {given}")?;
    }
    Ok(())
}

/// What the cases call an error.
trait Letter {
    fn letter(&self) -> &'static str;
}

/// A value, or the letter of an error, as text.
fn told<T: Display + Drop, E: Letter + Drop>(
    alloc: Global,
    given: Result<T, E>,
) -> Result<String, AllocError> {
    match given {
        Ok(value) => value.to_string(alloc),
        Err(error) => String::from_str(alloc, error.letter()),
    }
}

/// What a call gives for an operand.
fn answer(call: &str, operand: LiteralInstance) -> Result<LiteralInstance, Error> {
    let (kind, rest) = cut(call);
    let (first, rest) = cut(rest);
    let (operator, left) = cut(rest);
    match kind {
        "unary" => unary(first, operator, operand),
        "binary" => binary(first, operator, literal_of(left), operand),
        "construct" => construct_scalar(type_of(first), operand),
        _ => convert_scalar(type_of(first), operand),
    }
}

fn unary(stage: &str, operator: &str, operand: LiteralInstance) -> Result<LiteralInstance, Error> {
    let operator = operator
        .parse::<UnaryOperator>()
        .unwrap_or(UnaryOperator::AddressOf);
    unary_scalar_op(operator, operand, stage_of(stage))
}

fn binary(
    stage: &str,
    operator: &str,
    left: LiteralInstance,
    right: LiteralInstance,
) -> Result<LiteralInstance, Error> {
    let operator = operator
        .parse::<BinaryOperator>()
        .unwrap_or(BinaryOperator::Addition);
    binary_scalar_op(operator, left, right, stage_of(stage))
}

fn stage_of(text: &str) -> ShaderStage {
    match text {
        "const" => ShaderStage::Const,
        "override" => ShaderStage::Override,
        _ => ShaderStage::Exec,
    }
}

fn type_of(text: &str) -> ScalarType {
    match text {
        "i32" => ScalarType::Integer(IntegerType::I32),
        "u32" => ScalarType::Integer(IntegerType::U32),
        _ => ScalarType::Bool,
    }
}

fn literal_of(text: &str) -> LiteralInstance {
    if let Some(number) = text.strip_suffix('u') {
        LiteralInstance::U32(number.parse::<u32>().unwrap_or(0))
    } else if let Some(number) = text.strip_suffix('i') {
        LiteralInstance::I32(number.parse::<i32>().unwrap_or(0))
    } else if let Ok(number) = text.parse::<i64>() {
        LiteralInstance::AbstractInt(number)
    } else {
        LiteralInstance::Bool(text == "true")
    }
}

impl Letter for Error {
    fn letter(&self) -> &'static str {
        match self {
            Error::AddOverflow => "A",
            Error::SubOverflow => "S",
            Error::MulOverflow => "M",
            Error::DivByZero => "D",
            Error::RemZeroDiv => "R",
            Error::ShlOverflow(_, _) => "L",
            Error::ShrOverflow(_, _) => "H",
            Error::ConvOverflow(_, _) => "C",
            Error::Conversion(_, _) => "V",
            Error::Unary(_, _) => "U",
            Error::Binary(_, _, _) => "B",
            _ => "?",
        }
    }
}

fn result_of(call: &str, left: &str, right: &str) -> Result<LiteralInstance, Error> {
    match call.split_once(' ') {
        Some(("construct", ty)) => construct_scalar(type_of(ty), literal_of(left)),
        Some(("convert_to", ty)) => convert_scalar(type_of(ty), literal_of(left)),
        Some((stage, sign)) => binary(stage, sign, literal_of(left), literal_of(right)),
        None => unary("const", "-", literal_of(left)),
    }
}

fn shown<T: Debug + Drop>(alloc: Global, given: T) -> Result<String, AllocError> {
    format!(in alloc; "{given:?}")
}

/// What an operator gives at one operand or two, in the form of `Debug`.
pub fn one_answer(alloc: Global, with: &str) -> Result<String, AllocError> {
    let (call, operands) = cut(with);
    let (left, right) = cut(operands);
    shown(alloc, result_of(call, left, right))
}
