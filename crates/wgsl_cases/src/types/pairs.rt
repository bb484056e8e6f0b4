//! Rows of tables: a call on one type and each scalar or vector type in turn. `tools/type_cases.py` writes these cases.

use crate::types::reading::list_of;
use crate::types::types::{maybe, told};
use std::alloc::{AllocError, Global};
use wgsl_types::{BinaryOperator, Type, conversion_rank, convert_ty, type_binary_op};

/// The scalar types, then the vectors of two, three and four components.
const TYPES: &str = "bool AbstractInt AbstractFloat i32 u32 f32 f16 \
vec2<bool> vec2<AbstractInt> vec2<AbstractFloat> vec2<i32> vec2<u32> vec2<f32> vec2<f16> \
vec3<bool> vec3<AbstractInt> vec3<AbstractFloat> vec3<i32> vec3<u32> vec3<f32> vec3<f16> \
vec4<bool> vec4<AbstractInt> vec4<AbstractFloat> vec4<i32> vec4<u32> vec4<f32> vec4<f16>";

/// A letter for each of the types.
const LETTERS: &str = "ABCDEFGHIJKLMNOPQRSTUVWXYZab";

/// The letter of a type by its text, or a dot for the text of a refusal.
fn letter(text: &str, refusal: &str) -> char {
    let mut letters = LETTERS.chars();
    for name in TYPES.split(' ') {
        let letter = letters.next().unwrap_or('?');
        if name == text {
            return letter;
        }
    }
    if text == refusal { '.' } else { '?' }
}

/// The letter of what an operator gives, or a dot where it refuses these types.
fn operated(alloc: Global, sign: &str, left: &Type, right: &Type) -> Result<char, AllocError> {
    let Ok(operator) = sign.parse::<BinaryOperator>() else {
        return Ok('?');
    };
    let refusal = format!(in alloc;
        "cannot use the operator `{sign}` on operands of types `{left}` and `{right}`"
    )?;
    let given = told(alloc, type_binary_op(alloc, operator, left, right))?;
    Ok(letter(given.as_str(), refusal.as_str()))
}

/// The letter of a type to which both are converted.
fn common(alloc: Global, left: &Type, right: &Type) -> Result<char, AllocError> {
    let given = maybe(alloc, Ok(convert_ty(left, right)))?;
    Ok(letter(given.as_str(), "none"))
}

fn rank(left: &Type, right: &Type) -> char {
    match conversion_rank(left, right) {
        Some(rank) => char::from_digit(rank, 10).unwrap_or('?'),
        None => '.',
    }
}

/// What a call gives at two types: a digit for a rank, or the letter of a type.
fn entry(alloc: Global, call: &str, left: &Type, right: &Type) -> Result<char, AllocError> {
    match call {
        "conversion_rank" => Ok(rank(left, right)),
        "convert_ty" => common(alloc, left, right),
        sign => operated(alloc, sign, left, right),
    }
}

/// Adds what a call gives at a type and at each of the others.
fn push_row(
    alloc: Global,
    row: &mut String,
    call: &str,
    left: &Type,
    others: &[Type],
) -> Result<(), AllocError> {
    for right in others {
        row.push(entry(alloc, call, left, right)?)?;
    }
    Ok(())
}

/// What a call gives at the first type and at each of the others.
fn row(alloc: Global, call: &str, types: &[Type]) -> Result<String, AllocError> {
    let mut row = String::new(alloc);
    if let Some((left, others)) = types.split_first() {
        push_row(alloc, &mut row, call, left, others)?;
    }
    Ok(row)
}

/// What a call gives at a type and at each of all types.
pub fn answer(alloc: Global, call: &str, left: &str) -> Result<String, AllocError> {
    let names = format!(in alloc; "{left} {TYPES}")?;
    let types = list_of(alloc, names.as_str(), " ")?;
    row(alloc, call, types.as_slice())
}
