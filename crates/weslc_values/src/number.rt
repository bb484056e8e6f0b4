//! Numbers as texts: an optional `-`, decimal digits, and `i`, `u` or nothing behind them.

use wgsl_scalar::IntegerType;
use wgsl_shader_type::LiteralInstance;

/// A number, and one digit more behind it, if that is below 2^64.
fn with_digit(number: u64, digit: u8) -> Option<u64> {
    if !digit.is_ascii_digit() {
        return None;
    }
    let tens = number.checked_mul(10)?;
    tens.checked_add(u64::from(digit - b'0'))
}

/// The number of one or more digits, if it is below 2^64.
fn magnitude(digits: &[u8]) -> Option<u64> {
    if digits.is_empty() {
        return None;
    }
    let mut number = 0;
    for digit in digits {
        number = with_digit(number, *digit)?;
    }
    Some(number)
}

/// The type that a text's last character tells, and what stands before that character.
fn split_suffix(text: &[u8]) -> (IntegerType, &[u8]) {
    match text {
        [digits @ .., b'i'] => (IntegerType::I32, digits),
        [digits @ .., b'u'] => (IntegerType::U32, digits),
        digits => (IntegerType::AbstractInt, digits),
    }
}

fn positive(ty: IntegerType, magnitude: u64) -> Option<LiteralInstance> {
    match ty {
        IntegerType::AbstractInt => match i64::try_from(magnitude) {
            Ok(number) => Some(LiteralInstance::AbstractInt(number)),
            Err(_) => None,
        },
        IntegerType::I32 => match i32::try_from(magnitude) {
            Ok(number) => Some(LiteralInstance::I32(number)),
            Err(_) => None,
        },
        IntegerType::U32 => match u32::try_from(magnitude) {
            Ok(number) => Some(LiteralInstance::U32(number)),
            Err(_) => None,
        },
    }
}

fn negative(ty: IntegerType, magnitude: u64) -> Option<LiteralInstance> {
    let number = -i128::from(magnitude);
    match ty {
        IntegerType::AbstractInt => match i64::try_from(number) {
            Ok(number) => Some(LiteralInstance::AbstractInt(number)),
            Err(_) => None,
        },
        IntegerType::I32 => match i32::try_from(number) {
            Ok(number) => Some(LiteralInstance::I32(number)),
            Err(_) => None,
        },
        IntegerType::U32 => None,
    }
}

/// The number that a text is, as `5`, `-5i` or `5u`, if it is one in the range of its type. A `u32` has no sign.
pub fn read_number(text: &[u8]) -> Option<LiteralInstance> {
    match text {
        [b'-', rest @ ..] => {
            let (ty, digits) = split_suffix(rest);
            negative(ty, magnitude(digits)?)
        }
        text => {
            let (ty, digits) = split_suffix(text);
            positive(ty, magnitude(digits)?)
        }
    }
}
