//! A case: a JSON object with a `name`. Keys that are not named here say nothing.
//!
//! The input is what stands under `bundle`, as JSON, the text `input`, the numbers `bytes`, 200 bytes that follow from the number
//! `random`, and under `repeat` a `text` so many times (`count`), and what is made of `nested`, one after another; what is missing is empty.
//! `text`, `line` and `status` are what comes on standard output, on standard error, and as the exit status: where they are missing, nothing
//! and 0. In the place of `text`, `length` is how many bytes come on standard output, and `nested_text` is what they are made of: between
//! `head` and `tail` stand `open` so many times (`count`), `inner`, and `close` as many times. `failing_read` is the number of the read of
//! the input that fails, counted from 0, and `failing_text` and `failing_line` are those of the call that writes or flushes the text and the
//! line.

use serde_json::Value;
use std::alloc::{AllocError, Global};

/// The text at a key, or an empty one.
pub fn text_at<'a>(value: &'a Value, key: &str) -> &'a str {
    value.get(key).and_then(Value::as_str).unwrap_or("")
}

/// The number at a key.
pub fn number_at(value: &Value, key: &str) -> Option<u64> {
    value.get(key).and_then(Value::as_u64)
}

/// The bytes of the input.
pub fn input(alloc: Global, case: &Value) -> Result<Vec<u8>, AllocError> {
    let mut input = Vec::new(alloc);
    if let Some(bundle) = case.get("bundle") {
        input.extend_from_slice(bundle.to_string(alloc)?.as_bytes())?;
    }
    input.extend_from_slice(text_at(case, "input").as_bytes())?;
    if let Some(Value::Array(bytes)) = case.get("bytes") {
        for byte in bytes.as_slice() {
            input.push(u8::try_from(byte.as_u64().unwrap_or(0)).unwrap_or(0))?;
        }
    }
    if let Some(start) = number_at(case, "random") {
        push_random(&mut input, start)?;
    }
    if let Some(repeat) = case.get("repeat") {
        push_repeated(&mut input, repeat, "text")?;
    }
    if let Some(nested) = case.get("nested") {
        push_nested(&mut input, nested)?;
    }
    Ok(input)
}

/// Adds the text at a key as often as `count` says.
fn push_repeated(input: &mut Vec<u8>, repeat: &Value, key: &str) -> Result<(), AllocError> {
    for _ in 0..number_at(repeat, "count").unwrap_or(0) {
        input.extend_from_slice(text_at(repeat, key).as_bytes())?;
    }
    Ok(())
}

/// Adds a text in whose middle something stands in itself.
fn push_nested(input: &mut Vec<u8>, nested: &Value) -> Result<(), AllocError> {
    input.extend_from_slice(text_at(nested, "head").as_bytes())?;
    push_repeated(input, nested, "open")?;
    input.extend_from_slice(text_at(nested, "inner").as_bytes())?;
    push_repeated(input, nested, "close")?;
    input.extend_from_slice(text_at(nested, "tail").as_bytes())
}

/// Whether a text is the one that a case wants, or has the length that it wants.
pub fn is_wanted(alloc: Global, case: &Value, text: &str) -> Result<bool, AllocError> {
    if let Some(length) = number_at(case, "length") {
        return Ok(text.len() as u64 == length);
    }
    match case.get("nested_text") {
        Some(nested) => {
            let mut wanted = Vec::new(alloc);
            push_nested(&mut wanted, nested)?;
            Ok(wanted.as_slice() == text.as_bytes())
        }
        None => Ok(text == text_at(case, "text")),
    }
}

/// Adds 200 bytes: the highest ones of the numbers that a linear congruential generator gives behind a start.
fn push_random(input: &mut Vec<u8>, start: u64) -> Result<(), AllocError> {
    let mut number = start;
    for _ in 0..200 {
        number = number
            .wrapping_mul(6_364_136_223_846_793_005)
            .wrapping_add(1_442_695_040_888_963_407);
        input.push(u8::try_from(number >> 56).unwrap_or(0))?;
    }
    Ok(())
}
