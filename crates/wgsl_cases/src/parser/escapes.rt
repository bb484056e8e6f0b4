//! Characters that stand for others in the cases.

use std::alloc::{AllocError, Global};

/// What a character behind a backslash stands for.
fn meant(character: char) -> char {
    match character {
        'n' => '\n',
        'r' => '\r',
        't' => '\t',
        other => other,
    }
}

/// The text that a case's text stands for.
pub fn read(alloc: Global, text: &str) -> Result<String, AllocError> {
    let mut found = String::new(alloc);
    let mut escaped = false;
    for character in text.chars() {
        if escaped {
            found.push(meant(character))?;
            escaped = false;
        } else if character == '\\' {
            escaped = true;
        } else {
            found.push(character)?;
        }
    }
    Ok(found)
}

/// How a text is written in a case.
pub fn write(alloc: Global, text: &str) -> Result<String, AllocError> {
    let mut line = String::new(alloc);
    for character in text.chars() {
        match character {
            '\n' => line.push_str("\\n")?,
            '\r' => line.push_str("\\r")?,
            '\t' => line.push_str("\\t")?,
            '\\' => line.push_str("\\\\")?,
            other => line.push(other)?,
        }
    }
    Ok(line)
}
