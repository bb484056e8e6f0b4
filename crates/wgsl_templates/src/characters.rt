//! The characters of a text.

ghost use Rattle.std.specs.Prelude.{◌≡◌, length, IfOk};
ghost use Rattle.std.specs.Str.{chars};

use std::alloc::{AllocError, Global};

/// The characters of a text. Only memory can fail.
pub(crate) fn characters_of(alloc: Global, text: &str) -> Result<Vec<char>, AllocError>
    ensures { IfOk result (λ characters. characters.items ≡ chars text.now) }
{
    if !text.is_ascii() {
        let characters: Vec<char> = text.chars().collect(alloc)?;
        return Ok(characters);
    }
    let mut characters = vec![in alloc; '\0'; text.len()]?;
    write_each(characters.as_mut_slice(), text.as_bytes());
    Ok(characters)
}

/// Writes the character of each byte in ASCII.
fn write_each(characters: &mut [char], bytes: &[u8])
    requires { length characters.old ≡ length bytes.now }
    ensures { characters.new ≡ bytes.now }
{
    for (at, byte) in bytes.iter().enumerate() {
        characters[at] = char::from(*byte);
    }
}
