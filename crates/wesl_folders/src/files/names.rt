//! Names of files.

ghost use Rattle.std.specs.Prelude.{◌≡◌, true, false, codes};
ghost use Rattle.std.specs.List.{Contains};

/// Whether a part of a module's path is the name of a file or folder: it is not empty, `.` or `..`, and has no slash, backslash,
/// colon or byte of 0. So a path of such names stays inside the folder that it begins in.
pub fn is_file_name(name: &str) -> bool {
    if name.is_empty() || name == "." || name == ".." {
        return false;
    }
    !has_separator(name.as_bytes())
}

fn has_separator(bytes: &[u8]) -> bool {
    for byte in bytes {
        match *byte {
            b'/' | b'\\' | b':' | 0 => return true,
            _ => {}
        }
    }
    false
}
