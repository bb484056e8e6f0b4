//! What the programs say of themselves, and how those without options answer the words of a command line.
#![tactic(auto)]

use std::alloc::AllocGlobal;
use std::env::Env;
use std::io::{ErrorKind, Write};
use std::{env, io};

/// The release of the programs, and how this one was built: `tools/build` writes other words into the copy that it builds.
pub const VERSION: &str = "0.1.0 (proved by the gate)";

/// Answers the command line of a program that has no option but `--version`. The status to end with, once the answer is written: 0 for
/// the version, 2 where a word is unknown or no UTF-8. `None` where no word is given, so that the program goes on.
pub fn answer_command_line<R: Env + AllocGlobal, W: Write, E: Write>(
    rt: &R,
    program: &str,
    writer: &mut W,
    errors: &mut E,
) -> io::Result<Option<u8>> {
    let words: Vec<String> = match env::args(rt) {
        Ok(words) => words.collect(rt.alloc())?,
        Err(error) => return refuse_words(program, &error, errors),
    };
    match (words.get(1), words.get(2)) {
        (None, _) => Ok(None),
        (Some(word), None) if word.as_str() == "--version" => {
            writeln!(writer, "{program} {VERSION}")?;
            Ok(Some(0))
        }
        _ => {
            writeln!(
                errors,
                "{program}: it takes no words but `--version`, and reads what it is to do from standard input"
            )?;
            Ok(Some(2))
        }
    }
}

/// Says why the words of a command line can't be read.
fn refuse_words<E: Write>(
    program: &str,
    error: &io::Error,
    errors: &mut E,
) -> io::Result<Option<u8>> {
    match error.kind() {
        ErrorKind::InvalidData => writeln!(
            errors,
            "{program}: a word of the command line is no UTF-8"
        )?,
        _ => writeln!(errors, "{program}: the command line can't be read")?,
    }
    Ok(Some(2))
}
