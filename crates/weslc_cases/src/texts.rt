//! Files of cases whose lines have tabs between their parts: a call, its arguments, and the text that it answers. `¶` is a line break.

use std::alloc::{AllocError, Global};
use std::fmt::Write;
use std::rt::Files;
use std::{fs, io};

/// Adds a line with its line breaks.
fn push_line(text: &mut String, line: &str) -> Result<(), AllocError> {
    for c in line.chars() {
        text.push(if c == '¶' { '\n' } else { c })?;
    }
    Ok(())
}

/// What a case of a file answers.
fn answer(alloc: Global, path: &str, case: &str) -> Result<String, AllocError> {
    match path {
        "types.txt" | "pairs.txt" => wgsl_cases::types::answer(alloc, case),
        "part.txt" | "units.txt" => core_unit_cases::answer(alloc, case),
        _ => wgsl_cases::parser::answer(alloc, case),
    }
}

/// Tells of a case whose answer differs from the one that it names. An answer that tells that memory was refused ends all.
fn check(alloc: Global, report: &mut String, path: &str, line: &str) -> Result<(), AllocError> {
    let mut text = String::new(alloc);
    push_line(&mut text, line)?;
    let (case, wanted) = text.as_str().rsplit_once('\t').unwrap_or(("", ""));
    let found = answer(alloc, path, case)?;
    match found.as_str() {
        "out of memory" | "out of memory at 0..0" => Err(AllocError),
        found => tell(report, line, found, wanted),
    }
}

fn tell(report: &mut String, line: &str, found: &str, wanted: &str) -> Result<(), AllocError> {
    if found != wanted {
        writeln!(report, "{line}\n    answers {found}")?;
    }
    Ok(())
}

/// Tells of the cases of a text that differ. How many cases there are.
fn check_all(
    alloc: Global,
    report: &mut String,
    path: &str,
    text: &str,
) -> Result<u64, AllocError> {
    let mut count: u64 = 0;
    for line in text.lines() {
        if line.contains('\t') {
            check(alloc, report, path, line)?;
            count = count.saturating_add(1);
        }
    }
    Ok(count)
}

/// Tells of the cases of a file that differ, and how many there are.
pub fn report<R: Files + Print + AllocGlobal>(rt: &R, path: &str) -> io::Result<()> {
    let text = fs::read_to_string(rt, path)?;
    let mut report = String::new(rt.alloc());
    let count = check_all(rt.alloc(), &mut report, path, text.as_str())?;
    println!(rt; "{report}{path}: {count} cases")
}

/// Likewise of a file with results of operators on scalars.
pub fn report_scalars<R: Files + Print + AllocGlobal>(rt: &R, path: &str) -> io::Result<()> {
    let text = fs::read_to_string(rt, path)?;
    let mut report = String::new(rt.alloc());
    let count = core_unit_cases::compare_all(rt.alloc(), &mut report, text.as_str())?;
    println!(rt; "{report}{path}: {count} results")
}
