//! Runs cases that are data: calls of the libraries with the texts that they answer, and inputs of the program with the text, the
//! error line and the status that it has to give. A line comes for each case that differs, and lines that count them.
#![tactic(auto)]

mod case;
mod stream;
mod texts;

use case::{input, is_wanted, number_at, text_at};
use serde_json::Value;
use std::rt::Files;
use std::{fs, io};
use stream::{Sink, Source};
use weslc_bundle::serve_bundle;

/// The files of calls.
const CALLS: [&str; 8] = [
    "types.txt",
    "pairs.txt",
    "part.txt",
    "units.txt",
    "parser.txt",
    "places.txt",
    "lists.txt",
    "trees.txt",
];

/// The files of inputs of the program, each a list.
const FILES: [&str; 15] = [
    "bundles.json",
    "fields.json",
    "texts.json",
    "links.json",
    "compiled.json",
    "lowered.json",
    "kernels.json",
    "examples.json",
    "linking.json",
    "modules.json",
    "precompiled.json",
    "nesting.json",
    "runs.json",
    "assigned.json",
    "hostile.json",
];

fn main(rt: HostRuntime) -> io::Result<()> {
    for path in CALLS {
        texts::report(&rt, path)?;
    }
    texts::report_scalars(&rt, "scalars.txt")?;
    let (mut cases, mut differ) = (0usize, 0usize);
    for path in FILES {
        let (more, wrong) = run_file(&rt, path)?;
        cases = cases.saturating_add(more);
        differ = differ.saturating_add(wrong);
    }
    println!(rt; "{cases} cases, {differ} differ")
}

/// How many cases a file has, and how many of them differ. A file that is no list counts as a case that differs.
fn run_file<R: Files + Print + AllocGlobal>(rt: &R, path: &str) -> io::Result<(usize, usize)> {
    let text = fs::read_to_string(rt, path)?;
    let Ok(Value::Array(cases)) = Value::from_str(rt.alloc(), text.as_str()) else {
        println!(rt; "{path}: no list of cases")?;
        return Ok((1, 1));
    };
    let mut differ = 0usize;
    for case in cases.as_slice() {
        if !run_case(rt, case)? {
            differ = differ.saturating_add(1);
        }
    }
    Ok((cases.len(), differ))
}

/// Whether the program gives what a case wants. If not, a line says what both are.
fn run_case<R: Print + AllocGlobal>(rt: &R, case: &Value) -> io::Result<bool> {
    let input = input(rt.alloc(), case)?;
    let mut source = Source::new(input.as_slice(), number_at(case, "failing_read"));
    let mut text = Sink::new(rt.alloc(), number_at(case, "failing_text"));
    let mut line = Sink::new(rt.alloc(), number_at(case, "failing_line"));
    let status = u64::from(serve_bundle(rt.alloc(), &mut source, &mut text, &mut line));
    let wanted_status = number_at(case, "status").unwrap_or(0);
    let is_well = is_wanted(rt.alloc(), case, text.as_str())?
        && line.as_str() == text_at(case, "line")
        && status == wanted_status;
    if !is_well {
        println!(rt;
            "{}: wanted {:?} {:?} {}, given {:?} {:?} {}",
            text_at(case, "name"),
            text_at(case, "text"),
            text_at(case, "line"),
            wanted_status,
            text.as_str(),
            line.as_str(),
            status
        )?;
    }
    Ok(is_well)
}
