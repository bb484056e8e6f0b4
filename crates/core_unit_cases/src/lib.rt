//! What calls on tokens, trees, values and units answer to a case. A case has tabs between its parts: a call and its arguments. A line
//! of operators on scalars has a result for each operand.
#![tactic(auto)]

mod parsing;
mod scalars;
mod units;

pub use scalars::compare_all;
use std::alloc::{AllocError, Global};

/// The text before the first tab, and the text behind it.
fn cut(text: &str) -> (&str, &str) {
    text.split_once('\t').unwrap_or((text, ""))
}

/// What the case's call answers, as a text.
pub fn answer(alloc: Global, case: &str) -> Result<String, AllocError> {
    let (call, with) = cut(case);
    match call {
        "lex" => parsing::tokens(alloc, with),
        "is_blankspace" | "is_line_break" => parsing::told(alloc, call, with),
        "number" => scalars::one_answer(alloc, with),
        call => units::answer(alloc, call, with),
    }
}
