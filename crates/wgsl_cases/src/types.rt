//! What calls on types, and on the names of WGSL, answer to a case. A case has tabs between its parts: a group of calls, a call and
//! its arguments.

mod pairs;
mod reading;
mod types;

use std::alloc::{AllocError, Global};
pub use types::told_of_copy;

/// The text before the first tab, and the text behind it.
fn cut(text: &str) -> (&str, &str) {
    text.split_once('\t').unwrap_or((text, ""))
}

/// What the case's call answers, as a text.
pub fn answer(alloc: Global, case: &str) -> Result<String, AllocError> {
    let (group, with) = cut(case);
    let (call, with) = cut(with);
    if group == "row" {
        pairs::answer(alloc, call, with)
    } else {
        types::answer(alloc, group, call, with)
    }
}
