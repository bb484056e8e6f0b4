//! Parentheses round what stands before a `<`, so that no template list is read there.
#![tactic(auto)]

mod guard;
mod names;

pub use guard::guard_templates;
pub use names::{ends_in_name, opens_template};
