//! The check of a module's names, for `wesl check`: a module without imports is laid out as steps, in which `wesl_name_rules` finds faults.
#![tactic(auto)]

mod check;
mod declarations;
mod expressions;
mod statements;

pub use check::check_names;
pub use wesl_name_rules::{Choice, Counts, NameFault, NameProblem};
