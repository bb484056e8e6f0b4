//! What a check of names goes over: a tree laid out flat, as steps in the order of the text, with the table of their names (`StepList`);
//! types, as far as members need them; and the faults that are found.
#![tactic(auto)]

mod fault;
mod list;
mod operation;
mod step;
mod types;

pub use fault::{Found, NameFault, NameProblem};
pub use list::{StepList, StepPlace, numbered, word_kind};
pub use operation::{binary_type, is_defined};
pub use step::{DeclareStep, Role, Step, ValueStep};
pub use types::{Type, are_alike, component_or_part, components, constructor_counts, type_name};
pub use wesl_mark::Kind;
pub use wgsl_builtin_names::{Choice, Counts};
