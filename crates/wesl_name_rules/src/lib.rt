//! Faults of names in one module without imports: names that nothing declares, wrong calls, members that a type has not, names of WGSL's own
//! in wrong places, locals and members of one name, rings of declarations.
//!
//! A reader goes over the steps of the module with a stack of types. Where a type is not plain nothing is said.
#![tactic(auto)]

mod applied;
mod arguments;
mod declared;
mod mention;
mod reader;
mod rounds;

pub use rounds::faults_of;
pub use wesl_name_steps::{
    Choice, Counts, DeclareStep, Kind, NameFault, NameProblem, Role, Step, StepList, StepPlace,
    ValueStep,
};
