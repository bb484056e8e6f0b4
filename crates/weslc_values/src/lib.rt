//! Values as text: as a bundle's JSON has them, and as they are printed.
#![tactic(auto)]

mod bindings;
mod error;
mod fields;
mod inputs;
mod number;
mod print;
mod result;
mod settings;
mod value;

pub use bindings::{Binding, OverrideValue, read_bindings, read_overrides};
pub use error::ValueError;
pub use inputs::{InputSettings, UserInput, inputs_of, read_inputs, zero_inputs};
pub use number::read_number;
pub use print::instance_text;
pub use result::{RunResult, result_text};
pub use settings::{Needed, RunKey, RunSettings, read_run_settings};
pub use value::read_value;
