//! What attributes and the templates of `var` are, by their words and arguments.
#![tactic(auto)]

mod attribute;
mod choices;
mod name;
mod template;
mod word;

pub use attribute::attribute_of;
pub use choices::{
    access_mode, address_space, builtin_value, interpolation_sampling, interpolation_type, severity,
};
pub use name::{is_setting, severity_in};
pub use template::template_of;
pub use word::{AttributeWord, word_named};
