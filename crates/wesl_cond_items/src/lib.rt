//! Items of lists whose items may have conditions (WESL, "Conditional Translation"), and what features leave of such lists, in place.
#![tactic(auto)]

mod declaration;
mod item;
mod own_declaration;
mod own_statement;
mod statement;

pub use item::{Item, settle_list};
pub use statement::attributes_of;
pub use wesl_cond_attributes::Check;
