//! Whole modules linked into one unit.
#![tactic(auto)]

mod held;
mod link;
mod map;
mod refusal;
mod validation;

pub use core_resolver::{BeyondCore, HeldUnit, NarrowingResolver};
pub use held::HeldModules;
pub use link::{LinkedModules, link_modules};
pub use map::{declaration_map, source_map};
pub use refusal::of_resolve;
pub use validation::{check_clear, validate};
pub use wesl_validate::unclear_name;
