//! Modules are loaded round by round, and what is reached in them is held.
#![tactic(auto)]

mod held_unit;
mod loading;
mod resolutions;
mod resolve;

pub use held_unit::HeldUnit;
pub use resolutions::Resolutions;
pub use resolve::{resolve_eager, resolve_eager_with, resolve_lazy, resolve_lazy_with, test_root};
pub use wesl_marks::mark_unit;
