//! A resolver of whole modules, seen by the part of the language whose linking and compiling is proved.
#![tactic(auto)]

mod narrowing;
mod resolver;

pub use resolver::{BeyondCore, NarrowingResolver};
pub use wesl_load::{HeldUnit, Resolutions, resolve_eager, resolve_lazy, test_root};
