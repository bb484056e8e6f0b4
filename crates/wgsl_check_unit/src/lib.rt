//! Whether some text derives a module, and if none does, the first node that none derives.
#![tactic(auto)]

mod check;
mod error;
mod named;
mod told;

pub use check::{check_unit, print_checked};
pub use error::Unprintable;
pub use wgsl_read_back::{Error, parse_str};
