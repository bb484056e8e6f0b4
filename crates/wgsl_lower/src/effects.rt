//! Whether what is declared calls functions that may do something.

mod calls;

pub use calls::{Effects, calls_in_declaration};
