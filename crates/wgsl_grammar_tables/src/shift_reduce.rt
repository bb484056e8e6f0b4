//! Parsers that shift and reduce: what one does, by its tables, and what its answer says of any grammar that its tables fit. This
//! crate knows no grammar.

pub mod laws;
mod machine;

pub use machine::{Action, Driver, Entry, Progress, Shape, Stopped, run};
