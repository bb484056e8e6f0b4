//! Statements that are reduced by what is written of their conditions and blocks.

mod statements;

pub use statements::{clear_void, drop_voids, reduce};
