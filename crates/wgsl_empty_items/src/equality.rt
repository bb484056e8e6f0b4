//! What the equality of syntax trees says of the trees without places. Beside laws this crate has no code.

pub mod laws;
pub mod module_laws;
pub mod statement_laws;
