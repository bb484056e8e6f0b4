//! An expression that is to be evaluated, and the const that stands for it behind a module's declarations.

mod own;
mod question;

pub use own::{OWN_NAME, is_own};
pub use question::EvalExpression;
