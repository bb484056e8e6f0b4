//! Visits of the types in expressions, types and attributes: the walks that the visits of all parts of a module go by.

pub mod change;
pub mod find;
pub mod meet;
