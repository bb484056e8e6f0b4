//! Visits of the attributes in a syntax tree.

mod attribute;
mod parts;

pub use attribute::VisitAttributes;
