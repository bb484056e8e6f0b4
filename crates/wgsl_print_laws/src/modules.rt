//! The tokens of statements, declarations and modules: what is printed of a tree is a text that is laid out as them.

pub mod laws;
