//! The tokens of trees: what is printed of a tree is a text that is laid out as them.

pub mod laws;
