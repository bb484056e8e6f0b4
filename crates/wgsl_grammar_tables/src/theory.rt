//! Tables of a parser that are given by number, and tests that show that they fit their rules. This crate knows no grammar.

pub mod laws;
