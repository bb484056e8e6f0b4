//! The tables of the parser of WGSL and of the grammar of imports, as `tools/parser_tables.py` writes them.
#![tactic(auto)]

pub mod table;

pub use wgsl_semantic_values::Label;
