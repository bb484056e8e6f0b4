//! What the parser of WGSL looks up at each of its steps, as `tools/parser_tables.py` writes it.

pub mod steps;
