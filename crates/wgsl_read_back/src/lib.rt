//! What is printed of a tree is read back as it.
#![tactic(auto)]

pub mod laws;
mod printable;

pub use printable::{
    NodeRef, find_directive_nodes, find_nodes, is_declaration_derivable, is_derivable,
    is_node_derivable, print_derivable,
};
pub use wgsl_parser::{Error, ErrorKind, parse_str};
