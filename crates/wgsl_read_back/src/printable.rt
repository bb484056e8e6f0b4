//! Whether some text derives a module: it is printed, and what is printed is parsed.

mod derivable;

pub use derivable::{is_declaration_derivable, is_derivable, is_node_derivable, print_derivable};
pub use wgsl_nodes_in_order::{NodeRef, find_directive_nodes, find_nodes};
