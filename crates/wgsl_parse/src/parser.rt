//! From a text to its tree, or to its first fault; and whether some text derives a module.

pub use crate::iterator::recognize_template_list;
pub use wgsl_check_unit::{check_unit, print_checked};
pub use wgsl_parser::{
    FromText, check_str, parse_declaration, parse_declaration_kind, parse_directive,
    parse_expression, parse_import, parse_statement, parse_str,
};
