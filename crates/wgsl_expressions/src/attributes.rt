//! The attributes of WGSL and WESL, their copies and their text.

mod attribute;
mod copy;
mod print;

pub use attribute::{
    Attribute, AttributeNode, Attributes, CustomAttribute, DiagnosticAttribute,
    InterpolateAttribute, WorkgroupSizeAttribute,
};
pub use print::write_attributes;
pub use wgsl_words::{AccessMode, AddressSpace, AssignmentOperator, DiagnosticSeverity};
