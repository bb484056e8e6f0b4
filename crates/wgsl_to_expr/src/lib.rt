//! Values and types of the evaluator as expressions of the whole language.
#![tactic(auto)]

mod call;
mod literal;
mod ty;
mod value;

pub use call::named;
pub use literal::literal_to_expr;
pub use ty::{access_mode_to_type, address_space_to_type, type_to_type_expression};
pub use value::{
    array_to_expr, instance_to_expr, struct_to_expr, type_to_expr, vector_to_expr, written_array,
    written_instance, written_struct,
};
