//! The steps of expressions: values, types, written types and template arguments.
#![tactic(auto)]

mod calling;
mod names;
mod typing;
mod valuing;
mod written;

pub use calling::{follow, push_call, push_typed_call};
pub use typing::step_type;
pub use valuing::{loaded_first, step_value};
pub use wgsl_eval_operands::{
    CallFrame, ConversionPlace, DeclarationFrame, Flow, Frame, Frames, Local, Machine, Operand,
    ValueFrame, assign, bump, compound, construct, constructed_type, convert, is_constructible,
    is_place, read_place, refuse_conversion, structure, truth, typed_array, zero,
};
pub use written::{argument_count, at_const, push_number, push_number_at_const, step_written};
