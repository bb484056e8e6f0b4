//! What is done with operands: operators, parts, conversions, constructors and writes.
#![tactic(auto)]

mod constructing;
mod converting;
mod operating;
mod selecting;
mod writing;

pub use constructing::{
    construct, constructed_type, is_constructible, structure, typed_array, zero,
};
pub use converting::{argument_of, convert, convert_to_place, number, refuse_conversion, truth};
pub use operating::{address_of, binary, decided, indirection, truth_of, unary};
pub use selecting::{index, is_swizzle, member};
pub use wgsl_eval_machine::{
    CallFrame, ConversionPlace, DeclarationFrame, Flow, Frame, Frames, Local, Machine, Operand,
    Root, Slot, Start, TypeFrame, ValueFrame, WrittenFrame,
};
pub use writing::{assign, bump, compound, is_place, read_place};
