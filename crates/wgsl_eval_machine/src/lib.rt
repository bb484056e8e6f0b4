//! What an evaluation has computed so far, what is left of it, and what ends it.
#![tactic(auto)]

mod faults;
mod frame_machine;

pub use faults::{
    BuiltinFault, EvalError, Fault, NameFault, PairFault, PlainFault, ResourceFault, ReturnFault,
    Stop, TypeFault, operation_kind,
};
pub use frame_machine::{
    Block, Bound, CallFrame, ConversionPlace, DeclarationFrame, Flow, Frame, Frames, Held, Local,
    Machine, Operand, Root, Slot, Start, TypeFrame, ValueFrame, WrittenFrame, is_small,
};
