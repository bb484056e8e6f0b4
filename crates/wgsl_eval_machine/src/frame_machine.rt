//! What an evaluation has computed so far, and what is left to do.

mod bindings;
mod faults;
mod frames;
mod held;
mod machine;
mod operands;
mod parts;
mod slots;

pub use bindings::Bound;
pub use frames::{
    CallFrame, ConversionPlace, DeclarationFrame, Frame, Frames, TypeFrame, ValueFrame,
    WrittenFrame,
};
pub use held::Held;
pub use machine::{Block, Flow, Local, Machine, Start};
pub use operands::{Operand, Root};
pub use parts::{find_part, is_small};
pub use slots::Slot;
