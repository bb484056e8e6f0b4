//! Operands.

use wgsl_base::Items;
use wgsl_memory::{Instance, Step};

/// Where a known value stands.
#[derive(Clone, Copy)]
pub enum Root {
    /// In an entry of the scope.
    Local(usize),
    /// In the slot of a declaration.
    Module(usize),
}

/// An operand.
#[derive(Drop)]
pub enum Operand {
    Value(Instance),
    /// A structure or an array in a known value, which isn't copied before its use.
    Part(Root, Items<Step>),
    /// What a function without a result answers.
    Void,
}
