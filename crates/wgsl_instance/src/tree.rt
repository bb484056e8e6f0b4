//! The tree of a value.

use wgsl_base::Items;
use wgsl_scalar::ScalarType;
use wgsl_shader_type::{LiteralInstance, StructType, Type};
use wgsl_words::{AccessMode, AddressSpace};

/// A value (WGSL, "Types"; references and pointers are places in memory).
#[derive(Debug, Drop)]
pub enum Instance {
    /// A scalar.
    Literal(LiteralInstance),
    Struct(StructInstanceOf<Instance>),
    Array(ArrayInstanceOf<Instance>),
    Vec(VecInstance),
    Ptr(PtrInstance),
    Ref(RefInstance),
    /// A value of which only the type is known.
    Deferred(Type),
}

/// A struct's value, over the type `I` of its members' values, which stand in the order of the struct's members.
#[derive(Debug, Drop)]
pub struct StructInstanceOf<I> {
    pub ty: StructType,
    pub members: Items<I>,
}

/// An array, over the type `I` of its elements. Where it is runtime-sized, its type has no count.
#[derive(Debug, Drop)]
pub struct ArrayInstanceOf<I> {
    pub element: Type,
    pub components: Items<I>,
    pub runtime_sized: bool,
}

/// A vector.
#[derive(Debug, Drop)]
pub struct VecInstance {
    pub ty: ScalarType,
    pub components: Items<LiteralInstance>,
}

/// A place in memory: a cell, counted from 0, and the way from its value to a part of it.
#[derive(Debug, Drop)]
pub struct RefInstance {
    pub cell: usize,
    pub path: Items<Step>,
    /// The type of what is stored there.
    pub ty: Type,
    pub space: AddressSpace,
    pub access: AccessMode,
}

/// A pointer to a place.
#[derive(Debug, Drop)]
pub struct PtrInstance {
    pub reference: RefInstance,
}

/// A step from a value to a part of it, by the position of the part, counted from 0.
#[derive(Clone, Copy, Debug, PartialEq, Eq)]
pub enum Step {
    /// A member of a struct.
    Member(usize),
    /// An element of an array.
    Element(usize),
    /// A component of a vector.
    Component(usize),
}

pub type StructInstance = StructInstanceOf<Instance>;

pub type ArrayInstance = ArrayInstanceOf<Instance>;
