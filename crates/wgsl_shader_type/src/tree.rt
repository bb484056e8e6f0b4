//! The tree of a type.

ghost use Rattle.std.specs.Prelude.{◌≡◌, None};

use std::alloc::{AllocError, Global};
use wgsl_base::{Boxed, FromIn, Items, Text};
use wgsl_words::{AccessMode, AddressSpace};

/// A type (WGSL, "Types").
#[derive(Debug, Drop)]
pub enum ShaderType {
    Bool,
    AbstractInt,
    AbstractFloat,
    I32,
    U32,
    F32,
    F16,
    Struct(Boxed<StructTypeOf<ShaderType>>),
    /// The type of the elements, and how many there are, where that is fixed.
    Array(Boxed<ShaderType>, Option<usize>),
    /// How many components there are, and their type.
    Vec(u8, Boxed<ShaderType>),
    Ptr(AddressSpace, Boxed<ShaderType>, AccessMode),
    Ref(AddressSpace, Boxed<ShaderType>, AccessMode),
}

/// The name by which most of this crate speaks of a type.
pub type Type = ShaderType;

/// A struct, over the type `T` of its members' types.
#[derive(Debug, Drop, PartialEq)]
pub struct StructTypeOf<T> {
    pub name: Text,
    pub members: Items<StructMemberTypeOf<T>>,
}

/// A member of a struct, with the size and alignment that its attributes give, in bytes.
#[derive(Debug, Drop, PartialEq)]
pub struct StructMemberTypeOf<T> {
    pub name: Text,
    pub ty: T,
    pub size: Option<u32>,
    pub align: Option<u32>,
}

pub type StructType = StructTypeOf<ShaderType>;

pub type StructMemberType = StructMemberTypeOf<ShaderType>;

impl StructType {
    /// A struct. It needs no memory.
    pub fn new(name: Text, members: Items<StructMemberType>) -> StructType
        ensures { result ≡ record { name = name; members = members } }
    {
        StructType { name, members }
    }
}

impl StructMemberType {
    /// A member whose attributes give neither size nor alignment. It needs no memory.
    pub fn new(name: Text, ty: Type) -> StructMemberType
        ensures { result ≡ record { name = name; ty = ty; size = None; align = None } }
    {
        StructMemberType {
            name,
            ty,
            size: None,
            align: None,
        }
    }
}

impl FromIn<StructType> for ShaderType {
    ghost use Rattle.wgsl_shader_type.specs.declared.tree.ShaderType.TheVariants.{Struct};

    ghost from_in_gives = { λ of made. made ≡ Struct of };

    fn from_in(alloc: Global, value: StructType) -> Result<ShaderType, AllocError> {
        Ok(ShaderType::Struct(Boxed::new(alloc, value)?))
    }
}
