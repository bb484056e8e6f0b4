//! The classes of types, and the concrete and the loaded type of one.

ghost use Rattle.std.specs.Prelude.{◌≡◌, ◌↔◌, IsTrue, IfOk};
ghost use Rattle.wgsl_shader_type.specs.Class as class;

use crate::tree::{ShaderType, StructType};
use std::alloc::{AllocError, Global};
use wgsl_base::Boxed;

impl ShaderType {
    /// Whether it is Bool or one of the numeric types.
    pub fn is_scalar(&self) -> bool
        ensures { result ≡ class.is_scalar self.now }
    {
        self.is_bool() || self.is_numeric()
    }

    /// Whether it is one of the six numeric types.
    pub fn is_numeric(&self) -> bool
        ensures { result ≡ class.is_numeric self.now }
    {
        self.is_integer() || self.is_float()
    }

    pub fn is_integer(&self) -> bool
        ensures { result ≡ class.is_integer self.now }
    {
        matches!(
            self,
            ShaderType::AbstractInt | ShaderType::I32 | ShaderType::U32
        )
    }

    pub fn is_float(&self) -> bool
        ensures { result ≡ class.is_float self.now }
    {
        matches!(
            self,
            ShaderType::AbstractFloat | ShaderType::F32 | ShaderType::F16
        )
    }

    /// Whether it is an abstract numeric type, or a vector or an array of such.
    pub fn is_abstract(&self) -> bool
        ensures { result ≡ class.is_abstract self.now }
    {
        match self {
            ShaderType::AbstractInt | ShaderType::AbstractFloat => true,
            ShaderType::Array(element, _) => element.get().is_abstract(),
            ShaderType::Vec(_, component) => component.get().is_abstract(),
            _ => false,
        }
    }

    /// Whether it is not abstract.
    pub fn is_concrete(&self) -> bool
        ensures { result ≡ class.is_concrete self.now }
    {
        !self.is_abstract()
    }

    /// Whether it is concrete and neither a pointer nor a reference.
    pub fn is_storable(&self) -> bool
        ensures { result ≡ class.is_storable self.now }
    {
        self.is_concrete() && !matches!(self, ShaderType::Ptr(_, _, _) | ShaderType::Ref(_, _, _))
    }

    pub fn is_array(&self) -> bool
        ensures { result ≡ class.is_array self.now }
    {
        matches!(self, ShaderType::Array(_, _))
    }

    pub fn is_vec(&self) -> bool
        ensures { result ≡ class.is_vector self.now }
    {
        matches!(self, ShaderType::Vec(_, _))
    }

    pub fn is_i32(&self) -> bool
        ensures { IsTrue result ↔ (self.now ≡ ShaderType.I32) }
    {
        matches!(self, ShaderType::I32)
    }

    pub fn is_u32(&self) -> bool
        ensures { IsTrue result ↔ (self.now ≡ ShaderType.U32) }
    {
        matches!(self, ShaderType::U32)
    }

    pub fn is_f32(&self) -> bool
        ensures { IsTrue result ↔ (self.now ≡ ShaderType.F32) }
    {
        matches!(self, ShaderType::F32)
    }

    pub fn is_bool(&self) -> bool
        ensures { result ≡ class.is_bool self.now }
    {
        matches!(self, ShaderType::Bool)
    }

    pub fn is_abstract_int(&self) -> bool
        ensures { IsTrue result ↔ (self.now ≡ ShaderType.AbstractInt) }
    {
        matches!(self, ShaderType::AbstractInt)
    }

    /// The struct that it is.
    pub fn unwrap_struct(self) -> StructType
        requires { IsTrue (class.is_struct self) }
        ensures { self ≡ ShaderType.Struct result }
    {
        match self {
            ShaderType::Struct(x) => x.into_inner(),
            _ => unreachable!(),
        }
    }

    /// The number and the type of the components of the vector that it is.
    pub fn unwrap_vec(self) -> (u8, ShaderType)
        requires { IsTrue (class.is_vector self) }
        ensures { self ≡ ShaderType.Vec result.0 result.1 }
    {
        match self {
            ShaderType::Vec(count, component) => (count, component.into_inner()),
            _ => unreachable!(),
        }
    }

    /// The concrete type that it becomes where no other is asked for.
    #[tactic(auto, using(crate::proofs::Classes::concrete_types))]
    pub fn concretize(&self, alloc: Global) -> Result<ShaderType, AllocError>
        ensures { IfOk result (λ made. made ≡ class.concrete_type self.now) }
    {
        match self {
            ShaderType::AbstractInt => Ok(ShaderType::I32),
            ShaderType::AbstractFloat => Ok(ShaderType::F32),
            ShaderType::Array(element, count) => {
                let element = element.get().concretize(alloc)?;
                Ok(ShaderType::Array(Boxed::new(alloc, element)?, *count))
            }
            ShaderType::Vec(count, component) => {
                let component = component.get().concretize(alloc)?;
                Ok(ShaderType::Vec(*count, Boxed::new(alloc, component)?))
            }
            ShaderType::Bool => Ok(ShaderType::Bool),
            ShaderType::I32 => Ok(ShaderType::I32),
            ShaderType::U32 => Ok(ShaderType::U32),
            ShaderType::F32 => Ok(ShaderType::F32),
            ShaderType::F16 => Ok(ShaderType::F16),
            ShaderType::Struct(_) | ShaderType::Ptr(_, _, _) | ShaderType::Ref(_, _, _) =>
                self.clone(alloc),
        }
    }

    /// The type of what is read from it: references are taken off.
    #[tactic(auto, using(crate::proofs::Classes::loaded_types))]
    pub fn loaded(&self, alloc: Global) -> Result<ShaderType, AllocError>
        ensures { IfOk result (λ made. made ≡ class.loaded_type self.now) }
    {
        match self {
            ShaderType::Ref(_, stored, _) => stored.get().loaded(alloc),
            ShaderType::Bool => Ok(ShaderType::Bool),
            ShaderType::AbstractInt => Ok(ShaderType::AbstractInt),
            ShaderType::AbstractFloat => Ok(ShaderType::AbstractFloat),
            ShaderType::I32 => Ok(ShaderType::I32),
            ShaderType::U32 => Ok(ShaderType::U32),
            ShaderType::F32 => Ok(ShaderType::F32),
            ShaderType::F16 => Ok(ShaderType::F16),
            ShaderType::Struct(_)
            | ShaderType::Array(_, _)
            | ShaderType::Vec(_, _)
            | ShaderType::Ptr(_, _, _) => self.clone(alloc),
        }
    }
}
