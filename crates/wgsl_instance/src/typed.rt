//! The type of a value.

ghost use Rattle.std.specs.Prelude.{◌≡◌, IfOk, length};
ghost use Rattle.wgsl_instance.specs.Typed as spec;

use crate::tree::{ArrayInstance, Instance, RefInstance, VecInstance};
use std::alloc::{AllocError, Global};
use wgsl_base::Boxed;
use wgsl_scalar::type_of;
use wgsl_shader_type::{LiteralInstance, Type};

/// The type of a scalar.
pub(crate) fn literal_type(value: LiteralInstance) -> Type
    ensures { result ≡ spec.literal_type value }
{
    type_of(value).ty()
}

/// The number of components in a vector's type, which is below 256.
fn component_count(components: &[LiteralInstance]) -> u8
    ensures { result ≡ spec.component_count components.now }
{
    u8::try_from(components.len()).unwrap_or(255)
}

/// The number of elements in an array's type.
fn element_count(runtime_sized: bool, count: usize) -> Option<usize>
    ensures { result ≡ spec.element_count runtime_sized count }
{
    if runtime_sized { None } else { Some(count) }
}

impl VecInstance {
    /// The vector's type.
    pub fn ty(&self, alloc: Global) -> Result<Type, AllocError>
        ensures { IfOk result (λ ty. ty ≡ spec.vector_type self.now) }
    {
        let count = component_count(self.components.as_slice());
        Ok(Type::Vec(count, Boxed::new(alloc, self.ty.ty())?))
    }
}

impl ArrayInstance {
    /// The array's type, without a count where it is runtime-sized.
    pub fn ty(&self, alloc: Global) -> Result<Type, AllocError>
        ensures { IfOk result (λ ty. ty ≡ spec.array_type self.now) }
    {
        let count = element_count(self.runtime_sized, self.components.len());
        let element = self.element.clone(alloc)?;
        Ok(Type::Array(Boxed::new(alloc, element)?, count))
    }
}

impl RefInstance {
    /// The type of the reference.
    pub fn reference_type(&self, alloc: Global) -> Result<Type, AllocError>
        ensures { IfOk result (λ ty. ty ≡ spec.reference_type self.now) }
    {
        let stored = self.ty.clone(alloc)?;
        Ok(Type::Ref(self.space, Boxed::new(alloc, stored)?, self.access))
    }

    /// The type of a pointer to the same place.
    pub fn pointer_type(&self, alloc: Global) -> Result<Type, AllocError>
        ensures { IfOk result (λ ty. ty ≡ spec.pointer_type self.now) }
    {
        let stored = self.ty.clone(alloc)?;
        Ok(Type::Ptr(self.space, Boxed::new(alloc, stored)?, self.access))
    }
}

impl Instance {
    /// The type of the value.
    pub fn ty(&self, alloc: Global) -> Result<Type, AllocError>
        ensures { IfOk result (λ ty. ty ≡ spec.type_of self.now) }
    {
        match self {
            Instance::Literal(value) => Ok(literal_type(*value)),
            Instance::Struct(value) => Ok(Type::Struct(Boxed::new(alloc, value.ty.clone(alloc)?)?)),
            Instance::Array(value) => value.ty(alloc),
            Instance::Vec(value) => value.ty(alloc),
            Instance::Ptr(value) => value.reference.pointer_type(alloc),
            Instance::Ref(value) => value.reference_type(alloc),
            Instance::Deferred(ty) => ty.clone(alloc),
        }
    }
}
