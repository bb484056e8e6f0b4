//! Copies of types, which equal what they copy.

ghost use Rattle.std.specs.Prelude.{◌≡◌, IfOk};

use crate::tree::{ShaderType, StructMemberType, StructType};
use std::alloc::{AllocError, Global};
use wgsl_base::{Boxed, CloneIn, Items};

impl ShaderType {
    /// A copy in fresh memory.
    #[cycle(copy)]
    pub fn clone(&self, alloc: Global) -> Result<ShaderType, AllocError>
        ensures { IfOk result (λ copy. copy ≡ self.now) }
    {
        match self {
            ShaderType::Bool => Ok(ShaderType::Bool),
            ShaderType::AbstractInt => Ok(ShaderType::AbstractInt),
            ShaderType::AbstractFloat => Ok(ShaderType::AbstractFloat),
            ShaderType::I32 => Ok(ShaderType::I32),
            ShaderType::U32 => Ok(ShaderType::U32),
            ShaderType::F32 => Ok(ShaderType::F32),
            ShaderType::F16 => Ok(ShaderType::F16),
            ShaderType::Struct(x) => Ok(ShaderType::Struct(Boxed::new(
                alloc,
                x.get().clone(alloc)?,
            )?)),
            ShaderType::Array(element, count) => Ok(ShaderType::Array(
                copy_boxed(alloc, element)?,
                *count,
            )),
            ShaderType::Vec(count, component) => Ok(ShaderType::Vec(
                *count,
                copy_boxed(alloc, component)?,
            )),
            ShaderType::Ptr(space, stored, access) => {
                Ok(ShaderType::Ptr(*space, copy_boxed(alloc, stored)?, *access))
            }
            ShaderType::Ref(space, stored, access) => {
                Ok(ShaderType::Ref(*space, copy_boxed(alloc, stored)?, *access))
            }
        }
    }
}

#[cycle(copy)]
fn copy_boxed(alloc: Global, ty: &Boxed<ShaderType>) -> Result<Boxed<ShaderType>, AllocError>
    ensures { IfOk result (λ copy. copy ≡ ty.now) }
{
    Ok(Boxed::new(alloc, ty.get().clone(alloc)?)?)
}

impl StructType {
    /// A copy in fresh memory.
    #[cycle(copy)]
    pub fn clone(&self, alloc: Global) -> Result<StructType, AllocError>
        ensures { IfOk result (λ copy. copy ≡ self.now) }
    {
        let mut members = Items::new(alloc);
        for member in self.members.as_slice() {
            members.push(member.clone(alloc)?)?;
        }
        Ok(StructType {
            name: self.name.clone_in(alloc)?,
            members,
        })
    }
}

impl StructMemberType {
    /// A copy in fresh memory.
    #[cycle(copy)]
    pub fn clone(&self, alloc: Global) -> Result<StructMemberType, AllocError>
        ensures { IfOk result (λ copy. copy ≡ self.now) }
    {
        Ok(StructMemberType {
            name: self.name.clone_in(alloc)?,
            ty: self.ty.clone(alloc)?,
            size: self.size,
            align: self.align,
        })
    }
}

impl CloneIn for ShaderType {
    fn clone_in(&self, alloc: Global) -> Result<ShaderType, AllocError> {
        self.clone(alloc)
    }
}

impl CloneIn for StructType {
    fn clone_in(&self, alloc: Global) -> Result<StructType, AllocError> {
        self.clone(alloc)
    }
}

impl CloneIn for StructMemberType {
    fn clone_in(&self, alloc: Global) -> Result<StructMemberType, AllocError> {
        self.clone(alloc)
    }
}
