//! Copies of values, which equal what they copy.

ghost use Rattle.std.specs.Prelude.{◌≡◌, IfOk};

use crate::tree::{
    ArrayInstance, Instance, PtrInstance, RefInstance, Step, StructInstance, VecInstance,
};
use std::alloc::{AllocError, Global};
use wgsl_base::{CloneIn, Items};
use wgsl_shader_type::LiteralInstance;

impl Instance {
    /// A copy in fresh memory.
    #[cycle(copy)]
    pub fn clone(&self, alloc: Global) -> Result<Instance, AllocError>
        ensures { IfOk result (λ copy. copy ≡ self.now) }
    {
        match self {
            Instance::Literal(value) => Ok(Instance::Literal(*value)),
            Instance::Struct(value) => Ok(Instance::Struct(value.clone(alloc)?)),
            Instance::Array(value) => Ok(Instance::Array(value.clone(alloc)?)),
            Instance::Vec(value) => Ok(Instance::Vec(value.clone(alloc)?)),
            Instance::Ptr(value) => Ok(Instance::Ptr(value.clone(alloc)?)),
            Instance::Ref(value) => Ok(Instance::Ref(value.clone(alloc)?)),
            Instance::Deferred(ty) => Ok(Instance::Deferred(ty.clone(alloc)?)),
        }
    }
}

#[cycle(copy)]
fn copy_parts(alloc: Global, parts: &[Instance]) -> Result<Items<Instance>, AllocError>
    ensures { IfOk result (λ copy. copy ≡ parts.now) }
{
    let mut copies = Items::new(alloc);
    for part in parts {
        copies.push(part.clone(alloc)?)?;
    }
    Ok(copies)
}

impl StructInstance {
    /// A copy in fresh memory.
    #[cycle(copy)]
    pub fn clone(&self, alloc: Global) -> Result<StructInstance, AllocError>
        ensures { IfOk result (λ copy. copy ≡ self.now) }
    {
        Ok(StructInstance {
            ty: self.ty.clone(alloc)?,
            members: copy_parts(alloc, self.members.as_slice())?,
        })
    }
}

impl ArrayInstance {
    /// A copy in fresh memory.
    #[cycle(copy)]
    pub fn clone(&self, alloc: Global) -> Result<ArrayInstance, AllocError>
        ensures { IfOk result (λ copy. copy ≡ self.now) }
    {
        Ok(ArrayInstance {
            element: self.element.clone(alloc)?,
            components: copy_parts(alloc, self.components.as_slice())?,
            runtime_sized: self.runtime_sized,
        })
    }
}

/// A copy of scalars.
pub(crate) fn copy_literals(
    alloc: Global,
    literals: &[LiteralInstance],
) -> Result<Items<LiteralInstance>, AllocError>
    ensures { IfOk result (λ copy. copy ≡ literals.now) }
{
    let mut copies = Items::new(alloc);
    for literal in literals {
        copies.push(*literal)?;
    }
    Ok(copies)
}

impl VecInstance {
    /// A copy in fresh memory.
    pub fn clone(&self, alloc: Global) -> Result<VecInstance, AllocError>
        ensures { IfOk result (λ copy. copy ≡ self.now) }
    {
        Ok(VecInstance {
            ty: self.ty,
            components: copy_literals(alloc, self.components.as_slice())?,
        })
    }
}

impl RefInstance {
    /// A copy in fresh memory.
    pub fn clone(&self, alloc: Global) -> Result<RefInstance, AllocError>
        ensures { IfOk result (λ copy. copy ≡ self.now) }
    {
        Ok(RefInstance {
            cell: self.cell,
            path: self.path.clone_in(alloc)?,
            ty: self.ty.clone(alloc)?,
            space: self.space,
            access: self.access,
        })
    }
}

impl PtrInstance {
    /// A copy in fresh memory.
    pub fn clone(&self, alloc: Global) -> Result<PtrInstance, AllocError>
        ensures { IfOk result (λ copy. copy ≡ self.now) }
    {
        Ok(PtrInstance {
            reference: self.reference.clone(alloc)?,
        })
    }
}

impl CloneIn for Instance {
    fn clone_in(&self, alloc: Global) -> Result<Instance, AllocError> {
        self.clone(alloc)
    }
}

impl CloneIn for VecInstance {
    fn clone_in(&self, alloc: Global) -> Result<VecInstance, AllocError> {
        self.clone(alloc)
    }
}

impl CloneIn for RefInstance {
    fn clone_in(&self, alloc: Global) -> Result<RefInstance, AllocError> {
        self.clone(alloc)
    }
}

impl CloneIn for PtrInstance {
    fn clone_in(&self, alloc: Global) -> Result<PtrInstance, AllocError> {
        self.clone(alloc)
    }
}

impl CloneIn for Step {
    fn clone_in(&self, _alloc: Global) -> Result<Step, AllocError> {
        Ok(*self)
    }
}
