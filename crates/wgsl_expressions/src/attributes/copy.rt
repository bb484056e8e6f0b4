//! Copies of attributes. Each equals what it copies, places too.

use crate::CloneIn;
use crate::attributes::attribute::{
    Attribute, CustomAttribute, DiagnosticAttribute, InterpolateAttribute, WorkgroupSizeAttribute,
};
use std::alloc::{AllocError, Global};

impl CloneIn for Attribute {
    fn clone_in(&self, alloc: Global) -> Result<Attribute, AllocError> {
        match self {
            Attribute::Align(x) => Ok(Attribute::Align(x.clone_in(alloc)?)),
            Attribute::Binding(x) => Ok(Attribute::Binding(x.clone_in(alloc)?)),
            Attribute::BlendSrc(x) => Ok(Attribute::BlendSrc(x.clone_in(alloc)?)),
            Attribute::Builtin(x) => Ok(Attribute::Builtin(*x)),
            Attribute::Const => Ok(Attribute::Const),
            Attribute::Diagnostic(x) => Ok(Attribute::Diagnostic(x.clone_in(alloc)?)),
            Attribute::Group(x) => Ok(Attribute::Group(x.clone_in(alloc)?)),
            Attribute::Id(x) => Ok(Attribute::Id(x.clone_in(alloc)?)),
            Attribute::Interpolate(x) => Ok(Attribute::Interpolate(*x)),
            Attribute::Invariant => Ok(Attribute::Invariant),
            Attribute::Location(x) => Ok(Attribute::Location(x.clone_in(alloc)?)),
            Attribute::MustUse => Ok(Attribute::MustUse),
            Attribute::Size(x) => Ok(Attribute::Size(x.clone_in(alloc)?)),
            Attribute::WorkgroupSize(x) => Ok(Attribute::WorkgroupSize(x.clone_in(alloc)?)),
            Attribute::Vertex => Ok(Attribute::Vertex),
            Attribute::Fragment => Ok(Attribute::Fragment),
            Attribute::Compute => Ok(Attribute::Compute),
            Attribute::Publish => Ok(Attribute::Publish),
            Attribute::If(x) => Ok(Attribute::If(x.clone_in(alloc)?)),
            Attribute::Elif(x) => Ok(Attribute::Elif(x.clone_in(alloc)?)),
            Attribute::Else => Ok(Attribute::Else),
            Attribute::Custom(x) => Ok(Attribute::Custom(x.clone_in(alloc)?)),
        }
    }
}

impl CloneIn for DiagnosticAttribute {
    fn clone_in(&self, alloc: Global) -> Result<DiagnosticAttribute, AllocError> {
        Ok(DiagnosticAttribute {
            severity: self.severity,
            rule: self.rule.clone_in(alloc)?,
        })
    }
}

impl CloneIn for InterpolateAttribute {
    fn clone_in(&self, _alloc: Global) -> Result<InterpolateAttribute, AllocError> {
        Ok(*self)
    }
}

impl CloneIn for WorkgroupSizeAttribute {
    fn clone_in(&self, alloc: Global) -> Result<WorkgroupSizeAttribute, AllocError> {
        Ok(WorkgroupSizeAttribute {
            x: self.x.clone_in(alloc)?,
            y: self.y.clone_in(alloc)?,
            z: self.z.clone_in(alloc)?,
        })
    }
}

impl CloneIn for CustomAttribute {
    fn clone_in(&self, alloc: Global) -> Result<CustomAttribute, AllocError> {
        Ok(CustomAttribute {
            name: self.name.clone_in(alloc)?,
            arguments: self.arguments.clone_in(alloc)?,
        })
    }
}
