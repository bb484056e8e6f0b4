//! Copies of declarations and modules. Each equals what it copies, places too.

use crate::declaration::{
    FormalParameter, Function, GlobalDeclaration, Struct, StructMember, TypeAlias,
};
use crate::imports::CloneIn;
use crate::unit::TranslationUnit;
use std::alloc::{AllocError, Global};

impl CloneIn for TypeAlias {
    fn clone_in(&self, alloc: Global) -> Result<TypeAlias, AllocError> {
        Ok(TypeAlias {
            attributes: self.attributes.clone_in(alloc)?,
            ident: self.ident.clone_in(alloc)?,
            ty: self.ty.clone_in(alloc)?,
        })
    }
}

impl CloneIn for StructMember {
    fn clone_in(&self, alloc: Global) -> Result<StructMember, AllocError> {
        Ok(StructMember {
            attributes: self.attributes.clone_in(alloc)?,
            ident: self.ident.clone_in(alloc)?,
            ty: self.ty.clone_in(alloc)?,
        })
    }
}

impl CloneIn for Struct {
    fn clone_in(&self, alloc: Global) -> Result<Struct, AllocError> {
        Ok(Struct {
            attributes: self.attributes.clone_in(alloc)?,
            ident: self.ident.clone_in(alloc)?,
            members: self.members.clone_in(alloc)?,
        })
    }
}

impl CloneIn for FormalParameter {
    fn clone_in(&self, alloc: Global) -> Result<FormalParameter, AllocError> {
        Ok(FormalParameter {
            attributes: self.attributes.clone_in(alloc)?,
            ident: self.ident.clone_in(alloc)?,
            ty: self.ty.clone_in(alloc)?,
        })
    }
}

impl CloneIn for Function {
    fn clone_in(&self, alloc: Global) -> Result<Function, AllocError> {
        Ok(Function {
            attributes: self.attributes.clone_in(alloc)?,
            ident: self.ident.clone_in(alloc)?,
            parameters: self.parameters.clone_in(alloc)?,
            return_attributes: self.return_attributes.clone_in(alloc)?,
            return_type: self.return_type.clone_in(alloc)?,
            body: self.body.clone_in(alloc)?,
        })
    }
}

impl CloneIn for GlobalDeclaration {
    fn clone_in(&self, alloc: Global) -> Result<GlobalDeclaration, AllocError> {
        match self {
            GlobalDeclaration::Void => Ok(GlobalDeclaration::Void),
            GlobalDeclaration::Declaration(x) => Ok(GlobalDeclaration::Declaration(x.clone_in(
                alloc,
            )?)),
            GlobalDeclaration::TypeAlias(x) => Ok(GlobalDeclaration::TypeAlias(x.clone_in(alloc)?)),
            GlobalDeclaration::Struct(x) => Ok(GlobalDeclaration::Struct(x.clone_in(alloc)?)),
            GlobalDeclaration::Function(x) => Ok(GlobalDeclaration::Function(x.clone_in(alloc)?)),
            GlobalDeclaration::ConstAssert(x) => Ok(GlobalDeclaration::ConstAssert(x.clone_in(
                alloc,
            )?)),
        }
    }
}

impl CloneIn for TranslationUnit {
    fn clone_in(&self, alloc: Global) -> Result<TranslationUnit, AllocError> {
        Ok(TranslationUnit {
            imports: self.imports.clone_in(alloc)?,
            global_directives: self.global_directives.clone_in(alloc)?,
            global_declarations: self.global_declarations.clone_in(alloc)?,
        })
    }
}
