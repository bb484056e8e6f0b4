//! What has a type, and what converts to others.

ghost use Rattle.std.specs.Prelude.{◌≡◌, IfOk};
ghost use Rattle.wgsl_types.specs.Convert as spec;

use std::alloc::{AllocError, Global};
use wgsl_base::Boxed;
use wgsl_shader_type::{LiteralInstance, Type};

/// What has a type.
pub trait Ty {
    ghost use Rattle.wgsl_shader_type.specs.declared.tree.ShaderType.{ShaderType};

    /// Its type.
    ghost type_of: { Self → ShaderType };

    /// The type of its components, of its elements, or of what it leads to; else its own.
    ghost inner_type_of: { Self → ShaderType };

    fn ty(&self, alloc: Global) -> Result<Type, AllocError>
        ensures { IfOk result (λ ty. ty ≡ type_of self.now) };

    fn inner_ty(&self, alloc: Global) -> Result<Type, AllocError>
        ensures { IfOk result (λ ty. ty ≡ inner_type_of self.now) };
}

/// What converts to other types implicitly.
pub trait Convert: Ty + Sized + Drop {
    ghost use Rattle.std.specs.Prelude.{◌≡◌, ◌⊎◌, Option, Some, None};
    ghost use Rattle.wgsl_shader_type.specs.declared.tree.ShaderType.{ShaderType};
    ghost use Rattle.wgsl_shader_type.specs.Class.{concrete_type};
    ghost use Rattle.wgsl_shader_type.specs.Conversion.{Converts};
    ghost use Rattle.wgsl_types.specs.ConvertLaws.{IsIndirect};

    /// It at another type, or nothing where it doesn't convert.
    ghost converted: { Self → ShaderType → Option Self };

    /// It with its inner type converted to another, or nothing where that doesn't convert.
    ghost inner_converted: { Self → ShaderType → Option Self };

    /// It at a concrete type.
    ghost concretized: { Self → Self };

    /// It is a value that another type can't hold, though its type converts to that. No type is.
    ghost unfit: { Self → ShaderType → Type 0 };

    fn convert_to(&self, alloc: Global, ty: &Type) -> Result<Option<Self>, AllocError>
        ensures { IfOk result (λ found. found ≡ converted self.now ty.now) };

    fn convert_inner_to(&self, alloc: Global, ty: &Type) -> Result<Option<Self>, AllocError>
        ensures { IfOk result (λ found. found ≡ inner_converted self.now ty.now) };

    fn concretize(&self, alloc: Global) -> Result<Self, AllocError>
        ensures { IfOk result (λ made. made ≡ concretized self.now) };

    /// What it is converted to has the type that was asked for.
    ghost has_type: { (s r : Self) (t : ShaderType) → converted s t ≡ Some r → Self.type_of r ≡ t };

    /// It is converted only where its type converts,
    ghost where_type_does: { (s r : Self) (t : ShaderType) → converted s t ≡ Some r → Converts (Self.type_of s) t };

    /// and there always, unless that type can't hold it.
    ghost unless_unfit: { (s : Self) (t : ShaderType) → converted s t ≡ None → Converts (Self.type_of s) t → unfit s t };

    /// Likewise for its inner type, but behind pointers and references.
    ghost has_inner_type: { (s r : Self) (t : ShaderType) → inner_converted s t ≡ Some r → Self.inner_type_of r ≡ t };

    ghost where_inner_type_does: { (s r : Self) (t : ShaderType) → inner_converted s t ≡ Some r → Converts (Self.inner_type_of s) t };

    ghost inner_unless_unfit: { (s : Self) (t : ShaderType) → inner_converted s t ≡ None → Converts (Self.inner_type_of s) t → unfit s t ⊎ IsIndirect (Self.type_of s) };

    /// At a concrete type it has the concrete type of its own.
    ghost is_concrete: { (s : Self) → Self.type_of (concretized s) ≡ concrete_type (Self.type_of s) };
}

impl Ty for Type {
    ghost use Rattle.wgsl_types.specs.Convert.{inner_type};

    ghost type_of = { λ t. t };

    ghost inner_type_of = { inner_type };

    fn ty(&self, alloc: Global) -> Result<Type, AllocError> {
        self.clone(alloc)
    }

    fn inner_ty(&self, alloc: Global) -> Result<Type, AllocError> {
        match self {
            Type::Array(element, _) => element.get().clone(alloc),
            Type::Vec(_, component) => component.get().clone(alloc),
            Type::Ptr(_, stored, _) => stored.get().clone(alloc),
            Type::Ref(_, stored, _) => stored.get().clone(alloc),
            _ => self.clone(alloc),
        }
    }
}

fn literal_type(literal: LiteralInstance) -> Type
    ensures { result ≡ spec.literal_type literal }
{
    match literal {
        LiteralInstance::Bool(_) => Type::Bool,
        LiteralInstance::AbstractInt(_) => Type::AbstractInt,
        LiteralInstance::I32(_) => Type::I32,
        LiteralInstance::U32(_) => Type::U32,
    }
}

impl Ty for LiteralInstance {
    ghost use Rattle.wgsl_types.specs.Convert.{literal_type};

    ghost type_of = { literal_type };

    ghost inner_type_of = { literal_type };

    fn ty(&self, _alloc: Global) -> Result<Type, AllocError> {
        Ok(literal_type(*self))
    }

    fn inner_ty(&self, _alloc: Global) -> Result<Type, AllocError> {
        Ok(literal_type(*self))
    }
}

fn converted_type(alloc: Global, from: &Type, to: &Type) -> Result<Option<Type>, AllocError>
    ensures { IfOk result (λ found. found ≡ spec.converted_type from.now to.now) }
{
    if from.is_convertible_to(to) {
        Ok(Some(to.clone(alloc)?))
    } else {
        Ok(None)
    }
}

impl Convert for Type {
    ghost use Rattle.std.proofs.Common.{refl};
    ghost use Rattle.wgsl_shader_type.specs.Class.{concrete_type};
    ghost use Rattle.wgsl_types.specs.ConvertLaws.{type_has, type_where, type_unless, inner_has, inner_where, inner_unless};

    ghost converted = { spec.converted_type };

    ghost inner_converted = { spec.inner_converted_type };

    ghost concretized = { concrete_type };

    ghost unfit = { λ _ _. ⊥ };

    ghost has_type = { type_has };

    ghost where_type_does = { type_where };

    ghost unless_unfit = { type_unless };

    ghost has_inner_type = { inner_has };

    ghost where_inner_type_does = { inner_where };

    ghost inner_unless_unfit = { inner_unless };

    ghost is_concrete = { λ _. refl };

    fn convert_to(&self, alloc: Global, ty: &Type) -> Result<Option<Type>, AllocError> {
        converted_type(alloc, self, ty)
    }

    fn convert_inner_to(&self, alloc: Global, ty: &Type) -> Result<Option<Type>, AllocError> {
        match self {
            Type::Array(element, count) => {
                if element.get().is_convertible_to(ty) {
                    let element = ty.clone(alloc)?;
                    Ok(Some(Type::Array(Boxed::new(alloc, element)?, *count)))
                } else {
                    Ok(None)
                }
            }
            Type::Vec(count, component) => {
                if component.get().is_convertible_to(ty) {
                    let component = ty.clone(alloc)?;
                    Ok(Some(Type::Vec(*count, Boxed::new(alloc, component)?)))
                } else {
                    Ok(None)
                }
            }
            Type::Ptr(_, _, _) => Ok(None),
            Type::Ref(_, _, _) => Ok(None),
            _ => converted_type(alloc, self, ty),
        }
    }

    fn concretize(&self, alloc: Global) -> Result<Type, AllocError> {
        Type::concretize(self, alloc)
    }
}
