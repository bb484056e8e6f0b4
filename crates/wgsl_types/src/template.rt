//! The arguments of templates, read as what the templates make.

ghost use Rattle.std.specs.Prelude.{◌≡◌, ◌⊎◌, Some, None, IfOk, MatchResult, codes};
ghost use Rattle.wgsl_shader_type.specs.declared.tree.ShaderType.TheVariants as type;
ghost use Rattle.wgsl_types.specs.Template as spec;

use std::alloc::{AllocError, Global};
use wgsl_base::{Boxed, CloneIn, Text};
use wgsl_shader_type::{Error, LiteralInstance, TpltParam, Type};
use wgsl_words::{AccessMode, AddressSpace, Enumerant};

/// The template of a vector: the type of its components.
#[derive(Debug, Drop, PartialEq)]
pub struct VecTemplate {
    pub component: Type,
}

/// The template of an array: the type of its elements and, where it has one, its length.
#[derive(Debug, Drop, PartialEq)]
pub struct ArrayTemplate {
    pub element: Type,
    pub count: Option<usize>,
}

/// The template of a pointer: where it leads, to what, and how.
#[derive(Debug, Drop, PartialEq)]
pub struct PtrTemplate {
    pub space: AddressSpace,
    pub stored: Type,
    pub access: AccessMode,
}

impl VecTemplate {
    /// Reads one scalar type; any other list is `TemplateArgs`.
    pub fn parse(alloc: Global, params: &[TpltParam]) -> Result<VecTemplate, Error>
        ensures { MatchResult result
            (λ made. spec.vector_reading params.now ≡ Some made.component)
            (λ error. (error ≡ Error.OutOfMemory) ⊎ ((spec.vector_reading params.now ≡ None) × spec.IsTemplateArgs (codes "vec") error)) }
    {
        match params {
            [TpltParam::Ty(ty)] => {
                if ty.is_scalar() {
                    let component = ty.clone(alloc)?;
                    Ok(VecTemplate { component })
                } else {
                    Err(Error::TemplateArgs("vec"))
                }
            }
            _ => Err(Error::TemplateArgs("vec")),
        }
    }

    /// The vector of so many components.
    pub fn ty(&self, alloc: Global, n: u8) -> Result<Type, AllocError>
        ensures { IfOk result (λ ty. ty ≡ type.Vec n self.now.component) }
    {
        let component = self.component.clone(alloc)?;
        Ok(Type::Vec(n, Boxed::new(alloc, component)?))
    }

    /// The type of the components.
    pub fn inner_ty(&self) -> &Type
        ensures { result.now ≡ self.now.component }
    {
        &self.component
    }

    /// A copy in fresh memory.
    pub fn clone(&self, alloc: Global) -> Result<VecTemplate, AllocError>
        ensures { IfOk result (λ copy. copy ≡ self.now) }
    {
        Ok(VecTemplate {
            component: self.component.clone(alloc)?,
        })
    }
}

impl CloneIn for VecTemplate {
    fn clone_in(&self, alloc: Global) -> Result<VecTemplate, AllocError> {
        self.clone(alloc)
    }
}

/// The number of elements that a literal gives: a whole number above 0. The number 0 is not supported, any other literal is no count.
fn count_of(alloc: Global, literal: LiteralInstance) -> Result<usize, Error>
    ensures { MatchResult result
        (λ count. spec.count_reading literal ≡ Some count)
        (λ error. (error ≡ Error.OutOfMemory) ⊎ ((spec.count_reading literal ≡ None) × spec.array_template_fault (spec.is_zero literal) error)) }
{
    let found = match literal {
        LiteralInstance::AbstractInt(n) => usize::try_from(n).ok(),
        LiteralInstance::I32(n) => usize::try_from(n).ok(),
        LiteralInstance::U32(n) => Some(n as usize),
        LiteralInstance::Bool(_) => None,
    };
    match found {
        Some(0) => Err(Error::Todo(Text::from_str(alloc, "array")?)),
        Some(count) => Ok(count),
        None => Err(Error::TemplateArgs("array")),
    }
}

/// An array of the number of elements that a literal gives.
fn counted(alloc: Global, ty: &Type, literal: LiteralInstance) -> Result<ArrayTemplate, Error>
    ensures { MatchResult result
        (λ made. spec.counted ty.now (spec.count_reading literal) ≡ Some made)
        (λ error. (error ≡ Error.OutOfMemory) ⊎ ((spec.counted ty.now (spec.count_reading literal) ≡ None) × spec.array_template_fault (spec.is_zero literal) error)) }
{
    match count_of(alloc, literal) {
        Ok(count) => {
            let element = ty.clone(alloc)?;
            Ok(ArrayTemplate::new(element, Some(count)))
        }
        Err(error) => Err(error),
    }
}

impl ArrayTemplate {
    /// A template of these elements and this count. It needs no memory.
    pub fn new(element: Type, count: Option<usize>) -> ArrayTemplate
        ensures { result ≡ record { element = element; count = count } }
    {
        ArrayTemplate { element, count }
    }

    /// Reads a type and, after it, a count above 0, if there is one. The count 0 is `Todo`; any other list is `TemplateArgs`.
    pub fn parse(alloc: Global, params: &[TpltParam]) -> Result<ArrayTemplate, Error>
        ensures { MatchResult result
            (λ made. spec.array_reading params.now ≡ Some made)
            (λ error. (error ≡ Error.OutOfMemory) ⊎ ((spec.array_reading params.now ≡ None) × spec.IsArrayTemplateFault params.now error)) }
    {
        match params {
            [TpltParam::Ty(ty)] => Ok(ArrayTemplate::new(ty.clone(alloc)?, None)),
            [TpltParam::Ty(ty), TpltParam::Instance(literal)] => counted(alloc, ty, *literal),
            _ => Err(Error::TemplateArgs("array")),
        }
    }

    /// The array.
    pub fn ty(&self, alloc: Global) -> Result<Type, AllocError>
        ensures { IfOk result (λ ty. ty ≡ type.Array self.now.element self.now.count) }
    {
        let element = self.element.clone(alloc)?;
        Ok(Type::Array(Boxed::new(alloc, element)?, self.count))
    }

    /// The type of the elements.
    pub fn inner_ty(&self) -> &Type
        ensures { result.now ≡ self.now.element }
    {
        &self.element
    }

    /// How many elements there are, where that is fixed.
    pub fn n(&self) -> Option<usize>
        ensures { result ≡ self.now.count }
    {
        self.count
    }

    /// A copy in fresh memory.
    pub fn clone(&self, alloc: Global) -> Result<ArrayTemplate, AllocError>
        ensures { IfOk result (λ copy. copy ≡ self.now) }
    {
        Ok(ArrayTemplate {
            element: self.element.clone(alloc)?,
            count: self.count,
        })
    }
}

impl CloneIn for ArrayTemplate {
    fn clone_in(&self, alloc: Global) -> Result<ArrayTemplate, AllocError> {
        self.clone(alloc)
    }
}

impl PtrTemplate {
    /// Reads an address space and a type and, in the storage space, an access mode, if there is one; any other list is `TemplateArgs`.
    pub fn parse(alloc: Global, params: &[TpltParam]) -> Result<PtrTemplate, Error>
        ensures { MatchResult result
            (λ made. spec.pointer_reading params.now ≡ Some made)
            (λ error. (error ≡ Error.OutOfMemory) ⊎ ((spec.pointer_reading params.now ≡ None) × spec.IsTemplateArgs (codes "ptr") error)) }
    {
        match params {
            [
                TpltParam::Enumerant(Enumerant::AddressSpace(space)),
                TpltParam::Ty(ty),
            ] => Ok(PtrTemplate {
                space: *space,
                stored: ty.clone(alloc)?,
                access: space.default_access_mode(),
            }),
            [
                TpltParam::Enumerant(Enumerant::AddressSpace(AddressSpace::Storage)),
                TpltParam::Ty(ty),
                TpltParam::Enumerant(Enumerant::AccessMode(access)),
            ] => Ok(PtrTemplate {
                space: AddressSpace::Storage,
                stored: ty.clone(alloc)?,
                access: *access,
            }),
            _ => Err(Error::TemplateArgs("ptr")),
        }
    }

    /// The pointer.
    pub fn ty(&self, alloc: Global) -> Result<Type, AllocError>
        ensures { IfOk result (λ ty. ty ≡ type.Ptr self.now.space self.now.stored self.now.access) }
    {
        let stored = self.stored.clone(alloc)?;
        Ok(Type::Ptr(self.space, Boxed::new(alloc, stored)?, self.access))
    }

    /// A copy in fresh memory.
    pub fn clone(&self, alloc: Global) -> Result<PtrTemplate, AllocError>
        ensures { IfOk result (λ copy. copy ≡ self.now) }
    {
        Ok(PtrTemplate {
            space: self.space,
            stored: self.stored.clone(alloc)?,
            access: self.access,
        })
    }
}

impl CloneIn for PtrTemplate {
    fn clone_in(&self, alloc: Global) -> Result<PtrTemplate, AllocError> {
        self.clone(alloc)
    }
}
