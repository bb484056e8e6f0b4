//! Trees that are made of their parts. What is made has no attributes.

ghost use Rattle.std.specs.Prelude.{◌≡◌, [], None};

use crate::declaration::{
    FormalParameter, Function, GlobalDeclaration, Struct, StructMember, TypeAlias,
};
use crate::imports::{Ident, Items, TypeExpression};
use crate::unit::TranslationUnit;
use std::alloc::Global;
use wgsl_statements::{CompoundStatement, ConstAssert, Declaration};

impl TranslationUnit {
    /// A module with nothing in it.
    pub fn new(alloc: Global) -> TranslationUnit
        ensures { result ≡ record { imports = []; global_directives = []; global_declarations = [] } }
    {
        TranslationUnit {
            imports: Items::new(alloc),
            global_directives: Items::new(alloc),
            global_declarations: Items::new(alloc),
        }
    }
}

impl TypeAlias {
    pub fn new(alloc: Global, ident: Ident, ty: TypeExpression) -> TypeAlias
        ensures { result ≡ record { attributes = []; ident = ident; ty = ty } }
    {
        TypeAlias {
            attributes: Items::new(alloc),
            ident,
            ty,
        }
    }
}

impl Struct {
    /// A structure without members.
    pub fn new(alloc: Global, ident: Ident) -> Struct
        ensures { result ≡ record { attributes = []; ident = ident; members = [] } }
    {
        Struct {
            attributes: Items::new(alloc),
            ident,
            members: Items::new(alloc),
        }
    }
}

impl StructMember {
    pub fn new(alloc: Global, ident: Ident, ty: TypeExpression) -> StructMember
        ensures { result ≡ record { attributes = []; ident = ident; ty = ty } }
    {
        StructMember {
            attributes: Items::new(alloc),
            ident,
            ty,
        }
    }
}

impl Function {
    /// A function without parameters and result, whose body is empty.
    pub fn new(alloc: Global, ident: Ident) -> Function
        ensures { result ≡ record { attributes = []; ident = ident; parameters = []; return_attributes = []; return_type = None; body = record { attributes = []; statements = [] } } }
    {
        Function {
            attributes: Items::new(alloc),
            ident,
            parameters: Items::new(alloc),
            return_attributes: Items::new(alloc),
            return_type: None,
            body: CompoundStatement {
                attributes: Items::new(alloc),
                statements: Items::new(alloc),
            },
        }
    }
}

impl FormalParameter {
    pub fn new(alloc: Global, ident: Ident, ty: TypeExpression) -> FormalParameter
        ensures { result ≡ record { attributes = []; ident = ident; ty = ty } }
    {
        FormalParameter {
            attributes: Items::new(alloc),
            ident,
            ty,
        }
    }
}

impl From<Declaration> for GlobalDeclaration {
    ghost use Rattle.std.specs.Prelude.{◌≡◌};
    ghost use Rattle.wgsl_declarations.specs.declared.declaration.GlobalDeclaration.TheVariants.{Declaration};

    ghost from_gives = { λ x made. made ≡ Declaration x };

    fn from(x: Declaration) -> GlobalDeclaration {
        GlobalDeclaration::Declaration(x)
    }
}

impl From<TypeAlias> for GlobalDeclaration {
    ghost use Rattle.std.specs.Prelude.{◌≡◌};
    ghost use Rattle.wgsl_declarations.specs.declared.declaration.GlobalDeclaration.TheVariants.{TypeAlias};

    ghost from_gives = { λ x made. made ≡ TypeAlias x };

    fn from(x: TypeAlias) -> GlobalDeclaration {
        GlobalDeclaration::TypeAlias(x)
    }
}

impl From<Struct> for GlobalDeclaration {
    ghost use Rattle.std.specs.Prelude.{◌≡◌};
    ghost use Rattle.wgsl_declarations.specs.declared.declaration.GlobalDeclaration.TheVariants.{Struct};

    ghost from_gives = { λ x made. made ≡ Struct x };

    fn from(x: Struct) -> GlobalDeclaration {
        GlobalDeclaration::Struct(x)
    }
}

impl From<Function> for GlobalDeclaration {
    ghost use Rattle.std.specs.Prelude.{◌≡◌};
    ghost use Rattle.wgsl_declarations.specs.declared.declaration.GlobalDeclaration.TheVariants.{Function};

    ghost from_gives = { λ x made. made ≡ Function x };

    fn from(x: Function) -> GlobalDeclaration {
        GlobalDeclaration::Function(x)
    }
}

impl From<ConstAssert> for GlobalDeclaration {
    ghost use Rattle.std.specs.Prelude.{◌≡◌};
    ghost use Rattle.wgsl_declarations.specs.declared.declaration.GlobalDeclaration.TheVariants.{ConstAssert};

    ghost from_gives = { λ x made. made ≡ ConstAssert x };

    fn from(x: ConstAssert) -> GlobalDeclaration {
        GlobalDeclaration::ConstAssert(x)
    }
}
