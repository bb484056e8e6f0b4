//! Declarations of modules, members and parameters.

use crate::node::{Header, SyntaxNode};
use wgsl_declarations::{
    FormalParameter, Function, GlobalDeclaration, Struct, StructMember, TypeAlias,
};
use wgsl_expressions::Attributes;

impl SyntaxNode for TypeAlias {
    ghost use Rattle.std.specs.Prelude.{Some, None};

    ghost place = { λ x. None };

    ghost name = { λ x. Some (x.ident) };

    ghost own = { λ x. Some (x.attributes) };

    ghost with_own = { λ x attributes. record x { attributes = attributes } };

    fn header(&self) -> Header<'_> {
        Header {
            span: None,
            ident: Some(&self.ident),
            attributes: Some(&self.attributes),
        }
    }

    fn attributes_mut(&mut self) -> Option<&mut Attributes> {
        Some(&mut self.attributes)
    }
}

impl SyntaxNode for Struct {
    ghost use Rattle.std.specs.Prelude.{Some, None};

    ghost place = { λ x. None };

    ghost name = { λ x. Some (x.ident) };

    ghost own = { λ x. Some (x.attributes) };

    ghost with_own = { λ x attributes. record x { attributes = attributes } };

    fn header(&self) -> Header<'_> {
        Header {
            span: None,
            ident: Some(&self.ident),
            attributes: Some(&self.attributes),
        }
    }

    fn attributes_mut(&mut self) -> Option<&mut Attributes> {
        Some(&mut self.attributes)
    }
}

impl SyntaxNode for StructMember {
    ghost use Rattle.std.specs.Prelude.{Some, None};

    ghost place = { λ x. None };

    ghost name = { λ x. Some (x.ident) };

    ghost own = { λ x. Some (x.attributes) };

    ghost with_own = { λ x attributes. record x { attributes = attributes } };

    fn header(&self) -> Header<'_> {
        Header {
            span: None,
            ident: Some(&self.ident),
            attributes: Some(&self.attributes),
        }
    }

    fn attributes_mut(&mut self) -> Option<&mut Attributes> {
        Some(&mut self.attributes)
    }
}

impl SyntaxNode for Function {
    ghost use Rattle.std.specs.Prelude.{Some, None};

    ghost place = { λ x. None };

    ghost name = { λ x. Some (x.ident) };

    ghost own = { λ x. Some (x.attributes) };

    ghost with_own = { λ x attributes. record x { attributes = attributes } };

    fn header(&self) -> Header<'_> {
        Header {
            span: None,
            ident: Some(&self.ident),
            attributes: Some(&self.attributes),
        }
    }

    fn attributes_mut(&mut self) -> Option<&mut Attributes> {
        Some(&mut self.attributes)
    }
}

impl SyntaxNode for FormalParameter {
    ghost use Rattle.std.specs.Prelude.{Some, None};

    ghost place = { λ x. None };

    ghost name = { λ x. Some (x.ident) };

    ghost own = { λ x. Some (x.attributes) };

    ghost with_own = { λ x attributes. record x { attributes = attributes } };

    fn header(&self) -> Header<'_> {
        Header {
            span: None,
            ident: Some(&self.ident),
            attributes: Some(&self.attributes),
        }
    }

    fn attributes_mut(&mut self) -> Option<&mut Attributes> {
        Some(&mut self.attributes)
    }
}

impl SyntaxNode for GlobalDeclaration {
    ghost use Rattle.std.specs.Prelude.{None};
    ghost use Rattle.wgsl_nodes.specs.Declarations.{declaration_name, declaration_attributes, declaration_with};

    ghost place = { λ x. None };

    ghost name = { declaration_name };

    ghost own = { declaration_attributes };

    ghost with_own = { declaration_with };

    fn header(&self) -> Header<'_> {
        match self {
            GlobalDeclaration::Void => Header {
                span: None,
                ident: None,
                attributes: None,
            },
            GlobalDeclaration::Declaration(x) => x.header(),
            GlobalDeclaration::TypeAlias(x) => x.header(),
            GlobalDeclaration::Struct(x) => x.header(),
            GlobalDeclaration::Function(x) => x.header(),
            GlobalDeclaration::ConstAssert(x) => x.header(),
        }
    }

    fn attributes_mut(&mut self) -> Option<&mut Attributes> {
        match self {
            GlobalDeclaration::Void => None,
            GlobalDeclaration::Declaration(x) => Some(&mut x.attributes),
            GlobalDeclaration::TypeAlias(x) => Some(&mut x.attributes),
            GlobalDeclaration::Struct(x) => Some(&mut x.attributes),
            GlobalDeclaration::Function(x) => Some(&mut x.attributes),
            GlobalDeclaration::ConstAssert(x) => Some(&mut x.attributes),
        }
    }
}
