//! Imports.

use crate::node::{Header, SyntaxNode};
use wgsl_declarations::ImportStatement;
use wgsl_expressions::Attributes;

impl SyntaxNode for ImportStatement {
    ghost use Rattle.std.specs.Prelude.{Some, None};

    ghost place = { λ x. None };

    ghost name = { λ x. None };

    ghost own = { λ x. Some (x.attributes) };

    ghost with_own = { λ x attributes. record x { attributes = attributes } };

    fn header(&self) -> Header<'_> {
        Header {
            span: None,
            ident: None,
            attributes: Some(&self.attributes),
        }
    }

    fn attributes_mut(&mut self) -> Option<&mut Attributes> {
        Some(&mut self.attributes)
    }
}
