//! Nodes with their places.

use crate::node::{Header, SyntaxNode};
use wgsl_expressions::Attributes;
use wgsl_path::Spanned;

impl<T: SyntaxNode> SyntaxNode for Spanned<T> {
    ghost use Rattle.std.specs.Prelude.{Some};

    ghost place = { λ x. Some (x.span) };

    ghost name = { λ x. T.name x.node };

    ghost own = { λ x. T.own x.node };

    ghost with_own = { λ x attributes. record { node = T.with_own x.node attributes; span = x.span } };

    fn header(&self) -> Header<'_> {
        let inner = self.node().header();
        Header {
            span: Some(self.span),
            ident: inner.ident,
            attributes: inner.attributes,
        }
    }

    fn attributes_mut(&mut self) -> Option<&mut Attributes> {
        self.node_mut().attributes_mut()
    }
}
