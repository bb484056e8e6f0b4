//! Directives.

use crate::node::{Header, SyntaxNode};
use wgsl_declarations::{DiagnosticDirective, EnableDirective, GlobalDirective, RequiresDirective};
use wgsl_expressions::Attributes;

impl SyntaxNode for DiagnosticDirective {
    ghost use Rattle.std.specs.Prelude.{Some, None};

    ghost place = { λ x. None };

    ghost name = { λ x. None };

    ghost own = { λ x. Some (x.attributes) };

    ghost with_own = { λ x attributes. record x { attributes = attributes } };

    fn header(&self) -> Header<'_> {
        Header {
            span: None,
            ident: None,
            attributes: Some(&self.attributes),
        }
    }

    fn attributes_mut(&mut self) -> Option<&mut Attributes> {
        Some(&mut self.attributes)
    }
}

impl SyntaxNode for EnableDirective {
    ghost use Rattle.std.specs.Prelude.{Some, None};

    ghost place = { λ x. None };

    ghost name = { λ x. None };

    ghost own = { λ x. Some (x.attributes) };

    ghost with_own = { λ x attributes. record x { attributes = attributes } };

    fn header(&self) -> Header<'_> {
        Header {
            span: None,
            ident: None,
            attributes: Some(&self.attributes),
        }
    }

    fn attributes_mut(&mut self) -> Option<&mut Attributes> {
        Some(&mut self.attributes)
    }
}

impl SyntaxNode for RequiresDirective {
    ghost use Rattle.std.specs.Prelude.{Some, None};

    ghost place = { λ x. None };

    ghost name = { λ x. None };

    ghost own = { λ x. Some (x.attributes) };

    ghost with_own = { λ x attributes. record x { attributes = attributes } };

    fn header(&self) -> Header<'_> {
        Header {
            span: None,
            ident: None,
            attributes: Some(&self.attributes),
        }
    }

    fn attributes_mut(&mut self) -> Option<&mut Attributes> {
        Some(&mut self.attributes)
    }
}

impl SyntaxNode for GlobalDirective {
    ghost use Rattle.std.specs.Prelude.{Some, None};
    ghost use Rattle.wgsl_nodes.specs.Directives.{directive_attributes, directive_with};

    ghost place = { λ x. None };

    ghost name = { λ x. None };

    ghost own = { λ x. Some (directive_attributes x) };

    ghost with_own = { directive_with };

    fn header(&self) -> Header<'_> {
        match self {
            GlobalDirective::Diagnostic(x) => x.header(),
            GlobalDirective::Enable(x) => x.header(),
            GlobalDirective::Requires(x) => x.header(),
        }
    }

    fn attributes_mut(&mut self) -> Option<&mut Attributes> {
        match self {
            GlobalDirective::Diagnostic(x) => Some(&mut x.attributes),
            GlobalDirective::Enable(x) => Some(&mut x.attributes),
            GlobalDirective::Requires(x) => Some(&mut x.attributes),
        }
    }
}
