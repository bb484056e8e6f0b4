//! Statements that hold no other statement.

use crate::node::{Header, SyntaxNode};
use wgsl_expressions::Attributes;
use wgsl_simple_statements::{
    AssignmentStatement, BreakIfStatement, BreakStatement, ContinueStatement, DecrementStatement,
    DiscardStatement, FunctionCallStatement, IncrementStatement, ReturnStatement,
};

impl SyntaxNode for AssignmentStatement {
    ghost use Rattle.std.specs.Prelude.{Some, None};

    ghost place = { λ x. None };

    ghost name = { λ x. None };

    ghost own = { λ x. Some (x.attributes) };

    ghost with_own = { λ x attributes. record x { attributes = attributes } };

    fn header(&self) -> Header<'_> {
        Header {
            span: None,
            ident: None,
            attributes: Some(&self.attributes),
        }
    }

    fn attributes_mut(&mut self) -> Option<&mut Attributes> {
        Some(&mut self.attributes)
    }
}

impl SyntaxNode for IncrementStatement {
    ghost use Rattle.std.specs.Prelude.{Some, None};

    ghost place = { λ x. None };

    ghost name = { λ x. None };

    ghost own = { λ x. Some (x.attributes) };

    ghost with_own = { λ x attributes. record x { attributes = attributes } };

    fn header(&self) -> Header<'_> {
        Header {
            span: None,
            ident: None,
            attributes: Some(&self.attributes),
        }
    }

    fn attributes_mut(&mut self) -> Option<&mut Attributes> {
        Some(&mut self.attributes)
    }
}

impl SyntaxNode for DecrementStatement {
    ghost use Rattle.std.specs.Prelude.{Some, None};

    ghost place = { λ x. None };

    ghost name = { λ x. None };

    ghost own = { λ x. Some (x.attributes) };

    ghost with_own = { λ x attributes. record x { attributes = attributes } };

    fn header(&self) -> Header<'_> {
        Header {
            span: None,
            ident: None,
            attributes: Some(&self.attributes),
        }
    }

    fn attributes_mut(&mut self) -> Option<&mut Attributes> {
        Some(&mut self.attributes)
    }
}

impl SyntaxNode for BreakStatement {
    ghost use Rattle.std.specs.Prelude.{Some, None};

    ghost place = { λ x. None };

    ghost name = { λ x. None };

    ghost own = { λ x. Some (x.attributes) };

    ghost with_own = { λ x attributes. record x { attributes = attributes } };

    fn header(&self) -> Header<'_> {
        Header {
            span: None,
            ident: None,
            attributes: Some(&self.attributes),
        }
    }

    fn attributes_mut(&mut self) -> Option<&mut Attributes> {
        Some(&mut self.attributes)
    }
}

impl SyntaxNode for ContinueStatement {
    ghost use Rattle.std.specs.Prelude.{Some, None};

    ghost place = { λ x. None };

    ghost name = { λ x. None };

    ghost own = { λ x. Some (x.attributes) };

    ghost with_own = { λ x attributes. record x { attributes = attributes } };

    fn header(&self) -> Header<'_> {
        Header {
            span: None,
            ident: None,
            attributes: Some(&self.attributes),
        }
    }

    fn attributes_mut(&mut self) -> Option<&mut Attributes> {
        Some(&mut self.attributes)
    }
}

impl SyntaxNode for ReturnStatement {
    ghost use Rattle.std.specs.Prelude.{Some, None};

    ghost place = { λ x. None };

    ghost name = { λ x. None };

    ghost own = { λ x. Some (x.attributes) };

    ghost with_own = { λ x attributes. record x { attributes = attributes } };

    fn header(&self) -> Header<'_> {
        Header {
            span: None,
            ident: None,
            attributes: Some(&self.attributes),
        }
    }

    fn attributes_mut(&mut self) -> Option<&mut Attributes> {
        Some(&mut self.attributes)
    }
}

impl SyntaxNode for DiscardStatement {
    ghost use Rattle.std.specs.Prelude.{Some, None};

    ghost place = { λ x. None };

    ghost name = { λ x. None };

    ghost own = { λ x. Some (x.attributes) };

    ghost with_own = { λ x attributes. record x { attributes = attributes } };

    fn header(&self) -> Header<'_> {
        Header {
            span: None,
            ident: None,
            attributes: Some(&self.attributes),
        }
    }

    fn attributes_mut(&mut self) -> Option<&mut Attributes> {
        Some(&mut self.attributes)
    }
}

impl SyntaxNode for FunctionCallStatement {
    ghost use Rattle.std.specs.Prelude.{Some, None};

    ghost place = { λ x. None };

    ghost name = { λ x. None };

    ghost own = { λ x. Some (x.attributes) };

    ghost with_own = { λ x attributes. record x { attributes = attributes } };

    fn header(&self) -> Header<'_> {
        Header {
            span: None,
            ident: None,
            attributes: Some(&self.attributes),
        }
    }

    fn attributes_mut(&mut self) -> Option<&mut Attributes> {
        Some(&mut self.attributes)
    }
}

impl SyntaxNode for BreakIfStatement {
    ghost use Rattle.std.specs.Prelude.{Some, None};

    ghost place = { λ x. None };

    ghost name = { λ x. None };

    ghost own = { λ x. Some (x.attributes) };

    ghost with_own = { λ x attributes. record x { attributes = attributes } };

    fn header(&self) -> Header<'_> {
        Header {
            span: None,
            ident: None,
            attributes: Some(&self.attributes),
        }
    }

    fn attributes_mut(&mut self) -> Option<&mut Attributes> {
        Some(&mut self.attributes)
    }
}
