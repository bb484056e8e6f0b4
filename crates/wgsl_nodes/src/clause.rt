//! Blocks and clauses. A clause of `if` or `switch` has no attributes of its own: those before its brace are its block's.

use crate::node::{Header, SyntaxNode};
use wgsl_expressions::Attributes;
use wgsl_statements::{
    CompoundStatementOf, ContinuingStatementOf, ElseClauseOf, ElseIfClauseOf, IfClauseOf,
    SwitchClauseOf,
};

impl<S> SyntaxNode for CompoundStatementOf<S> {
    ghost use Rattle.std.specs.Prelude.{Some, None};

    ghost place = { λ x. None };

    ghost name = { λ x. None };

    ghost own = { λ x. Some (x.attributes) };

    ghost with_own = { λ x attributes. record x { attributes = attributes } };

    fn header(&self) -> Header<'_> {
        Header {
            span: None,
            ident: None,
            attributes: Some(&self.attributes),
        }
    }

    fn attributes_mut(&mut self) -> Option<&mut Attributes> {
        Some(&mut self.attributes)
    }
}

impl<S> SyntaxNode for ContinuingStatementOf<S> {
    ghost use Rattle.std.specs.Prelude.{Some, None};

    ghost place = { λ x. None };

    ghost name = { λ x. None };

    ghost own = { λ x. Some (x.attributes) };

    ghost with_own = { λ x attributes. record x { attributes = attributes } };

    fn header(&self) -> Header<'_> {
        Header {
            span: None,
            ident: None,
            attributes: Some(&self.attributes),
        }
    }

    fn attributes_mut(&mut self) -> Option<&mut Attributes> {
        Some(&mut self.attributes)
    }
}

impl<S> SyntaxNode for IfClauseOf<S> {
    ghost use Rattle.std.specs.Prelude.{None};

    ghost place = { λ x. None };

    ghost name = { λ x. None };

    ghost own = { λ x. None };

    ghost with_own = { λ x attributes. x };

    fn header(&self) -> Header<'_> {
        Header {
            span: None,
            ident: None,
            attributes: None,
        }
    }

    fn attributes_mut(&mut self) -> Option<&mut Attributes> {
        None
    }
}

impl<S> SyntaxNode for ElseIfClauseOf<S> {
    ghost use Rattle.std.specs.Prelude.{None};

    ghost place = { λ x. None };

    ghost name = { λ x. None };

    ghost own = { λ x. None };

    ghost with_own = { λ x attributes. x };

    fn header(&self) -> Header<'_> {
        Header {
            span: None,
            ident: None,
            attributes: None,
        }
    }

    fn attributes_mut(&mut self) -> Option<&mut Attributes> {
        None
    }
}

impl<S> SyntaxNode for ElseClauseOf<S> {
    ghost use Rattle.std.specs.Prelude.{None};

    ghost place = { λ x. None };

    ghost name = { λ x. None };

    ghost own = { λ x. None };

    ghost with_own = { λ x attributes. x };

    fn header(&self) -> Header<'_> {
        Header {
            span: None,
            ident: None,
            attributes: None,
        }
    }

    fn attributes_mut(&mut self) -> Option<&mut Attributes> {
        None
    }
}

impl<S> SyntaxNode for SwitchClauseOf<S> {
    ghost use Rattle.std.specs.Prelude.{None};

    ghost place = { λ x. None };

    ghost name = { λ x. None };

    ghost own = { λ x. None };

    ghost with_own = { λ x attributes. x };

    fn header(&self) -> Header<'_> {
        Header {
            span: None,
            ident: None,
            attributes: None,
        }
    }

    fn attributes_mut(&mut self) -> Option<&mut Attributes> {
        None
    }
}
