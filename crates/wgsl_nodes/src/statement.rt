//! Statements that hold others, and all statements.

use crate::node::{Header, SyntaxNode};
use wgsl_expressions::Attributes;
use wgsl_statements::{
    ForStatementOf, IfStatementOf, LoopStatementOf, Statement, SwitchStatementOf, WhileStatementOf,
};

impl<S> SyntaxNode for IfStatementOf<S> {
    ghost use Rattle.std.specs.Prelude.{Some, None};

    ghost place = { λ x. None };

    ghost name = { λ x. None };

    ghost own = { λ x. Some (x.attributes) };

    ghost with_own = { λ x attributes. record x { attributes = attributes } };

    fn header(&self) -> Header<'_> {
        Header {
            span: None,
            ident: None,
            attributes: Some(&self.attributes),
        }
    }

    fn attributes_mut(&mut self) -> Option<&mut Attributes> {
        Some(&mut self.attributes)
    }
}

impl<S> SyntaxNode for SwitchStatementOf<S> {
    ghost use Rattle.std.specs.Prelude.{Some, None};

    ghost place = { λ x. None };

    ghost name = { λ x. None };

    ghost own = { λ x. Some (x.attributes) };

    ghost with_own = { λ x attributes. record x { attributes = attributes } };

    fn header(&self) -> Header<'_> {
        Header {
            span: None,
            ident: None,
            attributes: Some(&self.attributes),
        }
    }

    fn attributes_mut(&mut self) -> Option<&mut Attributes> {
        Some(&mut self.attributes)
    }
}

impl<S> SyntaxNode for LoopStatementOf<S> {
    ghost use Rattle.std.specs.Prelude.{Some, None};

    ghost place = { λ x. None };

    ghost name = { λ x. None };

    ghost own = { λ x. Some (x.attributes) };

    ghost with_own = { λ x attributes. record x { attributes = attributes } };

    fn header(&self) -> Header<'_> {
        Header {
            span: None,
            ident: None,
            attributes: Some(&self.attributes),
        }
    }

    fn attributes_mut(&mut self) -> Option<&mut Attributes> {
        Some(&mut self.attributes)
    }
}

impl<S> SyntaxNode for ForStatementOf<S> {
    ghost use Rattle.std.specs.Prelude.{Some, None};

    ghost place = { λ x. None };

    ghost name = { λ x. None };

    ghost own = { λ x. Some (x.attributes) };

    ghost with_own = { λ x attributes. record x { attributes = attributes } };

    fn header(&self) -> Header<'_> {
        Header {
            span: None,
            ident: None,
            attributes: Some(&self.attributes),
        }
    }

    fn attributes_mut(&mut self) -> Option<&mut Attributes> {
        Some(&mut self.attributes)
    }
}

impl<S> SyntaxNode for WhileStatementOf<S> {
    ghost use Rattle.std.specs.Prelude.{Some, None};

    ghost place = { λ x. None };

    ghost name = { λ x. None };

    ghost own = { λ x. Some (x.attributes) };

    ghost with_own = { λ x attributes. record x { attributes = attributes } };

    fn header(&self) -> Header<'_> {
        Header {
            span: None,
            ident: None,
            attributes: Some(&self.attributes),
        }
    }

    fn attributes_mut(&mut self) -> Option<&mut Attributes> {
        Some(&mut self.attributes)
    }
}

impl SyntaxNode for Statement {
    ghost use Rattle.std.specs.Prelude.{None};
    ghost use Rattle.wgsl_nodes.specs.Statements.{statement_name, statement_attributes, statement_with};

    ghost place = { λ x. None };

    ghost name = { statement_name };

    ghost own = { statement_attributes };

    ghost with_own = { statement_with };

    fn header(&self) -> Header<'_> {
        match self {
            Statement::Void => Header {
                span: None,
                ident: None,
                attributes: None,
            },
            Statement::Compound(x) => x.header(),
            Statement::Assignment(x) => x.header(),
            Statement::Increment(x) => x.header(),
            Statement::Decrement(x) => x.header(),
            Statement::If(x) => x.get().header(),
            Statement::Switch(x) => x.get().header(),
            Statement::Loop(x) => x.get().header(),
            Statement::For(x) => x.get().header(),
            Statement::While(x) => x.get().header(),
            Statement::Break(x) => x.header(),
            Statement::Continue(x) => x.header(),
            Statement::Return(x) => x.header(),
            Statement::Discard(x) => x.header(),
            Statement::FunctionCall(x) => x.get().header(),
            Statement::ConstAssert(x) => x.header(),
            Statement::Declaration(x) => x.get().header(),
        }
    }

    fn attributes_mut(&mut self) -> Option<&mut Attributes> {
        match self {
            Statement::Void => None,
            Statement::Compound(x) => x.attributes_mut(),
            Statement::Assignment(x) => x.attributes_mut(),
            Statement::Increment(x) => x.attributes_mut(),
            Statement::Decrement(x) => x.attributes_mut(),
            Statement::If(x) => Some(&mut x.get_mut().attributes),
            Statement::Switch(x) => Some(&mut x.get_mut().attributes),
            Statement::Loop(x) => Some(&mut x.get_mut().attributes),
            Statement::For(x) => Some(&mut x.get_mut().attributes),
            Statement::While(x) => Some(&mut x.get_mut().attributes),
            Statement::Break(x) => x.attributes_mut(),
            Statement::Continue(x) => x.attributes_mut(),
            Statement::Return(x) => x.attributes_mut(),
            Statement::Discard(x) => x.attributes_mut(),
            Statement::FunctionCall(x) => Some(&mut x.get_mut().attributes),
            Statement::ConstAssert(x) => x.attributes_mut(),
            Statement::Declaration(x) => Some(&mut x.get_mut().attributes),
        }
    }
}
