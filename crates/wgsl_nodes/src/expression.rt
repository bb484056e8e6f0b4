//! Expressions and types. They have no attributes and declare no name.

use crate::node::{Header, SyntaxNode};
use wgsl_expressions::{
    Attributes, BinaryExpressionOf, Expression, FunctionCallOf, IndexingExpressionOf,
    LiteralExpression, NamedComponentExpressionOf, ParenthesizedExpressionOf, TypeExpressionOf,
    UnaryExpressionOf,
};

impl SyntaxNode for Expression {
    ghost use Rattle.std.specs.Prelude.{None};

    ghost place = { λ x. None };

    ghost name = { λ x. None };

    ghost own = { λ x. None };

    ghost with_own = { λ x attributes. x };

    fn header(&self) -> Header<'_> {
        Header {
            span: None,
            ident: None,
            attributes: None,
        }
    }

    fn attributes_mut(&mut self) -> Option<&mut Attributes> {
        None
    }
}

impl SyntaxNode for LiteralExpression {
    ghost use Rattle.std.specs.Prelude.{None};

    ghost place = { λ x. None };

    ghost name = { λ x. None };

    ghost own = { λ x. None };

    ghost with_own = { λ x attributes. x };

    fn header(&self) -> Header<'_> {
        Header {
            span: None,
            ident: None,
            attributes: None,
        }
    }

    fn attributes_mut(&mut self) -> Option<&mut Attributes> {
        None
    }
}

impl<E> SyntaxNode for ParenthesizedExpressionOf<E> {
    ghost use Rattle.std.specs.Prelude.{None};

    ghost place = { λ x. None };

    ghost name = { λ x. None };

    ghost own = { λ x. None };

    ghost with_own = { λ x attributes. x };

    fn header(&self) -> Header<'_> {
        Header {
            span: None,
            ident: None,
            attributes: None,
        }
    }

    fn attributes_mut(&mut self) -> Option<&mut Attributes> {
        None
    }
}

impl<E> SyntaxNode for NamedComponentExpressionOf<E> {
    ghost use Rattle.std.specs.Prelude.{None};

    ghost place = { λ x. None };

    ghost name = { λ x. None };

    ghost own = { λ x. None };

    ghost with_own = { λ x attributes. x };

    fn header(&self) -> Header<'_> {
        Header {
            span: None,
            ident: None,
            attributes: None,
        }
    }

    fn attributes_mut(&mut self) -> Option<&mut Attributes> {
        None
    }
}

impl<E> SyntaxNode for IndexingExpressionOf<E> {
    ghost use Rattle.std.specs.Prelude.{None};

    ghost place = { λ x. None };

    ghost name = { λ x. None };

    ghost own = { λ x. None };

    ghost with_own = { λ x attributes. x };

    fn header(&self) -> Header<'_> {
        Header {
            span: None,
            ident: None,
            attributes: None,
        }
    }

    fn attributes_mut(&mut self) -> Option<&mut Attributes> {
        None
    }
}

impl<E> SyntaxNode for UnaryExpressionOf<E> {
    ghost use Rattle.std.specs.Prelude.{None};

    ghost place = { λ x. None };

    ghost name = { λ x. None };

    ghost own = { λ x. None };

    ghost with_own = { λ x attributes. x };

    fn header(&self) -> Header<'_> {
        Header {
            span: None,
            ident: None,
            attributes: None,
        }
    }

    fn attributes_mut(&mut self) -> Option<&mut Attributes> {
        None
    }
}

impl<E> SyntaxNode for BinaryExpressionOf<E> {
    ghost use Rattle.std.specs.Prelude.{None};

    ghost place = { λ x. None };

    ghost name = { λ x. None };

    ghost own = { λ x. None };

    ghost with_own = { λ x attributes. x };

    fn header(&self) -> Header<'_> {
        Header {
            span: None,
            ident: None,
            attributes: None,
        }
    }

    fn attributes_mut(&mut self) -> Option<&mut Attributes> {
        None
    }
}

impl<E> SyntaxNode for FunctionCallOf<E> {
    ghost use Rattle.std.specs.Prelude.{None};

    ghost place = { λ x. None };

    ghost name = { λ x. None };

    ghost own = { λ x. None };

    ghost with_own = { λ x attributes. x };

    fn header(&self) -> Header<'_> {
        Header {
            span: None,
            ident: None,
            attributes: None,
        }
    }

    fn attributes_mut(&mut self) -> Option<&mut Attributes> {
        None
    }
}

impl<E> SyntaxNode for TypeExpressionOf<E> {
    ghost use Rattle.std.specs.Prelude.{None};

    ghost place = { λ x. None };

    ghost name = { λ x. None };

    ghost own = { λ x. None };

    ghost with_own = { λ x attributes. x };

    fn header(&self) -> Header<'_> {
        Header {
            span: None,
            ident: None,
            attributes: None,
        }
    }

    fn attributes_mut(&mut self) -> Option<&mut Attributes> {
        None
    }
}
