//! Trees that are made of their parts.

ghost use Rattle.std.specs.Prelude.{◌≡◌, None};

use crate::expression::{
    BinaryExpression, Expression, FunctionCall, IndexingExpression, LiteralExpression,
    NamedComponentExpression, ParenthesizedExpression, TemplateArgOf, TypeExpression,
    TypeExpressionOf, UnaryExpression,
};
use std::alloc::{AllocError, Global};
use wgsl_path::{Boxed, FromIn, Ident, Spanned};

impl<E> TypeExpressionOf<E> {
    /// A name alone, without the path of a module and without template arguments.
    pub fn new(ident: Ident) -> TypeExpressionOf<E>
        ensures { result ≡ record { path = None; ident = ident; template_args = None } }
    {
        TypeExpressionOf {
            path: None,
            ident,
            template_args: None,
        }
    }
}

/// A name alone, without the path of a module and without template arguments.
impl<E> From<Ident> for TypeExpressionOf<E> {
    ghost use Rattle.std.specs.Prelude.{◌≡◌, None};

    ghost from_gives = { λ ident made. made ≡ record { path = None; ident = ident; template_args = None } };

    fn from(ident: Ident) -> TypeExpressionOf<E> {
        TypeExpressionOf::new(ident)
    }
}

impl<E> From<Spanned<E>> for TemplateArgOf<E> {
    ghost use Rattle.std.specs.Prelude.{◌≡◌};

    ghost from_gives = { λ expression made. made ≡ record { expression = expression } };

    fn from(expression: Spanned<E>) -> TemplateArgOf<E> {
        TemplateArgOf { expression }
    }
}

impl From<LiteralExpression> for Expression {
    ghost use Rattle.std.specs.Prelude.{◌≡◌};
    ghost use Rattle.wgsl_expressions.specs.declared.expression.Expression.TheVariants.{Literal};

    ghost from_gives = { λ x made. made ≡ Literal x };

    fn from(x: LiteralExpression) -> Expression {
        Expression::Literal(x)
    }
}

impl From<ParenthesizedExpression> for Expression {
    ghost use Rattle.std.specs.Prelude.{◌≡◌};
    ghost use Rattle.wgsl_expressions.specs.declared.expression.Expression.TheVariants.{Parenthesized};

    ghost from_gives = { λ x made. made ≡ Parenthesized x };

    fn from(x: ParenthesizedExpression) -> Expression {
        Expression::Parenthesized(x)
    }
}

impl From<NamedComponentExpression> for Expression {
    ghost use Rattle.std.specs.Prelude.{◌≡◌};
    ghost use Rattle.wgsl_expressions.specs.declared.expression.Expression.TheVariants.{NamedComponent};

    ghost from_gives = { λ x made. made ≡ NamedComponent x };

    fn from(x: NamedComponentExpression) -> Expression {
        Expression::NamedComponent(x)
    }
}

impl From<IndexingExpression> for Expression {
    ghost use Rattle.std.specs.Prelude.{◌≡◌};
    ghost use Rattle.wgsl_expressions.specs.declared.expression.Expression.TheVariants.{Indexing};

    ghost from_gives = { λ x made. made ≡ Indexing x };

    fn from(x: IndexingExpression) -> Expression {
        Expression::Indexing(x)
    }
}

impl From<UnaryExpression> for Expression {
    ghost use Rattle.std.specs.Prelude.{◌≡◌};
    ghost use Rattle.wgsl_expressions.specs.declared.expression.Expression.TheVariants.{Unary};

    ghost from_gives = { λ x made. made ≡ Unary x };

    fn from(x: UnaryExpression) -> Expression {
        Expression::Unary(x)
    }
}

impl From<BinaryExpression> for Expression {
    ghost use Rattle.std.specs.Prelude.{◌≡◌};
    ghost use Rattle.wgsl_expressions.specs.declared.expression.Expression.TheVariants.{Binary};

    ghost from_gives = { λ x made. made ≡ Binary x };

    fn from(x: BinaryExpression) -> Expression {
        Expression::Binary(x)
    }
}

impl From<TypeExpression> for Expression {
    ghost use Rattle.std.specs.Prelude.{◌≡◌};
    ghost use Rattle.wgsl_expressions.specs.declared.expression.Expression.TheVariants.{TypeOrIdentifier};

    ghost from_gives = { λ x made. made ≡ TypeOrIdentifier x };

    fn from(x: TypeExpression) -> Expression {
        Expression::TypeOrIdentifier(x)
    }
}

impl FromIn<FunctionCall> for Expression {
    ghost use Rattle.std.specs.Prelude.{◌≡◌};
    ghost use Rattle.wgsl_expressions.specs.declared.expression.Expression.TheVariants.{FunctionCall};

    ghost from_in_gives = { λ x made. made ≡ FunctionCall x };

    fn from_in(alloc: Global, x: FunctionCall) -> Result<Expression, AllocError> {
        Ok(Expression::FunctionCall(Boxed::new(alloc, x)?))
    }
}
