//! Trees that are made of their parts. What is made has no attributes.

ghost use Rattle.std.specs.Prelude.{◌≡◌, [], IfOk};

use crate::declaration::ConstAssert;
use crate::statement::{CaseSelector, FunctionCallStatement, ReturnStatement};
use std::alloc::{AllocError, Global};
use wgsl_expressions::{Expression, ExpressionNode, FromIn, FunctionCall, Items, Span, Spanned};

impl ConstAssert {
    /// An assertion of an expression, whose place is empty.
    pub fn new(alloc: Global, expression: Expression) -> Result<ConstAssert, AllocError>
        ensures { IfOk result (λ made. made ≡ record { attributes = []; expression = record { node = expression; span = record { start = 0; end = 0 } } }) }
    {
        let expression = Spanned::new(alloc, expression, Span::new(0..0))?;
        Ok(ConstAssert {
            attributes: Items::new(alloc),
            expression,
        })
    }
}

/// The return of a value.
impl FromIn<ExpressionNode> for ReturnStatement {
    ghost use Rattle.std.specs.Prelude.{◌≡◌, [], Some};

    ghost from_in_gives = { λ expression made. made ≡ record { attributes = []; expression = Some expression } };

    fn from_in(alloc: Global, expression: ExpressionNode) -> Result<ReturnStatement, AllocError> {
        Ok(ReturnStatement {
            attributes: Items::new(alloc),
            expression: Some(expression),
        })
    }
}

/// The return of a value, whose place is empty.
impl FromIn<Expression> for ReturnStatement {
    ghost use Rattle.std.specs.Prelude.{◌≡◌, [], Some};

    ghost from_in_gives = { λ expression made. made ≡ record { attributes = []; expression = Some (record { node = expression; span = record { start = 0; end = 0 } }) } };

    fn from_in(alloc: Global, expression: Expression) -> Result<ReturnStatement, AllocError> {
        let expression = Spanned::new(alloc, expression, Span::new(0..0))?;
        ReturnStatement::from_in(alloc, expression)
    }
}

impl FromIn<FunctionCall> for FunctionCallStatement {
    ghost use Rattle.std.specs.Prelude.{◌≡◌, []};

    ghost from_in_gives = { λ call made. made ≡ record { attributes = []; call = call } };

    fn from_in(alloc: Global, call: FunctionCall) -> Result<FunctionCallStatement, AllocError> {
        Ok(FunctionCallStatement {
            attributes: Items::new(alloc),
            call,
        })
    }
}

impl From<ExpressionNode> for CaseSelector {
    ghost use Rattle.std.specs.Prelude.{◌≡◌};
    ghost use Rattle.wgsl_simple_statements.specs.declared.statement.CaseSelector.TheVariants.{Expression};

    ghost from_gives = { λ x made. made ≡ Expression x };

    fn from(x: ExpressionNode) -> CaseSelector {
        CaseSelector::Expression(x)
    }
}
