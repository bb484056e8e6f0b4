//! An expression that is to be evaluated.

use crate::eval_question::own::append_const;
use std::alloc::{AllocError, Global};
use wgsl_declarations::TranslationUnit;
use wgsl_expressions::ExpressionNode;
use wgsl_parser::parse_expression;
use wgsl_token::fault::Error;

/// An expression that is to be evaluated. It is dropped by a call of this crate, so that whoever holds one need not prove the drop of all
/// trees again.
pub struct EvalExpression {
    expression: ExpressionNode,
}

impl EvalExpression {
    /// The expression of a text.
    pub fn parse(alloc: Global, text: &str) -> Result<EvalExpression, Error> {
        match parse_expression(alloc, text) {
            Ok(expression) => Ok(EvalExpression { expression }),
            Err(error) => Err(error),
        }
    }

    /// Makes a const with the expression the last declaration of a unit. Where memory is refused the unit is unchanged.
    pub fn append(self, alloc: Global, unit: &mut TranslationUnit) -> Result<(), AllocError> {
        let EvalExpression { expression } = self;
        append_const(alloc, unit, expression)
    }
}

impl Drop for EvalExpression {
    fn drop(self) {
        let EvalExpression { expression } = self;
        drop(expression);
    }
}
