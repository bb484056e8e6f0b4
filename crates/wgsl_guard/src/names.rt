//! Where a `<` could be read as the start of a template list.

use wgsl_expressions::{BinaryOperator, Expression};

/// Whether the text of an expression ends in an identifier.
pub fn ends_in_name(expression: &Expression) -> bool {
    match expression {
        Expression::NamedComponent(_) => true,
        Expression::TypeOrIdentifier(x) => x.template_args.is_none(),
        Expression::Unary(x) => ends_in_name(x.operand.node()),
        Expression::Binary(x) => ends_in_name(x.right.node()),
        Expression::Literal(_) => false,
        Expression::Parenthesized(_) => false,
        Expression::Indexing(_) => false,
        Expression::FunctionCall(_) => false,
    }
}

/// Whether an expression is a comparison by `<` whose left operand ends in an identifier.
pub fn opens_template(expression: &Expression) -> bool {
    match expression {
        Expression::Binary(x) => {
            x.operator == BinaryOperator::LessThan && ends_in_name(x.left.node())
        }
        _ => false,
    }
}
