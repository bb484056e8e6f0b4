//! Statements without others in them.

use wgsl_base::Items;
use wgsl_expressions::{Attributes, Expression, ExpressionNode};
use wgsl_lower_expressions::{
    Evaluator, Stop, declare, fold, fold_as, fold_attributes, fold_declaration, fold_place,
    returned_conversion,
};
use wgsl_shader_type::Type;
use wgsl_simple_statements::{
    AssignmentStatement, BreakIfStatement, CaseSelector, Declaration, ReturnStatement,
};

fn is_phony(node: &ExpressionNode) -> bool {
    match node.node() {
        Expression::TypeOrIdentifier(x) => x.ident.name() == "_",
        _ => false,
    }
}

pub(crate) fn fold_assignment(
    evaluator: &mut Evaluator<'_>,
    x: &mut AssignmentStatement,
) -> Result<(), Stop> {
    fold_attributes(evaluator, &mut x.attributes)?;
    if !is_phony(&x.lhs) {
        fold_place(evaluator, &mut x.lhs)?;
    }
    fold(evaluator, &mut x.rhs)
}

/// The attributes and the place of `++` or `--`.
pub(crate) fn fold_stepped(
    evaluator: &mut Evaluator<'_>,
    attributes: &mut Attributes,
    place: &mut ExpressionNode,
) -> Result<(), Stop> {
    fold_attributes(evaluator, attributes)?;
    fold_place(evaluator, place)
}

/// What is returned is converted to the type of the function, where it has one.
pub(crate) fn fold_return(
    evaluator: &mut Evaluator<'_>,
    x: &mut ReturnStatement,
    returns: Option<&Type>,
) -> Result<(), Stop> {
    fold_attributes(evaluator, &mut x.attributes)?;
    let Some(expression) = &mut x.expression else {
        return Ok(());
    };
    let conversion = returned_conversion(evaluator, expression, returns)?;
    let folded = fold_as(evaluator, expression, conversion.as_ref());
    drop(conversion);
    folded
}

/// A declaration that stays. Its name is in scope behind it.
pub(crate) fn fold_local(evaluator: &mut Evaluator<'_>, x: &mut Declaration) -> Result<(), Stop> {
    let ty = fold_declaration(evaluator, x)?;
    declare(evaluator, x, ty)
}

pub(crate) fn fold_selectors(
    evaluator: &mut Evaluator<'_>,
    selectors: &mut Items<CaseSelector>,
) -> Result<(), Stop> {
    for i in 0..selectors.len() {
        if let CaseSelector::Expression(x) = selectors.get_mut(i) {
            fold(evaluator, x)?;
        }
    }
    Ok(())
}

pub(crate) fn fold_break_if(
    evaluator: &mut Evaluator<'_>,
    x: &mut Option<BreakIfStatement>,
) -> Result<(), Stop> {
    match x {
        None => Ok(()),
        Some(x) => fold(evaluator, &mut x.expression),
    }
}
