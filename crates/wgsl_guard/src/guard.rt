//! Parentheses round the left operands of `<`.

ghost use Rattle.std.specs.Prelude.{◌≡◌, OnErr};
ghost use Rattle.wesl_visit_in_modules.specs.Modules.{around_expressions_in_unit};

use crate::names::opens_template;
use std::alloc::{AllocError, Global};
use std::convert::Infallible;
use std::mem;
use wesl_visit_in_modules::VisitExpressions;
use wgsl_declarations::TranslationUnit;
use wgsl_expressions::{
    Boxed, Expression, ExpressionNode, LiteralExpression, ParenthesizedExpression, Spanned,
};

/// How many comparisons in a module get parentheses.
fn openings(unit: &TranslationUnit) -> usize {
    let mut count: usize = 0;
    let mut met = |node: &ExpressionNode| -> Result<(), Infallible> {
        if opens_template(node.node()) {
            count = count.saturating_add(1);
        }
        Ok(())
    };
    let _met = unit.visit_rec(&mut met);
    count
}

/// Boxes with a literal each.
fn spare_boxes(alloc: Global, count: usize) -> Result<Vec<Boxed<Expression>>, AllocError> {
    let mut boxes = Vec::new(alloc);
    for _box in 0..count {
        let spare = Expression::Literal(LiteralExpression::Bool(false));
        boxes.push(Boxed::new(alloc, spare)?)?;
    }
    Ok(boxes)
}

/// Puts an expression in parentheses, in the memory of a spare box.
fn parenthesize(node: &mut ExpressionNode, spare: Boxed<Expression>) {
    let inner = mem::replace(node, Spanned::new_boxed(spare, node.span()));
    drop(mem::replace(
        node.node_mut(),
        Expression::Parenthesized(ParenthesizedExpression { expression: inner }),
    ));
}

/// Puts the left operand of a comparison in parentheses.
fn guard(node: &mut ExpressionNode, spare: Boxed<Expression>) {
    match node.node_mut() {
        Expression::Binary(x) => parenthesize(&mut x.left, spare),
        _ => drop(spare),
    }
}

/// Puts the left operand of each `<` in parentheses where its text ends in an identifier, since it would be read as the start of a
/// template list there. Where memory is refused the module is unchanged: the boxes are made first. All but the
/// expressions stays.
pub fn guard_templates(alloc: Global, unit: &mut TranslationUnit) -> Result<(), AllocError>
    ensures refused { OnErr result (unit.new ≡ unit.old) }
    ensures rest { around_expressions_in_unit unit.new ≡ around_expressions_in_unit unit.old }
{
    let mut boxes = spare_boxes(alloc, openings(unit))?;
    let mut change = |node: &mut ExpressionNode| -> Result<(), Infallible> {
        if opens_template(node.node()) {
            if let Some(spare) = boxes.pop() {
                guard(node, spare);
            }
        }
        Ok(())
    };
    let _changed = unit.visit_rec_mut(&mut change);
    Ok(())
}
