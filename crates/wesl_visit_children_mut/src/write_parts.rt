//! What is done at a part, which it may change.

use wgsl_expressions::{AttributeNode, ExpressionNode, TypeExpression};

/// What is done at each part of a syntax tree, up to the first refusal. It may change the part, but for what is to stay of it.
pub trait WriteParts {
    ghost use Rattle.std.specs.Prelude.{◌≡◌, Result};
    ghost use Rattle.wesl_visit_children.specs.Parts.{Part, an_attribute, an_expression, a_type};
    ghost use Rattle.wesl_visit_children.specs.Rest.{Rest};

    /// Why it stops.
    type Refusal;

    /// What has to hold before it is done.
    ghost ready: { Self → Type 0 };

    /// What is done at a part: with what answer, and what is left of it.
    ghost at: { Self → Part → Result Unit Self.Refusal → Self → Part → Type 0 };

    /// What is to stay of each part.
    ghost rest: { Rest };

    /// At an attribute.
    fn attribute(&mut self, attribute: &mut AttributeNode) -> Result<(), Self::Refusal>
        requires { ready self.old }
        ensures done { at self.old (an_attribute attribute.old) result self.new (an_attribute attribute.new) }
        ensures stays { rest.attribute attribute.new ≡ rest.attribute attribute.old }
        ensures ready_again { ready self.new };

    /// At an expression.
    fn expression(&mut self, expression: &mut ExpressionNode) -> Result<(), Self::Refusal>
        requires { ready self.old }
        ensures done { at self.old (an_expression expression.old) result self.new (an_expression expression.new) }
        ensures stays { rest.expression expression.new ≡ rest.expression expression.old }
        ensures ready_again { ready self.new };

    /// At a type.
    fn ty(&mut self, ty: &mut TypeExpression) -> Result<(), Self::Refusal>
        requires { ready self.old }
        ensures done { at self.old (a_type ty.old) result self.new (a_type ty.new) }
        ensures stays { rest.ty ty.new ≡ rest.ty ty.old }
        ensures ready_again { ready self.new };
}
