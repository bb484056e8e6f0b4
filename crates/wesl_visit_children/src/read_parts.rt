//! What is done at a part.

use wgsl_expressions::{AttributeNode, ExpressionNode, TypeExpression};

/// What is done at each part of a syntax tree, up to the first refusal.
pub trait ReadParts {
    ghost use Rattle.std.specs.Prelude.{Result};
    ghost use Rattle.wesl_visit_children.specs.Parts.{Part, an_attribute, an_expression, a_type};

    /// Why it stops.
    type Refusal;

    /// What has to hold before it is done.
    ghost ready: { Self → Type 0 };

    /// What is done at a part, with what answer.
    ghost at: { Self → Part → Result Unit Self.Refusal → Self → Type 0 };

    /// At an attribute.
    fn attribute(&mut self, attribute: &AttributeNode) -> Result<(), Self::Refusal>
        requires { ready self.old }
        ensures done { at self.old (an_attribute attribute.now) result self.new }
        ensures ready_again { ready self.new };

    /// At an expression.
    fn expression(&mut self, expression: &ExpressionNode) -> Result<(), Self::Refusal>
        requires { ready self.old }
        ensures done { at self.old (an_expression expression.now) result self.new }
        ensures ready_again { ready self.new };

    /// At a type.
    fn ty(&mut self, ty: &TypeExpression) -> Result<(), Self::Refusal>
        requires { ready self.old }
        ensures done { at self.old (a_type ty.now) result self.new }
        ensures ready_again { ready self.new };
}
