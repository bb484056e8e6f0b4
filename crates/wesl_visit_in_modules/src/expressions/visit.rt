//! Visits of expressions.

ghost use Rattle.std.specs.Prelude.{◌≡◌, IfOk};

use crate::expressions::parts::{Changing, Reading, find_expressions};
use std::alloc::{AllocError, Global};
use wesl_visit_children::{
    find_declaration, find_statement, find_unit, meet_declaration, meet_statement, meet_unit,
};
use wesl_visit_children_mut::{change_declaration, change_statement, change_unit};
use wesl_visit_expressions::expressions::change::{
    change_attribute, change_expression, change_type,
};
use wesl_visit_expressions::expressions::find::{find_attribute, find_expression, find_type};
use wesl_visit_expressions::expressions::meet::{meet_attribute, meet_expression, meet_type};
use wgsl_declarations::{GlobalDeclaration, TranslationUnit};
use wgsl_expressions::{Attribute, Expression, ExpressionNode, TypeExpression};
use wgsl_statements::Statement;

/// A part of a syntax tree whose expressions can be visited. A visit meets each of them once, in document order, which is the order in
/// which they are printed, up to the first refusal of its closure.
pub trait VisitExpressions {
    ghost use Rattle.std.specs.Prelude.{◌≡◌, List, IfOk};
    ghost use Rattle.std.specs.Fn.{CalledAt, CalledAtMut};
    ghost use Rattle.wgsl_path.specs.declared.span.Spanned.{Spanned};
    ghost use Rattle.wgsl_expressions.specs.declared.expression.Expression.{Expression};
    ghost use Rattle.wesl_visit_children.specs.Turns.{pointed, CalledDeep, ChangedInTurn, ChangedDeep};
    ghost use Rattle.wesl_visit_expressions.specs.Expressions.{expressions_inside, around_inside};

    /// The outermost expressions, in document order.
    ghost nodes: { Self → List (Spanned Expression) };

    /// All but those expressions: in the place of each stands `false` at no place.
    ghost around: { Self → Self };

    /// The outermost expressions, in document order.
    fn visit<'a>(&'a self, alloc: Global) -> Result<Vec<&'a ExpressionNode>, AllocError>
        ensures { IfOk result (λ found. pointed found.items ≡ nodes self.now) };

    /// Calls a closure at each of the outermost expressions, which it may change, up to its first refusal, which is the answer. What it
    /// leaves of an expression is not entered. All else stays.
    fn visit_mut<E, F: FnMut(&mut ExpressionNode) -> Result<(), E>>(
        &mut self,
        f: &mut F,
    ) -> Result<(), E>
        requires { F.IsAlwaysCallable f.old }
        ensures changed { ChangedInTurn (CalledAtMut F.FnMut) f.old (nodes self.old) result f.new (nodes self.new) }
        ensures rest { around self.new ≡ around self.old }
        ensures callable { F.IsAlwaysCallable f.new };

    /// Calls a closure at each expression and behind it at those inside it, up to its first refusal, which is the answer.
    fn visit_rec<E, F: FnMut(&ExpressionNode) -> Result<(), E>>(&self, f: &mut F) -> Result<(), E>
        requires { F.IsAlwaysCallable f.old }
        ensures met { CalledDeep expressions_inside (CalledAt F.FnMut) f.old (nodes self.now) result f.new }
        ensures callable { F.IsAlwaysCallable f.new };

    /// Calls a closure at the expressions inside each expression and behind them at the expression itself as it then is, up to its first
    /// refusal, which is the answer. It may change each. What it leaves of an expression is not entered. All else stays.
    fn visit_rec_mut<E, F: FnMut(&mut ExpressionNode) -> Result<(), E>>(
        &mut self,
        f: &mut F,
    ) -> Result<(), E>
        requires { F.IsAlwaysCallable f.old }
        ensures changed { ChangedDeep expressions_inside around_inside (CalledAtMut F.FnMut) f.old (nodes self.old) result f.new (nodes self.new) }
        ensures rest { around self.new ≡ around self.old }
        ensures callable { F.IsAlwaysCallable f.new };
}

impl VisitExpressions for Expression {
    ghost use Rattle.wesl_visit_expressions.specs.Expressions.{expressions_in, around_expressions};

    ghost nodes = { expressions_in };

    ghost around = { around_expressions };

    fn visit<'a>(&'a self, alloc: Global) -> Result<Vec<&'a ExpressionNode>, AllocError> {
        let mut found = Vec::new(alloc);
        find_expression(self, &mut found)?;
        Ok(found)
    }

    #[tactic(auto, using(wesl_visit_expressions::proofs::Turns::shallow))]
    fn visit_mut<E, F: FnMut(&mut ExpressionNode) -> Result<(), E>>(
        &mut self,
        f: &mut F,
    ) -> Result<(), E> {
        change_expression(self, false, f)
    }

    fn visit_rec<E, F: FnMut(&ExpressionNode) -> Result<(), E>>(&self, f: &mut F) -> Result<(), E> {
        meet_expression(self, f)
    }

    fn visit_rec_mut<E, F: FnMut(&mut ExpressionNode) -> Result<(), E>>(
        &mut self,
        f: &mut F,
    ) -> Result<(), E> {
        change_expression(self, true, f)
    }
}

impl VisitExpressions for TypeExpression {
    ghost use Rattle.wesl_visit_expressions.specs.Expressions.{in_type, around_type};

    ghost nodes = { in_type };

    ghost around = { around_type };

    fn visit<'a>(&'a self, alloc: Global) -> Result<Vec<&'a ExpressionNode>, AllocError> {
        let mut found = Vec::new(alloc);
        find_type(self, &mut found)?;
        Ok(found)
    }

    #[tactic(auto, using(wesl_visit_expressions::proofs::Turns::shallow))]
    fn visit_mut<E, F: FnMut(&mut ExpressionNode) -> Result<(), E>>(
        &mut self,
        f: &mut F,
    ) -> Result<(), E> {
        change_type(self, false, f)
    }

    fn visit_rec<E, F: FnMut(&ExpressionNode) -> Result<(), E>>(&self, f: &mut F) -> Result<(), E> {
        meet_type(self, f)
    }

    fn visit_rec_mut<E, F: FnMut(&mut ExpressionNode) -> Result<(), E>>(
        &mut self,
        f: &mut F,
    ) -> Result<(), E> {
        change_type(self, true, f)
    }
}

impl VisitExpressions for Attribute {
    ghost use Rattle.wesl_visit_expressions.specs.Attributes.{expressions_in_attribute, around_attribute};

    ghost nodes = { expressions_in_attribute };

    ghost around = { around_attribute };

    fn visit<'a>(&'a self, alloc: Global) -> Result<Vec<&'a ExpressionNode>, AllocError> {
        let mut found = Vec::new(alloc);
        find_attribute(self, &mut found)?;
        Ok(found)
    }

    #[tactic(auto, using(wesl_visit_expressions::proofs::Turns::shallow))]
    fn visit_mut<E, F: FnMut(&mut ExpressionNode) -> Result<(), E>>(
        &mut self,
        f: &mut F,
    ) -> Result<(), E> {
        change_attribute(self, false, f)
    }

    fn visit_rec<E, F: FnMut(&ExpressionNode) -> Result<(), E>>(&self, f: &mut F) -> Result<(), E> {
        meet_attribute(self, f)
    }

    fn visit_rec_mut<E, F: FnMut(&mut ExpressionNode) -> Result<(), E>>(
        &mut self,
        f: &mut F,
    ) -> Result<(), E> {
        change_attribute(self, true, f)
    }
}

impl VisitExpressions for Statement {
    ghost use Rattle.wesl_visit_in_modules.specs.Modules.{expressions_in_statement, around_expressions_in_statement};

    ghost nodes = { expressions_in_statement };

    ghost around = { around_expressions_in_statement };

    fn visit<'a>(&'a self, alloc: Global) -> Result<Vec<&'a ExpressionNode>, AllocError> {
        let mut listed = Vec::new(alloc);
        find_statement(self, &mut listed)?;
        let mut found = Vec::new(alloc);
        find_expressions(listed.as_slice(), &mut found)?;
        Ok(found)
    }

    fn visit_mut<E, F: FnMut(&mut ExpressionNode) -> Result<(), E>>(
        &mut self,
        f: &mut F,
    ) -> Result<(), E> {
        change_statement(self, &mut Changing { f, deep: false })
    }

    fn visit_rec<E, F: FnMut(&ExpressionNode) -> Result<(), E>>(&self, f: &mut F) -> Result<(), E> {
        meet_statement(self, &mut Reading { f })
    }

    fn visit_rec_mut<E, F: FnMut(&mut ExpressionNode) -> Result<(), E>>(
        &mut self,
        f: &mut F,
    ) -> Result<(), E> {
        change_statement(self, &mut Changing { f, deep: true })
    }
}

impl VisitExpressions for GlobalDeclaration {
    ghost use Rattle.wesl_visit_in_modules.specs.Modules.{expressions_in_declaration, around_expressions_in_declaration};

    ghost nodes = { expressions_in_declaration };

    ghost around = { around_expressions_in_declaration };

    fn visit<'a>(&'a self, alloc: Global) -> Result<Vec<&'a ExpressionNode>, AllocError> {
        let mut listed = Vec::new(alloc);
        find_declaration(self, &mut listed)?;
        let mut found = Vec::new(alloc);
        find_expressions(listed.as_slice(), &mut found)?;
        Ok(found)
    }

    fn visit_mut<E, F: FnMut(&mut ExpressionNode) -> Result<(), E>>(
        &mut self,
        f: &mut F,
    ) -> Result<(), E> {
        change_declaration(self, &mut Changing { f, deep: false })
    }

    fn visit_rec<E, F: FnMut(&ExpressionNode) -> Result<(), E>>(&self, f: &mut F) -> Result<(), E> {
        meet_declaration(self, &mut Reading { f })
    }

    fn visit_rec_mut<E, F: FnMut(&mut ExpressionNode) -> Result<(), E>>(
        &mut self,
        f: &mut F,
    ) -> Result<(), E> {
        change_declaration(self, &mut Changing { f, deep: true })
    }
}

impl VisitExpressions for TranslationUnit {
    ghost use Rattle.wesl_visit_in_modules.specs.Modules.{expressions_in_unit, around_expressions_in_unit};

    ghost nodes = { expressions_in_unit };

    ghost around = { around_expressions_in_unit };

    fn visit<'a>(&'a self, alloc: Global) -> Result<Vec<&'a ExpressionNode>, AllocError> {
        let mut listed = Vec::new(alloc);
        find_unit(self, &mut listed)?;
        let mut found = Vec::new(alloc);
        find_expressions(listed.as_slice(), &mut found)?;
        Ok(found)
    }

    fn visit_mut<E, F: FnMut(&mut ExpressionNode) -> Result<(), E>>(
        &mut self,
        f: &mut F,
    ) -> Result<(), E> {
        change_unit(self, &mut Changing { f, deep: false })
    }

    fn visit_rec<E, F: FnMut(&ExpressionNode) -> Result<(), E>>(&self, f: &mut F) -> Result<(), E> {
        meet_unit(self, &mut Reading { f })
    }

    fn visit_rec_mut<E, F: FnMut(&mut ExpressionNode) -> Result<(), E>>(
        &mut self,
        f: &mut F,
    ) -> Result<(), E> {
        change_unit(self, &mut Changing { f, deep: true })
    }
}
