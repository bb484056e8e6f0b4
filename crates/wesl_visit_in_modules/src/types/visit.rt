//! Visits of types.

ghost use Rattle.std.specs.Prelude.{◌≡◌, IfOk};

use crate::types::parts::{Changing, Reading, find_types};
use std::alloc::{AllocError, Global};
use wesl_visit_children::{
    find_declaration, find_statement, find_unit, meet_declaration, meet_statement, meet_unit,
};
use wesl_visit_children_mut::{change_declaration, change_statement, change_unit};
use wesl_visit_expressions::types::change::{
    change_arguments, change_attribute, change_expression,
};
use wesl_visit_expressions::types::find::{find_arguments, find_attribute, find_expression};
use wesl_visit_expressions::types::meet::{meet_arguments, meet_attribute, meet_expression};
use wgsl_declarations::{GlobalDeclaration, TranslationUnit};
use wgsl_expressions::{Attribute, Expression, TypeExpression};
use wgsl_statements::Statement;

/// A part of a syntax tree whose types can be visited. A visit meets each of them once, in document order, which is the order in
/// which they are printed, up to the first refusal of its closure.
pub trait VisitTypes {
    ghost use Rattle.std.specs.Prelude.{◌≡◌, List, IfOk};
    ghost use Rattle.std.specs.Fn.{CalledAt, CalledAtMut};
    ghost use Rattle.wgsl_expressions.specs.declared.expression.Expression.{Expression};
    ghost use Rattle.wgsl_expressions.specs.declared.expression.TypeExpressionOf.{TypeExpressionOf};
    ghost use Rattle.wesl_visit_children.specs.Turns.{pointed, CalledDeep, ChangedInTurn, ChangedDeep};
    ghost use Rattle.wesl_visit_expressions.specs.Types.{types_inside, around_inside};

    /// The outermost types, in document order.
    ghost nodes: { Self → List (TypeExpressionOf Expression) };

    /// All but those types: in the place of each stands a type without a name.
    ghost around: { Self → Self };

    /// The outermost types, in document order.
    fn visit<'a>(&'a self, alloc: Global) -> Result<Vec<&'a TypeExpression>, AllocError>
        ensures { IfOk result (λ found. pointed found.items ≡ nodes self.now) };

    /// Calls a closure at each of the outermost types, which it may change, up to its first refusal, which is the answer. What it
    /// leaves of a type is not entered. All else stays.
    fn visit_mut<E, F: FnMut(&mut TypeExpression) -> Result<(), E>>(
        &mut self,
        f: &mut F,
    ) -> Result<(), E>
        requires { F.IsAlwaysCallable f.old }
        ensures changed { ChangedInTurn (CalledAtMut F.FnMut) f.old (nodes self.old) result f.new (nodes self.new) }
        ensures rest { around self.new ≡ around self.old }
        ensures callable { F.IsAlwaysCallable f.new };

    /// Calls a closure at each type and behind it at those inside it, up to its first refusal, which is the answer.
    fn visit_rec<E, F: FnMut(&TypeExpression) -> Result<(), E>>(&self, f: &mut F) -> Result<(), E>
        requires { F.IsAlwaysCallable f.old }
        ensures met { CalledDeep types_inside (CalledAt F.FnMut) f.old (nodes self.now) result f.new }
        ensures callable { F.IsAlwaysCallable f.new };

    /// Calls a closure at the types inside each type and behind them at the type itself as it then is, up to its first
    /// refusal, which is the answer. It may change each. What it leaves of a type is not entered. All else stays.
    fn visit_rec_mut<E, F: FnMut(&mut TypeExpression) -> Result<(), E>>(
        &mut self,
        f: &mut F,
    ) -> Result<(), E>
        requires { F.IsAlwaysCallable f.old }
        ensures changed { ChangedDeep types_inside around_inside (CalledAtMut F.FnMut) f.old (nodes self.old) result f.new (nodes self.new) }
        ensures rest { around self.new ≡ around self.old }
        ensures callable { F.IsAlwaysCallable f.new };
}

impl VisitTypes for Expression {
    ghost use Rattle.wesl_visit_expressions.specs.Types.{types_in, around_types};

    ghost nodes = { types_in };

    ghost around = { around_types };

    fn visit<'a>(&'a self, alloc: Global) -> Result<Vec<&'a TypeExpression>, AllocError> {
        let mut found = Vec::new(alloc);
        find_expression(self, &mut found)?;
        Ok(found)
    }

    #[tactic(auto, using(wesl_visit_expressions::proofs::Visits::shallow))]
    fn visit_mut<E, F: FnMut(&mut TypeExpression) -> Result<(), E>>(
        &mut self,
        f: &mut F,
    ) -> Result<(), E> {
        change_expression(self, false, f)
    }

    fn visit_rec<E, F: FnMut(&TypeExpression) -> Result<(), E>>(&self, f: &mut F) -> Result<(), E> {
        meet_expression(self, f)
    }

    fn visit_rec_mut<E, F: FnMut(&mut TypeExpression) -> Result<(), E>>(
        &mut self,
        f: &mut F,
    ) -> Result<(), E> {
        change_expression(self, true, f)
    }
}

impl VisitTypes for TypeExpression {
    ghost use Rattle.wesl_visit_expressions.specs.Types.{types_inside, around_inside};

    ghost nodes = { types_inside };

    ghost around = { around_inside };

    fn visit<'a>(&'a self, alloc: Global) -> Result<Vec<&'a TypeExpression>, AllocError> {
        let mut found = Vec::new(alloc);
        find_arguments(self, &mut found)?;
        Ok(found)
    }

    #[tactic(auto, using(wesl_visit_expressions::proofs::Visits::shallow))]
    fn visit_mut<E, F: FnMut(&mut TypeExpression) -> Result<(), E>>(
        &mut self,
        f: &mut F,
    ) -> Result<(), E> {
        change_arguments(self, false, f)
    }

    fn visit_rec<E, F: FnMut(&TypeExpression) -> Result<(), E>>(&self, f: &mut F) -> Result<(), E> {
        meet_arguments(self, f)
    }

    fn visit_rec_mut<E, F: FnMut(&mut TypeExpression) -> Result<(), E>>(
        &mut self,
        f: &mut F,
    ) -> Result<(), E> {
        change_arguments(self, true, f)
    }
}

impl VisitTypes for Attribute {
    ghost use Rattle.wesl_visit_expressions.specs.TypesAttributes.{types_in_attribute, around_type_attribute};

    ghost nodes = { types_in_attribute };

    ghost around = { around_type_attribute };

    fn visit<'a>(&'a self, alloc: Global) -> Result<Vec<&'a TypeExpression>, AllocError> {
        let mut found = Vec::new(alloc);
        find_attribute(self, &mut found)?;
        Ok(found)
    }

    #[tactic(auto, using(wesl_visit_expressions::proofs::Visits::shallow))]
    fn visit_mut<E, F: FnMut(&mut TypeExpression) -> Result<(), E>>(
        &mut self,
        f: &mut F,
    ) -> Result<(), E> {
        change_attribute(self, false, f)
    }

    fn visit_rec<E, F: FnMut(&TypeExpression) -> Result<(), E>>(&self, f: &mut F) -> Result<(), E> {
        meet_attribute(self, f)
    }

    fn visit_rec_mut<E, F: FnMut(&mut TypeExpression) -> Result<(), E>>(
        &mut self,
        f: &mut F,
    ) -> Result<(), E> {
        change_attribute(self, true, f)
    }
}

impl VisitTypes for Statement {
    ghost use Rattle.wesl_visit_in_modules.specs.TypesModules.{types_in_statement, around_types_in_statement};

    ghost nodes = { types_in_statement };

    ghost around = { around_types_in_statement };

    fn visit<'a>(&'a self, alloc: Global) -> Result<Vec<&'a TypeExpression>, AllocError> {
        let mut listed = Vec::new(alloc);
        find_statement(self, &mut listed)?;
        let mut found = Vec::new(alloc);
        find_types(listed.as_slice(), &mut found)?;
        Ok(found)
    }

    fn visit_mut<E, F: FnMut(&mut TypeExpression) -> Result<(), E>>(
        &mut self,
        f: &mut F,
    ) -> Result<(), E> {
        change_statement(self, &mut Changing { f, deep: false })
    }

    fn visit_rec<E, F: FnMut(&TypeExpression) -> Result<(), E>>(&self, f: &mut F) -> Result<(), E> {
        meet_statement(self, &mut Reading { f })
    }

    fn visit_rec_mut<E, F: FnMut(&mut TypeExpression) -> Result<(), E>>(
        &mut self,
        f: &mut F,
    ) -> Result<(), E> {
        change_statement(self, &mut Changing { f, deep: true })
    }
}

impl VisitTypes for GlobalDeclaration {
    ghost use Rattle.wesl_visit_in_modules.specs.TypesModules.{types_in_declaration, around_types_in_declaration};

    ghost nodes = { types_in_declaration };

    ghost around = { around_types_in_declaration };

    fn visit<'a>(&'a self, alloc: Global) -> Result<Vec<&'a TypeExpression>, AllocError> {
        let mut listed = Vec::new(alloc);
        find_declaration(self, &mut listed)?;
        let mut found = Vec::new(alloc);
        find_types(listed.as_slice(), &mut found)?;
        Ok(found)
    }

    fn visit_mut<E, F: FnMut(&mut TypeExpression) -> Result<(), E>>(
        &mut self,
        f: &mut F,
    ) -> Result<(), E> {
        change_declaration(self, &mut Changing { f, deep: false })
    }

    fn visit_rec<E, F: FnMut(&TypeExpression) -> Result<(), E>>(&self, f: &mut F) -> Result<(), E> {
        meet_declaration(self, &mut Reading { f })
    }

    fn visit_rec_mut<E, F: FnMut(&mut TypeExpression) -> Result<(), E>>(
        &mut self,
        f: &mut F,
    ) -> Result<(), E> {
        change_declaration(self, &mut Changing { f, deep: true })
    }
}

impl VisitTypes for TranslationUnit {
    ghost use Rattle.wesl_visit_in_modules.specs.TypesModules.{types_in_unit, around_types_in_unit};

    ghost nodes = { types_in_unit };

    ghost around = { around_types_in_unit };

    fn visit<'a>(&'a self, alloc: Global) -> Result<Vec<&'a TypeExpression>, AllocError> {
        let mut listed = Vec::new(alloc);
        find_unit(self, &mut listed)?;
        let mut found = Vec::new(alloc);
        find_types(listed.as_slice(), &mut found)?;
        Ok(found)
    }

    fn visit_mut<E, F: FnMut(&mut TypeExpression) -> Result<(), E>>(
        &mut self,
        f: &mut F,
    ) -> Result<(), E> {
        change_unit(self, &mut Changing { f, deep: false })
    }

    fn visit_rec<E, F: FnMut(&TypeExpression) -> Result<(), E>>(&self, f: &mut F) -> Result<(), E> {
        meet_unit(self, &mut Reading { f })
    }

    fn visit_rec_mut<E, F: FnMut(&mut TypeExpression) -> Result<(), E>>(
        &mut self,
        f: &mut F,
    ) -> Result<(), E> {
        change_unit(self, &mut Changing { f, deep: true })
    }
}
