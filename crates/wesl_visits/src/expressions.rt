//! Visits of expressions by the generic traits.

use crate::visit::{Visit, VisitEach, VisitEachMut};
use std::alloc::{AllocError, Global};
use wesl_visit_in_modules::VisitExpressions;
use wgsl_expressions::ExpressionNode;

impl<S: VisitExpressions> Visit<ExpressionNode> for S {
    ghost nodes = { S.nodes };

    fn visit<'a>(&'a self, alloc: Global) -> Result<Vec<&'a ExpressionNode>, AllocError> {
        VisitExpressions::visit(self, alloc)
    }
}

impl<S: VisitExpressions, E, F: FnMut(&ExpressionNode) -> Result<(), E>> VisitEach<
    ExpressionNode,
    E,
    F,
> for S {
    ghost use Rattle.std.specs.Fn.{CalledAt};
    ghost use Rattle.wesl_visit_children.specs.Turns.{CalledDeep};
    ghost use Rattle.wesl_visit_expressions.specs.Expressions.{expressions_inside};

    ghost callable = { F.IsAlwaysCallable };

    ghost met = { λ s f r g. CalledDeep expressions_inside (CalledAt F.FnMut) f (S.nodes s) r g };

    fn visit_rec(&self, f: &mut F) -> Result<(), E> {
        VisitExpressions::visit_rec(self, f)
    }
}

impl<S: VisitExpressions, E, F: FnMut(&mut ExpressionNode) -> Result<(), E>> VisitEachMut<
    ExpressionNode,
    E,
    F,
> for S {
    ghost use Rattle.std.specs.Prelude.{◌≡◌};
    ghost use Rattle.std.specs.Fn.{CalledAtMut};
    ghost use Rattle.wesl_visit_children.specs.Turns.{ChangedInTurn, ChangedDeep};
    ghost use Rattle.wesl_visit_expressions.specs.Expressions.{expressions_inside, around_inside};

    ghost callable = { F.IsAlwaysCallable };

    ghost changed = { λ s f r t g. ChangedInTurn (CalledAtMut F.FnMut) f (S.nodes s) r g (S.nodes t) × (S.around t ≡ S.around s) };

    ghost changed_deep = { λ s f r t g. ChangedDeep expressions_inside around_inside (CalledAtMut F.FnMut) f (S.nodes s) r g (S.nodes t) × (S.around t ≡ S.around s) };

    fn visit_mut(&mut self, f: &mut F) -> Result<(), E> {
        VisitExpressions::visit_mut(self, f)
    }

    fn visit_rec_mut(&mut self, f: &mut F) -> Result<(), E> {
        VisitExpressions::visit_rec_mut(self, f)
    }
}
