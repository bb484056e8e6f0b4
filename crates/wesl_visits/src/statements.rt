//! Visits of statements by the generic traits.

use crate::visit::{Visit, VisitEach, VisitEachMut};
use std::alloc::{AllocError, Global};
use wesl_visit::VisitStatements;
use wgsl_statements::StatementNode;

impl<S: VisitStatements> Visit<StatementNode> for S {
    ghost nodes = { S.nodes };

    fn visit<'a>(&'a self, alloc: Global) -> Result<Vec<&'a StatementNode>, AllocError> {
        VisitStatements::visit(self, alloc)
    }
}

impl<S: VisitStatements, E, F: FnMut(&StatementNode) -> Result<(), E>> VisitEach<
    StatementNode,
    E,
    F,
> for S {
    ghost use Rattle.std.specs.Fn.{CalledAt};
    ghost use Rattle.wesl_visit_children.specs.Turns.{CalledDeep};
    ghost use Rattle.wesl_visit.specs.Statements.{statements_inside};

    ghost callable = { F.IsAlwaysCallable };

    ghost met = { λ s f r g. CalledDeep statements_inside (CalledAt F.FnMut) f (S.nodes s) r g };

    fn visit_rec(&self, f: &mut F) -> Result<(), E> {
        VisitStatements::visit_rec(self, f)
    }
}

impl<S: VisitStatements, E, F: FnMut(&mut StatementNode) -> Result<(), E>> VisitEachMut<
    StatementNode,
    E,
    F,
> for S {
    ghost use Rattle.std.specs.Prelude.{◌≡◌};
    ghost use Rattle.std.specs.Fn.{CalledAtMut};
    ghost use Rattle.wesl_visit_children.specs.Turns.{ChangedInTurn, ChangedDeep};
    ghost use Rattle.wesl_visit.specs.Statements.{statements_inside, around_inside};

    ghost callable = { F.IsAlwaysCallable };

    ghost changed = { λ s f r t g. ChangedInTurn (CalledAtMut F.FnMut) f (S.nodes s) r g (S.nodes t) × (S.around t ≡ S.around s) };

    ghost changed_deep = { λ s f r t g. ChangedDeep statements_inside around_inside (CalledAtMut F.FnMut) f (S.nodes s) r g (S.nodes t) × (S.around t ≡ S.around s) };

    fn visit_mut(&mut self, f: &mut F) -> Result<(), E> {
        VisitStatements::visit_mut(self, f)
    }

    fn visit_rec_mut(&mut self, f: &mut F) -> Result<(), E> {
        VisitStatements::visit_rec_mut(self, f)
    }
}
