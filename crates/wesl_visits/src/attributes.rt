//! Visits of attributes by the generic traits.

use crate::visit::{Visit, VisitEach, VisitEachMut};
use std::alloc::{AllocError, Global};
use wesl_visit_children_mut::VisitAttributes;
use wgsl_expressions::AttributeNode;

impl<S: VisitAttributes> Visit<AttributeNode> for S {
    ghost nodes = { S.nodes };

    fn visit<'a>(&'a self, alloc: Global) -> Result<Vec<&'a AttributeNode>, AllocError> {
        VisitAttributes::visit(self, alloc)
    }
}

impl<S: VisitAttributes, E, F: FnMut(&AttributeNode) -> Result<(), E>> VisitEach<
    AttributeNode,
    E,
    F,
> for S {
    ghost use Rattle.std.specs.Fn.{CalledAt};
    ghost use Rattle.wesl_visit_children.specs.Turns.{CalledInTurn};

    ghost callable = { F.IsAlwaysCallable };

    ghost met = { λ s f r g. CalledInTurn (CalledAt F.FnMut) f (S.nodes s) r g };

    fn visit_rec(&self, f: &mut F) -> Result<(), E> {
        VisitAttributes::visit_rec(self, f)
    }
}

impl<S: VisitAttributes, E, F: FnMut(&mut AttributeNode) -> Result<(), E>> VisitEachMut<
    AttributeNode,
    E,
    F,
> for S {
    ghost use Rattle.std.specs.Prelude.{◌≡◌};
    ghost use Rattle.std.specs.Fn.{CalledAtMut};
    ghost use Rattle.wesl_visit_children.specs.Turns.{ChangedInTurn};

    ghost callable = { F.IsAlwaysCallable };

    ghost changed = { λ s f r t g. ChangedInTurn (CalledAtMut F.FnMut) f (S.nodes s) r g (S.nodes t) × (S.around t ≡ S.around s) };

    ghost changed_deep = { λ s f r t g. ChangedInTurn (CalledAtMut F.FnMut) f (S.nodes s) r g (S.nodes t) × (S.around t ≡ S.around s) };

    fn visit_mut(&mut self, f: &mut F) -> Result<(), E> {
        VisitAttributes::visit_mut(self, f)
    }

    fn visit_rec_mut(&mut self, f: &mut F) -> Result<(), E> {
        VisitAttributes::visit_rec_mut(self, f)
    }
}
