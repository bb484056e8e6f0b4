//! Visits of attributes.

use crate::attributes::parts::{Changing, Reading, find_attributes};
use crate::{change_declaration, change_statement, change_unit};
use std::alloc::{AllocError, Global};
use wesl_visit_children::{
    find_declaration, find_statement, find_unit, meet_declaration, meet_statement, meet_unit,
};
use wgsl_declarations::{GlobalDeclaration, TranslationUnit};
use wgsl_expressions::AttributeNode;
use wgsl_statements::Statement;

/// A part of a syntax tree whose attributes can be visited, at every depth. A visit meets each of them once, in document order, which is
/// the order in which they are printed, up to the first refusal of its closure. No attribute holds another, so that `visit_rec` and
/// `visit_rec_mut` meet the same ones as `visit` and `visit_mut`.
pub trait VisitAttributes {
    ghost use Rattle.std.specs.Prelude.{◌≡◌, List, IfOk};
    ghost use Rattle.std.specs.Fn.{CalledAt, CalledAtMut};
    ghost use Rattle.wgsl_path.specs.declared.span.Spanned.{Spanned};
    ghost use Rattle.wgsl_expressions.specs.declared.attributes.attribute.Attribute.{Attribute};
    ghost use Rattle.wesl_visit_children.specs.Turns.{pointed, CalledInTurn, ChangedInTurn};

    /// The attributes, in document order.
    ghost nodes: { Self → List (Spanned Attribute) };

    /// All but those attributes: in the place of each stands a `@const` at no place.
    ghost around: { Self → Self };

    /// The attributes, in document order.
    fn visit<'a>(&'a self, alloc: Global) -> Result<Vec<&'a AttributeNode>, AllocError>
        ensures { IfOk result (λ found. pointed found.items ≡ nodes self.now) };

    /// Calls a closure at each attribute, which it may change, up to its first refusal, which is the answer. All else stays.
    fn visit_mut<E, F: FnMut(&mut AttributeNode) -> Result<(), E>>(
        &mut self,
        f: &mut F,
    ) -> Result<(), E>
        requires { F.IsAlwaysCallable f.old }
        ensures changed { ChangedInTurn (CalledAtMut F.FnMut) f.old (nodes self.old) result f.new (nodes self.new) }
        ensures rest { around self.new ≡ around self.old }
        ensures callable { F.IsAlwaysCallable f.new };

    /// Calls a closure at each attribute, up to its first refusal, which is the answer.
    fn visit_rec<E, F: FnMut(&AttributeNode) -> Result<(), E>>(&self, f: &mut F) -> Result<(), E>
        requires { F.IsAlwaysCallable f.old }
        ensures met { CalledInTurn (CalledAt F.FnMut) f.old (nodes self.now) result f.new }
        ensures callable { F.IsAlwaysCallable f.new };

    /// The same as `visit_mut`.
    fn visit_rec_mut<E, F: FnMut(&mut AttributeNode) -> Result<(), E>>(
        &mut self,
        f: &mut F,
    ) -> Result<(), E>
        requires { F.IsAlwaysCallable f.old }
        ensures changed { ChangedInTurn (CalledAtMut F.FnMut) f.old (nodes self.old) result f.new (nodes self.new) }
        ensures rest { around self.new ≡ around self.old }
        ensures callable { F.IsAlwaysCallable f.new };
}

impl VisitAttributes for Statement {
    ghost use Rattle.wesl_visit_children_mut.specs.Attributes.{attributes_in_statement, around_attributes_in_statement};

    ghost nodes = { attributes_in_statement };

    ghost around = { around_attributes_in_statement };

    fn visit<'a>(&'a self, alloc: Global) -> Result<Vec<&'a AttributeNode>, AllocError> {
        let mut parts = Vec::new(alloc);
        find_statement(self, &mut parts)?;
        let mut found = Vec::new(alloc);
        find_attributes(parts.as_slice(), &mut found)?;
        Ok(found)
    }

    fn visit_mut<E, F: FnMut(&mut AttributeNode) -> Result<(), E>>(
        &mut self,
        f: &mut F,
    ) -> Result<(), E> {
        change_statement(self, &mut Changing { f })
    }

    fn visit_rec<E, F: FnMut(&AttributeNode) -> Result<(), E>>(&self, f: &mut F) -> Result<(), E> {
        meet_statement(self, &mut Reading { f })
    }

    fn visit_rec_mut<E, F: FnMut(&mut AttributeNode) -> Result<(), E>>(
        &mut self,
        f: &mut F,
    ) -> Result<(), E> {
        change_statement(self, &mut Changing { f })
    }
}

impl VisitAttributes for GlobalDeclaration {
    ghost use Rattle.wesl_visit_children_mut.specs.Attributes.{attributes_in_declaration, around_attributes_in_declaration};

    ghost nodes = { attributes_in_declaration };

    ghost around = { around_attributes_in_declaration };

    fn visit<'a>(&'a self, alloc: Global) -> Result<Vec<&'a AttributeNode>, AllocError> {
        let mut parts = Vec::new(alloc);
        find_declaration(self, &mut parts)?;
        let mut found = Vec::new(alloc);
        find_attributes(parts.as_slice(), &mut found)?;
        Ok(found)
    }

    fn visit_mut<E, F: FnMut(&mut AttributeNode) -> Result<(), E>>(
        &mut self,
        f: &mut F,
    ) -> Result<(), E> {
        change_declaration(self, &mut Changing { f })
    }

    fn visit_rec<E, F: FnMut(&AttributeNode) -> Result<(), E>>(&self, f: &mut F) -> Result<(), E> {
        meet_declaration(self, &mut Reading { f })
    }

    fn visit_rec_mut<E, F: FnMut(&mut AttributeNode) -> Result<(), E>>(
        &mut self,
        f: &mut F,
    ) -> Result<(), E> {
        change_declaration(self, &mut Changing { f })
    }
}

impl VisitAttributes for TranslationUnit {
    ghost use Rattle.wesl_visit_children_mut.specs.Attributes.{attributes_in_unit, around_attributes_in_unit};

    ghost nodes = { attributes_in_unit };

    ghost around = { around_attributes_in_unit };

    fn visit<'a>(&'a self, alloc: Global) -> Result<Vec<&'a AttributeNode>, AllocError> {
        let mut parts = Vec::new(alloc);
        find_unit(self, &mut parts)?;
        let mut found = Vec::new(alloc);
        find_attributes(parts.as_slice(), &mut found)?;
        Ok(found)
    }

    fn visit_mut<E, F: FnMut(&mut AttributeNode) -> Result<(), E>>(
        &mut self,
        f: &mut F,
    ) -> Result<(), E> {
        change_unit(self, &mut Changing { f })
    }

    fn visit_rec<E, F: FnMut(&AttributeNode) -> Result<(), E>>(&self, f: &mut F) -> Result<(), E> {
        meet_unit(self, &mut Reading { f })
    }

    fn visit_rec_mut<E, F: FnMut(&mut AttributeNode) -> Result<(), E>>(
        &mut self,
        f: &mut F,
    ) -> Result<(), E> {
        change_unit(self, &mut Changing { f })
    }
}
