//! What a visit of attributes does at each part.

ghost use Rattle.std.specs.Prelude.{◌≡◌, ◌++◌, OnOk};
ghost use Rattle.std.specs.List.{flat_map};
ghost use Rattle.wesl_visit_children.specs.Turns.{pointed};
ghost use Rattle.wesl_visit_children.specs.Listed.{parts};
ghost use Rattle.wesl_visit_children_mut.specs.Attributes.{in_part};

use crate::WriteParts;
use std::alloc::AllocError;
use wesl_visit_children::{PartRef, ReadParts};
use wgsl_expressions::{AttributeNode, ExpressionNode, TypeExpression};

/// A closure that is called at attributes.
#[derive(Drop)]
pub(crate) struct Reading<'f, F> {
    pub(crate) f: &'f mut F,
}

/// A closure that is called at attributes, which it may change.
#[derive(Drop)]
pub(crate) struct Changing<'f, F> {
    pub(crate) f: &'f mut F,
}

impl<'f, E, F: FnMut(&AttributeNode) -> Result<(), E>> ReadParts for Reading<'f, F> {
    ghost use Rattle.std.specs.Fn.{CalledAt};
    ghost use Rattle.wesl_visit_children_mut.specs.Meeting.{Met};

    type Refusal = E;

    ghost ready = { λ s. F.IsAlwaysCallable s.f.now };

    ghost at = { Met (CalledAt F.FnMut) };

    fn attribute(&mut self, attribute: &AttributeNode) -> Result<(), E> {
        (self.f)(attribute)
    }

    fn expression(&mut self, _expression: &ExpressionNode) -> Result<(), E> {
        Ok(())
    }

    fn ty(&mut self, _ty: &TypeExpression) -> Result<(), E> {
        Ok(())
    }
}

impl<'f, E, F: FnMut(&mut AttributeNode) -> Result<(), E>> WriteParts for Changing<'f, F> {
    ghost use Rattle.std.specs.Fn.{CalledAtMut};
    ghost use Rattle.wesl_visit_children_mut.specs.Attributes.{but_attributes};
    ghost use Rattle.wesl_visit_children_mut.specs.Meeting.{Changed};

    type Refusal = E;

    ghost ready = { λ s. F.IsAlwaysCallable s.f.now };

    ghost at = { Changed (CalledAtMut F.FnMut) };

    ghost rest = { but_attributes };

    fn attribute(&mut self, attribute: &mut AttributeNode) -> Result<(), E> {
        (self.f)(attribute)
    }

    fn expression(&mut self, _expression: &mut ExpressionNode) -> Result<(), E> {
        Ok(())
    }

    fn ty(&mut self, _ty: &mut TypeExpression) -> Result<(), E> {
        Ok(())
    }
}

/// Lists the attributes among parts.
pub(crate) fn find_attributes<'a>(
    found: &[PartRef<'a>],
    attributes: &mut Vec<&'a AttributeNode>,
) -> Result<(), AllocError>
    ensures { OnOk result (pointed attributes.new.items ≡ pointed attributes.old.items ++ flat_map in_part (parts found.now)) }
{
    for part in found {
        if let PartRef::Attribute(attribute) = *part {
            attributes.push(attribute)?;
        }
    }
    Ok(())
}
