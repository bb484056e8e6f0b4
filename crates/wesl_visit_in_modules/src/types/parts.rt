//! What a visit of types does at each part.

ghost use Rattle.std.specs.Prelude.{◌≡◌, ◌++◌, OnOk};
ghost use Rattle.std.specs.List.{flat_map};
ghost use Rattle.wesl_visit_children.specs.Turns.{pointed};
ghost use Rattle.wesl_visit_children.specs.Listed.{parts};
ghost use Rattle.wesl_visit_in_modules.specs.TypesModules.{in_part};

use std::alloc::AllocError;
use wesl_visit_children::{PartRef, ReadParts};
use wesl_visit_children_mut::WriteParts;
use wesl_visit_expressions::types::change::{change_attribute, change_expression, change_type};
use wesl_visit_expressions::types::find::{find_attribute, find_expression, find_type};
use wesl_visit_expressions::types::meet::{meet_attribute, meet_expression, meet_type};
use wgsl_expressions::{AttributeNode, ExpressionNode, TypeExpression};

/// A closure that is called at types, and at those inside each.
#[derive(Drop)]
pub(crate) struct Reading<'f, F> {
    pub(crate) f: &'f mut F,
}

/// A closure that is called at types, which it may change: the outermost ones, or, where the visit is deep, those inside each before it.
#[derive(Drop)]
pub(crate) struct Changing<'f, F> {
    pub(crate) f: &'f mut F,
    pub(crate) deep: bool,
}

impl<'f, E, F: FnMut(&TypeExpression) -> Result<(), E>> ReadParts for Reading<'f, F> {
    ghost use Rattle.std.specs.Fn.{CalledAt};
    ghost use Rattle.wesl_visit_in_modules.specs.TypesMeeting.{Met};

    type Refusal = E;

    ghost ready = { λ s. F.IsAlwaysCallable s.f.now };

    ghost at = { Met (CalledAt F.FnMut) };

    fn attribute(&mut self, attribute: &AttributeNode) -> Result<(), E> {
        meet_attribute(attribute.node(), self.f)
    }

    fn expression(&mut self, expression: &ExpressionNode) -> Result<(), E> {
        meet_expression(expression.node(), self.f)
    }

    fn ty(&mut self, ty: &TypeExpression) -> Result<(), E> {
        meet_type(ty, self.f)
    }
}

impl<'f, E, F: FnMut(&mut TypeExpression) -> Result<(), E>> WriteParts for Changing<'f, F> {
    ghost use Rattle.std.specs.Fn.{CalledAtMut};
    ghost use Rattle.wesl_visit_in_modules.specs.TypesModules.{but_types};
    ghost use Rattle.wesl_visit_in_modules.specs.TypesMeeting.{Changed};

    type Refusal = E;

    ghost ready = { λ s. F.IsAlwaysCallable s.f.now };

    ghost at = { Changed (CalledAtMut F.FnMut) };

    ghost rest = { but_types };

    fn attribute(&mut self, attribute: &mut AttributeNode) -> Result<(), E> {
        change_attribute(attribute.node_mut(), self.deep, self.f)
    }

    fn expression(&mut self, expression: &mut ExpressionNode) -> Result<(), E> {
        change_expression(expression.node_mut(), self.deep, self.f)
    }

    fn ty(&mut self, ty: &mut TypeExpression) -> Result<(), E> {
        change_type(ty, self.deep, self.f)
    }
}

/// Lists the outermost types in parts.
pub(crate) fn find_types<'a>(
    listed: &[PartRef<'a>],
    found: &mut Vec<&'a TypeExpression>,
) -> Result<(), AllocError>
    ensures { OnOk result (pointed found.new.items ≡ pointed found.old.items ++ flat_map in_part (parts listed.now)) }
{
    for part in listed {
        match *part {
            PartRef::Attribute(x) => find_attribute(x.node(), found)?,
            PartRef::Expression(x) => find_expression(x.node(), found)?,
            PartRef::Type(x) => find_type(x, found)?,
        }
    }
    Ok(())
}
