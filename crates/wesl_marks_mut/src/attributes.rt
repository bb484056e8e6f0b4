//! What is put into attributes.

ghost use Rattle.std.specs.Prelude.{◌≡◌};
ghost use Rattle.wgsl_expressions.specs.View.{node_tree};
ghost use Rattle.wgsl_expressions.specs.AttributesView.{attribute_tree, attributes_tree, workgroup_tree, custom_tree};
ghost use Rattle.wesl_marks_mut.specs.Written.{written};
ghost use Rattle.wesl_marks_mut.specs.WrittenAttributes.{attribute_written, attributes_written};

use crate::expressions::{write_expression, write_expressions, write_optional};
use crate::script::Script;
use wgsl_base::Items;
use wgsl_expressions::{
    Attribute, AttributeNode, CustomAttribute, ExpressionNode, WorkgroupSizeAttribute,
};

/// Writes the expression of an attribute.
fn write_argument(x: &mut ExpressionNode, script: &mut Script)
    ensures tree { node_tree x.new ≡ (written (node_tree x.old) script.old.rest.items).0 }
    ensures rest { script.new.rest.items ≡ (written (node_tree x.old) script.old.rest.items).1 }
{
    write_expression(x.node_mut(), script);
}

/// Writes the sizes of a workgroup.
fn write_workgroup(x: &mut WorkgroupSizeAttribute, script: &mut Script)
    ensures tree { workgroup_tree x.new ≡ (attribute_written (workgroup_tree x.old) script.old.rest.items).0 }
    ensures rest { script.new.rest.items ≡ (attribute_written (workgroup_tree x.old) script.old.rest.items).1 }
{
    write_expression(x.x.node_mut(), script);
    write_optional(&mut x.y, script);
    write_optional(&mut x.z, script);
}

/// Writes the arguments of an attribute of any other name.
fn write_custom(x: &mut CustomAttribute, script: &mut Script)
    ensures tree { custom_tree x.new ≡ (attribute_written (custom_tree x.old) script.old.rest.items).0 }
    ensures rest { script.new.rest.items ≡ (attribute_written (custom_tree x.old) script.old.rest.items).1 }
{
    if let Some(arguments) = &mut x.arguments {
        write_expressions(arguments, script);
    }
}

/// Writes an attribute.
fn write_attribute(attribute: &mut Attribute, script: &mut Script)
    ensures tree { attribute_tree attribute.new ≡ (attribute_written (attribute_tree attribute.old) script.old.rest.items).0 }
    ensures rest { script.new.rest.items ≡ (attribute_written (attribute_tree attribute.old) script.old.rest.items).1 }
{
    match attribute {
        Attribute::Align(x) => write_argument(x, script),
        Attribute::Binding(x) => write_argument(x, script),
        Attribute::BlendSrc(x) => write_argument(x, script),
        Attribute::Group(x) => write_argument(x, script),
        Attribute::Id(x) => write_argument(x, script),
        Attribute::Location(x) => write_argument(x, script),
        Attribute::Size(x) => write_argument(x, script),
        Attribute::WorkgroupSize(x) => write_workgroup(x.get_mut(), script),
        Attribute::Custom(x) => write_custom(x.get_mut(), script),
        _ => {}
    }
}

/// Writes attributes, one by one.
pub(crate) fn write_attributes(attributes: &mut Items<AttributeNode>, script: &mut Script)
    ensures tree { attributes_tree attributes.new ≡ (attributes_written (attributes_tree attributes.old) script.old.rest.items).0 }
    ensures rest { script.new.rest.items ≡ (attributes_written (attributes_tree attributes.old) script.old.rest.items).1 }
{
    for i in 0..attributes.len() {
        write_attribute(attributes.get_mut(i).node_mut(), script);
    }
}
