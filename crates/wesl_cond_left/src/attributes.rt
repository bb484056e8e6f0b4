//! Conditions among attributes.

ghost use Rattle.std.specs.Prelude.{◌≡◌};
ghost use Rattle.wgsl_expressions.specs.AttributesView.{attribute_tree, attributes_tree};
ghost use Rattle.wesl_conditions.specs.Chains.{is_condition};
ghost use Rattle.wesl_cond_left.specs.Open.{is_open};

use wgsl_expressions::{Attribute, Attributes};

/// Whether one of them is a condition.
pub(crate) fn is_conditional(attributes: &Attributes) -> bool
    ensures { result ≡ is_open (attributes_tree attributes.now) }
{
    for attribute in attributes.as_slice() {
        if is_mark(attribute.node()) {
            return true;
        }
    }
    false
}

fn is_mark(attribute: &Attribute) -> bool
    ensures { result ≡ is_condition (attribute_tree attribute.now) }
{
    match attribute {
        Attribute::If(_) => true,
        Attribute::Elif(_) => true,
        Attribute::Else => true,
        Attribute::Align(_) => false,
        Attribute::Binding(_) => false,
        Attribute::BlendSrc(_) => false,
        Attribute::Builtin(_) => false,
        Attribute::Const => false,
        Attribute::Diagnostic(_) => false,
        Attribute::Group(_) => false,
        Attribute::Id(_) => false,
        Attribute::Interpolate(_) => false,
        Attribute::Invariant => false,
        Attribute::Location(_) => false,
        Attribute::MustUse => false,
        Attribute::Size(_) => false,
        Attribute::WorkgroupSize(_) => false,
        Attribute::Vertex => false,
        Attribute::Fragment => false,
        Attribute::Compute => false,
        Attribute::Publish => false,
        Attribute::Custom(_) => false,
    }
}
