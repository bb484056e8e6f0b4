//! Attributes as text.

ghost use Rattle.std.specs.Prelude.{◌≡◌, ◌++◌, Some, map, codes};
ghost use Rattle.std.specs.List.{flat_map};
ghost use Rattle.std.specs.Option.{option_map};
ghost use Rattle.std.specs.Fmt.{WritesOnOk};
ghost use Rattle.wgsl_words.specs.Texts.{builtin_value_text};
ghost use Rattle.wgsl_expressions.specs.View.{node_tree};
ghost use Rattle.wgsl_expressions.specs.Print.{commas, exp_text};
ghost use Rattle.wgsl_expressions.specs.AttributesView.{attribute_tree, attributes_tree, interpolate_tree, diagnostic_tree, workgroup_tree, custom_tree};
ghost use Rattle.wgsl_expressions.specs.AttributesPrint.{argued, attr_text, attrs_text, more_text, sampling_text, arguments_text};

use crate::attributes::attribute::{
    Attribute, AttributeNode, CustomAttribute, DiagnosticAttribute, InterpolateAttribute,
    WorkgroupSizeAttribute,
};
use crate::{ExpressionNode, Items, write_list};
use std::fmt;
use std::fmt::Display;
use wgsl_words::{BuiltinValue, InterpolationSampling};

impl fmt::Display for Attribute {
    ghost output = { λ x. Some (attr_text (attribute_tree x)) };

    fn fmt<W: fmt::Write>(&self, f: &mut fmt::Formatter<W>) -> fmt::Result {
        match self {
            Attribute::Align(x) => write_argument("align", x, f),
            Attribute::Binding(x) => write_argument("binding", x, f),
            Attribute::BlendSrc(x) => write_argument("blend_src", x, f),
            Attribute::Builtin(x) => write_builtin(*x, f),
            Attribute::Const => f.write_str("@const"),
            Attribute::Diagnostic(x) => x.get().fmt(f),
            Attribute::Group(x) => write_argument("group", x, f),
            Attribute::Id(x) => write_argument("id", x, f),
            Attribute::Interpolate(x) => x.fmt(f),
            Attribute::Invariant => f.write_str("@invariant"),
            Attribute::Location(x) => write_argument("location", x, f),
            Attribute::MustUse => f.write_str("@must_use"),
            Attribute::Size(x) => write_argument("size", x, f),
            Attribute::WorkgroupSize(x) => x.get().fmt(f),
            Attribute::Vertex => f.write_str("@vertex"),
            Attribute::Fragment => f.write_str("@fragment"),
            Attribute::Compute => f.write_str("@compute"),
            Attribute::Publish => f.write_str("@publish"),
            Attribute::If(x) => write_argument("if", x, f),
            Attribute::Elif(x) => write_argument("elif", x, f),
            Attribute::Else => f.write_str("@else"),
            Attribute::Custom(x) => x.get().fmt(f),
        }
    }
}

/// Writes an attribute with one argument.
#[tactic(auto, unfolding(crate::specs::AttributesPrint::argued))]
fn write_argument<W: fmt::Write>(
    word: &str,
    argument: &ExpressionNode,
    f: &mut fmt::Formatter<W>,
) -> fmt::Result
    ensures { WritesOnOk W.write_str_gives f.old result (argued word.now (exp_text (node_tree argument.now))) f.new }
{
    f.write_str("@")?;
    f.write_str(word)?;
    f.write_str("(")?;
    argument.node().fmt(f)?;
    f.write_str(")")
}

#[tactic(auto, unfolding(crate::specs::AttributesPrint::argued))]
fn write_builtin<W: fmt::Write>(value: BuiltinValue, f: &mut fmt::Formatter<W>) -> fmt::Result
    ensures { WritesOnOk W.write_str_gives f.old result (argued (codes "builtin") (builtin_value_text value)) f.new }
{
    f.write_str("@builtin(")?;
    value.fmt(f)?;
    f.write_str(")")
}

impl fmt::Display for DiagnosticAttribute {
    ghost output = { λ x. Some (attr_text (diagnostic_tree x)) };

    #[tactic(auto, unfolding(crate::specs::AttributesPrint::argued))]
    fn fmt<W: fmt::Write>(&self, f: &mut fmt::Formatter<W>) -> fmt::Result {
        f.write_str("@diagnostic(")?;
        self.severity.fmt(f)?;
        f.write_str(", ")?;
        self.rule.fmt(f)?;
        f.write_str(")")
    }
}

impl fmt::Display for InterpolateAttribute {
    ghost output = { λ x. Some (attr_text (interpolate_tree x)) };

    #[tactic(auto, unfolding(crate::specs::AttributesPrint::argued))]
    fn fmt<W: fmt::Write>(&self, f: &mut fmt::Formatter<W>) -> fmt::Result {
        f.write_str("@interpolate(")?;
        self.ty.fmt(f)?;
        write_sampling(self.sampling, f)?;
        f.write_str(")")
    }
}

fn write_sampling<W: fmt::Write>(
    sampling: Option<InterpolationSampling>,
    f: &mut fmt::Formatter<W>,
) -> fmt::Result
    ensures { WritesOnOk W.write_str_gives f.old result (sampling_text sampling) f.new }
{
    match sampling {
        None => Ok(()),
        Some(sampling) => {
            f.write_str(", ")?;
            sampling.fmt(f)
        }
    }
}

impl fmt::Display for WorkgroupSizeAttribute {
    ghost output = { λ x. Some (attr_text (workgroup_tree x)) };

    #[tactic(auto, unfolding(crate::specs::AttributesPrint::argued))]
    fn fmt<W: fmt::Write>(&self, f: &mut fmt::Formatter<W>) -> fmt::Result {
        f.write_str("@workgroup_size(")?;
        self.x.node().fmt(f)?;
        write_more(&self.y, f)?;
        write_more(&self.z, f)?;
        f.write_str(")")
    }
}

/// Writes an argument behind another, where there is one.
fn write_more<W: fmt::Write>(
    argument: &Option<ExpressionNode>,
    f: &mut fmt::Formatter<W>,
) -> fmt::Result
    ensures { WritesOnOk W.write_str_gives f.old result (more_text (option_map node_tree argument.now)) f.new }
{
    match argument {
        None => Ok(()),
        Some(argument) => {
            f.write_str(", ")?;
            argument.node().fmt(f)
        }
    }
}

impl fmt::Display for CustomAttribute {
    ghost output = { λ x. Some (attr_text (custom_tree x)) };

    fn fmt<W: fmt::Write>(&self, f: &mut fmt::Formatter<W>) -> fmt::Result {
        f.write_str("@")?;
        self.name.fmt(f)?;
        write_arguments(&self.arguments, f)
    }
}

fn write_arguments<W: fmt::Write>(
    arguments: &Option<Items<ExpressionNode>>,
    f: &mut fmt::Formatter<W>,
) -> fmt::Result
    ensures { WritesOnOk W.write_str_gives f.old result (arguments_text (option_map (map node_tree) arguments.now)) f.new }
{
    match arguments {
        None => Ok(()),
        Some(arguments) => {
            f.write_str("(")?;
            write_list(arguments.as_slice(), f)?;
            f.write_str(")")
        }
    }
}

/// Writes attributes before their node: a space after each.
pub fn write_attributes<W: fmt::Write>(
    attributes: &[AttributeNode],
    f: &mut fmt::Formatter<W>,
) -> fmt::Result
    ensures { WritesOnOk W.write_str_gives f.old result (attrs_text (attributes_tree attributes.now)) f.new }
{
    write_each_attribute(attributes, f)
}

fn write_each_attribute<W: fmt::Write>(
    attributes: &[AttributeNode],
    f: &mut fmt::Formatter<W>,
) -> fmt::Result
    ensures { WritesOnOk W.write_str_gives f.old result (flat_map (λ n. attr_text (attribute_tree n.node) ++ codes " ") attributes.now) f.new }
{
    for attribute in attributes {
        attribute.node().fmt(f)?;
        f.write_str(" ")?;
    }
    Ok(())
}
