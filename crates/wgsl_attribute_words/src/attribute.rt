//! Attributes, by their words and arguments.

ghost use Rattle.std.specs.Prelude.{◌≡◌, Some, IfOk};
ghost use Rattle.wgsl_attribute_words.specs.Attributes as attributes;

use crate::name::{
    builtin_value_in, interpolation_sampling_in, interpolation_type_in, rule_of, severity_in,
};
use crate::word::{AttributeWord, word_named};
use std::alloc::{AllocError, Global};
use wgsl_base::{Boxed, CloneIn, Items, Text};
use wgsl_expressions::{
    Attribute, CustomAttribute, DiagnosticAttribute, ExpressionNode, InterpolateAttribute,
    WorkgroupSizeAttribute,
};
use wgsl_words::{DiagnosticSeverity, InterpolationSampling, InterpolationType};

fn without_arguments(word: AttributeWord) -> Option<Attribute>
    ensures { result ≡ attributes.without_arguments word }
{
    match word {
        AttributeWord::Const => Some(Attribute::Const),
        AttributeWord::Invariant => Some(Attribute::Invariant),
        AttributeWord::MustUse => Some(Attribute::MustUse),
        AttributeWord::Vertex => Some(Attribute::Vertex),
        AttributeWord::Fragment => Some(Attribute::Fragment),
        AttributeWord::Compute => Some(Attribute::Compute),
        AttributeWord::Publish => Some(Attribute::Publish),
        AttributeWord::Else => Some(Attribute::Else),
        _ => None,
    }
}

fn interpolated(
    ty: Option<InterpolationType>,
    sampling: Option<InterpolationSampling>,
) -> Option<Attribute>
    ensures { result ≡ attributes.interpolated ty sampling }
{
    match ty {
        None => None,
        Some(ty) => Some(Attribute::Interpolate(InterpolateAttribute { ty, sampling })),
    }
}

fn workgroup(
    alloc: Global,
    x: ExpressionNode,
    y: Option<ExpressionNode>,
    z: Option<ExpressionNode>,
) -> Result<Option<Attribute>, AllocError>
    ensures { IfOk result (λ found. found ≡ Some (attributes.workgroup x y z)) }
{
    let size = WorkgroupSizeAttribute { x, y, z };
    Ok(Some(Attribute::WorkgroupSize(Boxed::new(alloc, size)?)))
}

fn builtin(node: &ExpressionNode) -> Option<Attribute>
    ensures { result ≡ attributes.builtin node.now }
{
    match builtin_value_in(node) {
        None => None,
        Some(value) => Some(Attribute::Builtin(value)),
    }
}

fn with_one(
    alloc: Global,
    word: AttributeWord,
    x: ExpressionNode,
) -> Result<Option<Attribute>, AllocError>
    ensures { IfOk result (λ found. found ≡ attributes.with_one word x) }
{
    match word {
        AttributeWord::Align => Ok(Some(Attribute::Align(x))),
        AttributeWord::Binding => Ok(Some(Attribute::Binding(x))),
        AttributeWord::BlendSrc => Ok(Some(Attribute::BlendSrc(x))),
        AttributeWord::Group => Ok(Some(Attribute::Group(x))),
        AttributeWord::Id => Ok(Some(Attribute::Id(x))),
        AttributeWord::Location => Ok(Some(Attribute::Location(x))),
        AttributeWord::Size => Ok(Some(Attribute::Size(x))),
        AttributeWord::If => Ok(Some(Attribute::If(x))),
        AttributeWord::Elif => Ok(Some(Attribute::Elif(x))),
        AttributeWord::Builtin => Ok(builtin(&x)),
        AttributeWord::Interpolate => Ok(interpolated(interpolation_type_in(&x), None)),
        AttributeWord::WorkgroupSize => workgroup(alloc, x, None, None),
        _ => Ok(None),
    }
}

fn sampled(
    ty: Option<InterpolationType>,
    sampling: Option<InterpolationSampling>,
) -> Option<Attribute>
    ensures { result ≡ attributes.sampled ty sampling }
{
    match sampling {
        None => None,
        Some(sampling) => interpolated(ty, Some(sampling)),
    }
}

fn diagnosed(
    alloc: Global,
    severity: Option<DiagnosticSeverity>,
    rule: Option<Text>,
) -> Result<Option<Attribute>, AllocError>
    ensures { IfOk result (λ found. found ≡ attributes.diagnosed severity rule) }
{
    match (severity, rule) {
        (Some(severity), Some(rule)) => {
            let diagnostic = DiagnosticAttribute { severity, rule };
            Ok(Some(Attribute::Diagnostic(Boxed::new(alloc, diagnostic)?)))
        }
        _ => Ok(None),
    }
}

fn with_two(
    alloc: Global,
    word: AttributeWord,
    x: &ExpressionNode,
    y: &ExpressionNode,
) -> Result<Option<Attribute>, AllocError>
    ensures { IfOk result (λ found. found ≡ attributes.with_two word x.now y.now) }
{
    match word {
        AttributeWord::Interpolate => {
            Ok(sampled(interpolation_type_in(x), interpolation_sampling_in(y)))
        }
        AttributeWord::Diagnostic => diagnosed(alloc, severity_in(x), rule_of(alloc, y.node())?),
        AttributeWord::WorkgroupSize => {
            workgroup(alloc, x.clone_in(alloc)?, Some(y.clone_in(alloc)?), None)
        }
        _ => Ok(None),
    }
}

fn with_three(
    alloc: Global,
    word: AttributeWord,
    x: &ExpressionNode,
    y: &ExpressionNode,
    z: &ExpressionNode,
) -> Result<Option<Attribute>, AllocError>
    ensures { IfOk result (λ found. found ≡ attributes.with_three word x.now y.now z.now) }
{
    match word {
        AttributeWord::WorkgroupSize => {
            let x = x.clone_in(alloc)?;
            let y = y.clone_in(alloc)?;
            let z = z.clone_in(alloc)?;
            workgroup(alloc, x, Some(y), Some(z))
        }
        _ => Ok(None),
    }
}

fn with_arguments(
    alloc: Global,
    word: AttributeWord,
    arguments: &[ExpressionNode],
) -> Result<Option<Attribute>, AllocError>
    ensures { IfOk result (λ found. found ≡ attributes.with_arguments word arguments.now) }
{
    match arguments {
        [x] => with_one(alloc, word, x.clone_in(alloc)?),
        [x, y] => with_two(alloc, word, x, y),
        [x, y, z] => with_three(alloc, word, x, y, z),
        _ => Ok(None),
    }
}

fn known_attribute(
    alloc: Global,
    word: AttributeWord,
    arguments: &Option<Items<ExpressionNode>>,
) -> Result<Option<Attribute>, AllocError>
    ensures { IfOk result (λ found. found ≡ attributes.known_attribute word arguments.now) }
{
    match arguments {
        None => Ok(without_arguments(word)),
        Some(arguments) => with_arguments(alloc, word, arguments.as_slice()),
    }
}

/// An attribute of any word, with any arguments.
fn custom(
    alloc: Global,
    name: &str,
    arguments: &Option<Items<ExpressionNode>>,
) -> Result<Attribute, AllocError>
    ensures { IfOk result (λ made. made ≡ attributes.custom name.now arguments.now) }
{
    let custom = CustomAttribute {
        name: Text::from_str(alloc, name)?,
        arguments: arguments.clone_in(alloc)?,
    };
    Ok(Attribute::Custom(Boxed::new(alloc, custom)?))
}

/// The attribute of this word and these arguments. `None` where the word is an attribute's name, and takes other arguments.
pub fn attribute_of(
    alloc: Global,
    name: &str,
    arguments: &Option<Items<ExpressionNode>>,
) -> Result<Option<Attribute>, AllocError>
    ensures { IfOk result (λ found. found ≡ attributes.attribute_of name.now arguments.now) }
{
    match word_named(name) {
        Some(word) => known_attribute(alloc, word, arguments),
        None => Ok(Some(custom(alloc, name, arguments)?)),
    }
}
