//! Attributes (WGSL, "Attributes"; WESL, "Conditional Translation" and "Imports").

use crate::{Boxed, ExpressionNode, Items, Spanned, Text};
use wgsl_words::{BuiltinValue, DiagnosticSeverity, InterpolationSampling, InterpolationType};

/// An attribute and its place.
pub type AttributeNode = Spanned<Attribute>;

pub type Attributes = Items<AttributeNode>;

/// An attribute. All that are not named here are custom.
#[derive(Debug, Drop, PartialEq)]
pub enum Attribute {
    Align(ExpressionNode),
    Binding(ExpressionNode),
    BlendSrc(ExpressionNode),
    Builtin(BuiltinValue),
    Const,
    Diagnostic(Boxed<DiagnosticAttribute>),
    Group(ExpressionNode),
    Id(ExpressionNode),
    Interpolate(InterpolateAttribute),
    Invariant,
    Location(ExpressionNode),
    MustUse,
    Size(ExpressionNode),
    WorkgroupSize(Boxed<WorkgroupSizeAttribute>),
    Vertex,
    Fragment,
    Compute,
    Publish,
    If(ExpressionNode),
    Elif(ExpressionNode),
    Else,
    Custom(Boxed<CustomAttribute>),
}

/// `@diagnostic`: a severity and the name of a rule.
#[derive(Debug, Drop, PartialEq)]
pub struct DiagnosticAttribute {
    pub severity: DiagnosticSeverity,
    pub rule: Text,
}

/// `@interpolate`: a type, and maybe where it is sampled.
#[derive(Clone, Copy, Debug, PartialEq)]
pub struct InterpolateAttribute {
    pub ty: InterpolationType,
    pub sampling: Option<InterpolationSampling>,
}

/// `@workgroup_size`: one to three sizes.
#[derive(Debug, Drop, PartialEq)]
pub struct WorkgroupSizeAttribute {
    pub x: ExpressionNode,
    pub y: Option<ExpressionNode>,
    pub z: Option<ExpressionNode>,
}

/// An attribute of another name. Without parentheses it has no arguments, which an empty list is not.
#[derive(Debug, Drop, PartialEq)]
pub struct CustomAttribute {
    pub name: Text,
    pub arguments: Option<Items<ExpressionNode>>,
}
