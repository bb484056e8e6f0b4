//! What the nodes of syntax trees have in common.

ghost use Rattle.std.specs.Fn.{CalledAtMut};
ghost use Rattle.std.specs.List.Retain.{RetainsInTurn};
ghost use Rattle.wgsl_nodes.specs.Attributes.{InPlace};

use wgsl_expressions::{Attribute, AttributeNode, Attributes};
use wgsl_path::{Ident, Span};

/// What a node of a syntax tree has beside its parts.
#[derive(Clone, Copy)]
pub struct Header<'a> {
    /// The node's place in its text.
    pub span: Option<Span>,
    /// The name that the node declares.
    pub ident: Option<&'a Ident>,
    /// The attributes before the node, in order.
    pub attributes: Option<&'a Attributes>,
}

/// A node of a syntax tree. It may have a place, a name and attributes.
pub trait SyntaxNode {
    ghost use Rattle.std.specs.Prelude.{◌≡◌, List, Option, MatchOption};
    ghost use Rattle.std.specs.List.{list_any};
    ghost use Rattle.std.specs.List.Retain.{RetainsInTurn};
    ghost use Rattle.std.specs.Option.{option_copied, option_copied_mut};
    ghost use Rattle.std.specs.Fn.{CalledAtMut};
    ghost use Rattle.std.specs.Borrow.{sem, LendsIf};
    ghost use Rattle.wgsl_path.specs.declared.span.Span.{Span};
    ghost use Rattle.wgsl_path.specs.declared.ident.Ident.{Ident};
    ghost use Rattle.wgsl_path.specs.declared.span.Spanned.{Spanned};
    ghost use Rattle.wgsl_expressions.specs.declared.attributes.attribute.Attribute.{Attribute};
    ghost use Rattle.wgsl_nodes.specs.Attributes.{attributes_row, listed, InPlace};

    /// The node's place. Only nodes behind `Spanned` have one.
    ghost place: { Self → Option Span };

    /// The name that the node declares.
    ghost name: { Self → Option Ident };

    /// The node's attributes; `None` where it can have none.
    ghost own: { Self → Option (List (Spanned Attribute)) };

    /// The node with these attributes in the place of its own. Where it can have none it stays as it is.
    ghost with_own: { Self → List (Spanned Attribute) → Self };

    /// The node's place, name and attributes.
    fn header(&self) -> Header<'_>
        ensures place { result.span ≡ place self.now }
        ensures name { option_copied result.ident ≡ name self.now }
        ensures attributes { option_copied result.attributes ≡ own self.now };

    /// The node's attributes, to be changed; `None` where it can have none. All else stays.
    fn attributes_mut(&mut self) -> Option<&mut Attributes>
        ensures* writes_back { sem 𝓛 (LendsIf Self.row attributes_row self.entry result (with_own self.old) self.old) }
        ensures value { option_copied_mut result ≡ own self.old };

    /// The node's place.
    final fn span(&self) -> Option<Span>
        ensures { result ≡ place self.now }
    {
        self.header().span
    }

    /// The name that the node declares.
    final fn ident(&self) -> Option<&Ident>
        ensures { option_copied result ≡ name self.now }
    {
        self.header().ident
    }

    /// The node's attributes, in order. A node that can have none has an empty list.
    final fn attributes(&self) -> &[AttributeNode]
        ensures { result.now ≡ listed (own self.now) }
    {
        match self.header().attributes {
            None => &[],
            Some(attributes) => attributes.as_slice(),
        }
    }

    /// Whether one of the node's attributes equals this one, wherever the two stand.
    final fn contains_attribute(&self, attribute: &Attribute) -> bool
        ensures { result ≡ list_any (λ n. ⟦<Attribute as PartialEq>⟧.eq n.node attribute.now) (listed (own self.now)) }
    {
        self.attributes()
            .iter()
            .any(|node| *node.node() == *attribute)
    }

    /// Keeps, in order, the attributes at which the closure returns `true`, as it leaves them, and drops the others.
    final fn retain_attributes_mut<F: FnMut(&mut Attribute) -> bool>(&mut self, f: F)
        requires { F.IsAlwaysCallable f }
        ensures { MatchOption (own self.old) (self.new ≡ self.old) (λ old. (kept : List (Spanned Attribute)) × RetainsInTurn (InPlace (CalledAtMut F.FnMut)) f old kept × (self.new ≡ with_own self.old kept)) }
    {
        if let Some(attributes) = self.attributes_mut() {
            keep_in_place(attributes, f);
        }
    }
}

/// Keeps the attributes at which the closure returns `true`, as it leaves them, at their places.
fn keep_in_place<F: FnMut(&mut Attribute) -> bool>(attributes: &mut Attributes, f: F)
    requires { F.IsAlwaysCallable f }
    ensures { RetainsInTurn (InPlace (CalledAtMut F.FnMut)) f attributes.old attributes.new }
{
    let mut f = f;
    attributes.retain_mut(
        move |node|
            requires { F.IsAlwaysCallable f }
        { call_at(&mut f, node) },
    );
}

/// Calls the closure at an attribute, whose place stays.
fn call_at<F: FnMut(&mut Attribute) -> bool>(f: &mut F, node: &mut AttributeNode) -> bool
    requires { F.IsAlwaysCallable f.old }
    ensures called { InPlace (CalledAtMut F.FnMut) f.old node.old result f.new node.new }
    ensures callable { F.IsAlwaysCallable f.new }
{
    f(node.node_mut())
}
