//! Which conditions an item has, and what becomes of it by them.

ghost use Rattle.std.specs.Prelude.{◌≡◌, if◌then◌else◌};
ghost use Rattle.wgsl_expressions.specs.AttributesView.{attribute_tree, attributes_tree};
ghost use Rattle.wesl_conditions.specs.Chains.{mark, marks};
ghost use Rattle.wesl_conditions.specs.Walks as walks;
ghost use Rattle.wesl_cond_attributes.specs.Kinds as kinds;
ghost use Rattle.wesl_cond_attributes.specs.Kinds.{mark_kind, kind_opens, kind_continues, chain_before, first_value, kind_outlook};

use wesl_conditions::{Chain, Features, condition_value};
use wgsl_expressions::{Attribute, Attributes};

/// Which conditions an item has: none, one, or several, which is an error.
#[derive(Clone, Copy)]
pub enum Kind {
    Plain,
    If,
    Elif,
    Else,
    Several,
}

/// What becomes of an item: it goes, it is true, or its condition is still open.
#[derive(Clone, Copy)]
pub enum Outlook {
    Goes,
    Stays,
    Waits,
}

pub(crate) fn kind_of_attribute(attribute: &Attribute) -> Kind
    ensures { result ≡ mark_kind (mark (attribute_tree attribute.now)) }
{
    match attribute {
        Attribute::If(_) => Kind::If,
        Attribute::Elif(_) => Kind::Elif,
        Attribute::Else => Kind::Else,
        _ => Kind::Plain,
    }
}

fn both_kinds(one: Kind, other: Kind) -> Kind
    ensures { result ≡ kinds.both_kinds one other }
{
    match (one, other) {
        (Kind::Plain, other) => other,
        (one, Kind::Plain) => one,
        _ => Kind::Several,
    }
}

#[tactic(auto, using(crate::proofs::Counting::one_more, crate::proofs::Counting::no_more))]
pub(crate) fn kind_of(attributes: &Attributes) -> Kind
    ensures { result ≡ kinds.kind (marks (attributes_tree attributes.now)) }
{
    let mut kind = Kind::Plain;
    for attribute in attributes.as_slice() {
        kind = both_kinds(kind, kind_of_attribute(attribute.node()));
    }
    kind
}

/// Whether a chain may go on behind such an item.
pub(crate) fn opens(kind: Kind) -> bool
    ensures { result ≡ kind_opens kind }
{
    matches!(kind, Kind::If | Kind::Elif)
}

/// Whether such an item may go on with a chain.
pub(crate) fn continues(kind: Kind) -> bool
    ensures { result ≡ kind_continues kind }
{
    matches!(kind, Kind::Elif | Kind::Else | Kind::Several)
}

/// What is known of a chain before any item.
pub fn start() -> Chain
    ensures { result ≡ walks.start }
{
    Chain {
        is_open: false,
        is_waiting: false,
        is_decided: false,
    }
}

/// The chain that an item belongs to, as far as it is known before the item.
pub(crate) fn chain_at(chain: Chain, kind: Kind) -> Chain
    ensures { result ≡ chain_before chain kind }
{
    if chain.is_open && continues(kind) {
        chain
    } else {
        start()
    }
}

/// The truth value of the first condition that has an expression.
fn value_of(attributes: &Attributes, features: &Features) -> Option<bool>
    ensures { result ≡ first_value features.now (marks (attributes_tree attributes.now)) }
{
    for attribute in attributes.as_slice() {
        match attribute.node() {
            Attribute::If(x) => return condition_value(x.node(), features),
            Attribute::Elif(x) => return condition_value(x.node(), features),
            _ => {}
        }
    }
    None
}

fn outlook_by(kind: Kind, value: Option<bool>) -> Outlook
    ensures { result ≡ kind_outlook kind value }
{
    match (kind, value) {
        (Kind::If | Kind::Elif, None) => Outlook::Waits,
        (Kind::If | Kind::Elif, Some(false)) => Outlook::Goes,
        _ => Outlook::Stays,
    }
}

/// What becomes of an item in a chain. Behind a true one it goes.
pub(crate) fn outlook_in(
    chain: Chain,
    kind: Kind,
    attributes: &Attributes,
    features: &Features,
) -> Outlook
    ensures { result ≡ (if chain.is_decided then Outlook.Goes else kind_outlook kind (first_value features.now (marks (attributes_tree attributes.now)))) }
{
    if chain.is_decided {
        Outlook::Goes
    } else {
        outlook_by(kind, value_of(attributes, features))
    }
}

/// What is known of a chain behind an item.
pub(crate) fn chain_behind(chain: Chain, kind: Kind, outlook: Outlook) -> Chain
    ensures { result ≡ kinds.chain_behind (kind_opens kind) chain outlook }
{
    Chain {
        is_open: opens(kind),
        is_waiting: chain.is_waiting || matches!(outlook, Outlook::Waits),
        is_decided: chain.is_decided || matches!(outlook, Outlook::Stays),
    }
}
