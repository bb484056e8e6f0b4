//! What features leave of an item's attributes.

ghost use Rattle.std.specs.Prelude.{◌≡◌, map, if◌then◌else◌};
ghost use Rattle.wgsl_expressions.specs.View.{node_tree};
ghost use Rattle.wgsl_expressions.specs.AttributesTree.{otherwise};
ghost use Rattle.wgsl_expressions.specs.AttributesView.{attribute_tree, attributes_tree};
ghost use Rattle.wesl_conditions.specs.Conditions.{simplified};
ghost use Rattle.wesl_conditions.specs.Chains as chains;
ghost use Rattle.wesl_conditions.specs.Chains.{marks, unmarked, remarked};
ghost use Rattle.wesl_conditions.specs.Walks as walks;
ghost use Rattle.wesl_conditions.specs.Walks.{standing_in, behind, attributes_left};
ghost use Rattle.wesl_cond_attributes.specs.Kinds.{open_as, reopened};

use crate::kind::{Kind, Outlook, chain_at, chain_behind, kind_of, kind_of_attribute, outlook_in};
use std::mem;
use wesl_conditions::{Chain, Features, simplify};
use wgsl_expressions::{Attribute, Attributes, ExpressionNode};

/// Whether an attribute is a condition.
fn is_condition(attribute: &Attribute) -> bool
    ensures { result ≡ chains.is_condition (attribute_tree attribute.now) }
{
    !matches!(kind_of_attribute(attribute), Kind::Plain)
}

/// Leaves the conditions out.
fn leave_out(attributes: &mut Attributes)
    ensures { attributes_tree attributes.new ≡ unmarked (attributes_tree attributes.old) }
{
    attributes.retain(|attribute| !is_condition(attribute.node()));
}

fn set_else(attribute: &mut Attribute)
    ensures { attribute_tree attribute.new ≡ (if chains.is_condition (attribute_tree attribute.old) then otherwise else attribute_tree attribute.old) }
{
    if is_condition(attribute) {
        *attribute = Attribute::Else;
    }
}

/// Puts `@else` in the place of each condition.
fn put_else(attributes: &mut Attributes)
    ensures { attributes_tree attributes.new ≡ remarked otherwise (attributes_tree attributes.old) }
{
    attributes.retain_mut(|attribute| {
        set_else(attribute.node_mut());
        true
    });
}

fn opened(condition: ExpressionNode, waiting: bool, features: &Features) -> Attribute
    ensures { attribute_tree result ≡ open_as waiting (simplified features.now (node_tree condition)) }
{
    let mut condition = condition;
    simplify(condition.node_mut(), features);
    if waiting {
        Attribute::Elif(condition)
    } else {
        Attribute::If(condition)
    }
}

fn reopen_one(attribute: &mut Attribute, waiting: bool, features: &Features)
    ensures { attribute_tree attribute.new ≡ reopened waiting features.now (attribute_tree attribute.old) }
{
    let whole = mem::replace(attribute, Attribute::Else);
    *attribute = match whole {
        Attribute::If(condition) => opened(condition, waiting, features),
        Attribute::Elif(condition) => opened(condition, waiting, features),
        other => other,
    };
}

/// Simplifies each condition that has an expression: it is `@elif` where an item before it waits, else `@if`.
fn reopen(attributes: &mut Attributes, waiting: bool, features: &Features)
    ensures { attributes_tree attributes.new ≡ map (reopened waiting features.now) (attributes_tree attributes.old) }
{
    attributes.retain_mut(move |attribute| {
        reopen_one(attribute.node_mut(), waiting, features);
        true
    });
}

/// What features leave of an item's attributes, by what is known of its chain; and whether the item stays. It needs no memory.
pub fn settle_attributes(
    attributes: &mut Attributes,
    chain: &mut Chain,
    features: &Features,
) -> bool
    ensures kept { result ≡ walks.is_left (standing_in features.now chain.old (marks (attributes_tree attributes.old))) }
    ensures chain { chain.new ≡ behind features.now chain.old (marks (attributes_tree attributes.old)) }
    ensures attributes { attributes_tree attributes.new ≡ attributes_left features.now chain.old (attributes_tree attributes.old) }
{
    let kind = kind_of(attributes);
    let before = chain_at(*chain, kind);
    let outlook = outlook_in(before, kind, attributes, features);
    *chain = chain_behind(before, kind, outlook);
    match outlook {
        Outlook::Goes => false,
        Outlook::Stays => {
            if before.is_waiting {
                put_else(attributes);
            } else {
                leave_out(attributes);
            }
            true
        }
        Outlook::Waits => {
            reopen(attributes, before.is_waiting, features);
            true
        }
    }
}
