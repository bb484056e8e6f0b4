//! The first error of the conditions of a list, item by item.

ghost use Rattle.std.specs.Prelude.{◌≡◌, true, None, Option, IfOk, OnOk, OnErr};
ghost use Rattle.std.specs.Option.{option_or};
ghost use Rattle.wgsl_expressions.specs.AttributesView.{attributes_tree};
ghost use Rattle.wesl_conditions.specs.declared.features.error.CondCompError.TheVariants.{OutOfMemory};
ghost use Rattle.wesl_conditions.specs.Chains.{marks};
ghost use Rattle.wesl_conditions.specs.Seen.{item_fault};
ghost use Rattle.wesl_conditions.specs.Walks as walks;
ghost use Rattle.wesl_conditions.specs.Told.{TellsFault};
ghost use Rattle.wesl_cond_attributes.specs.Kinds as kinds;
ghost use Rattle.wesl_cond_attributes.specs.Kinds.{first_condition_fault, kind_fault};
ghost use Rattle.wesl_cond_attributes.specs.Entering.{Enters};

use crate::kind::{Kind, Outlook, chain_at, chain_behind, continues, kind_of, outlook_in, start};
use std::alloc::Global;
use wesl_conditions::{Chain, CondCompError, Features, check_condition};
use wgsl_expressions::{Attribute, Attributes};

/// A walk over a list that looks for its first error.
#[derive(Drop)]
pub struct Check {
    /// What is known of the chain before the next item.
    pub chain: Chain,
    /// The first error inside the items of the chain that stay. It counts behind the errors of the chain's own conditions.
    pub inside: Option<CondCompError>,
}

/// The error of the first condition that has an expression.
fn check_expression(
    alloc: Global,
    attributes: &Attributes,
    features: &Features,
) -> Result<(), CondCompError>
    ensures { TellsFault (first_condition_fault features.now (marks (attributes_tree attributes.now))) result }
{
    for attribute in attributes.as_slice() {
        match attribute.node() {
            Attribute::If(x) => return check_condition(alloc, x.node(), features),
            Attribute::Elif(x) => return check_condition(alloc, x.node(), features),
            _ => {}
        }
    }
    Ok(())
}

/// The error of an item's conditions, where it is the first of its chain or a later one.
fn check_conditions(
    alloc: Global,
    attributes: &Attributes,
    kind: Kind,
    first: bool,
    features: &Features,
) -> Result<(), CondCompError>
    ensures { TellsFault (kind_fault kind first (first_condition_fault features.now (marks (attributes_tree attributes.now)))) result }
{
    match kind {
        Kind::Plain => Ok(()),
        Kind::Several => Err(CondCompError::DuplicateIf),
        Kind::If => check_expression(alloc, attributes, features),
        Kind::Elif => {
            if first {
                Err(CondCompError::NoPrecedingIf)
            } else {
                check_expression(alloc, attributes, features)
            }
        }
        Kind::Else => {
            if first {
                Err(CondCompError::NoPrecedingIf)
            } else {
                Ok(())
            }
        }
    }
}

impl Check {
    /// Before the first item.
    pub fn new() -> Check
        ensures chain { result.chain ≡ walks.start }
        ensures inside { result.inside ≡ None }
    {
        Check {
            chain: start(),
            inside: None,
        }
    }

    /// Passes an item: `true` where an error inside it counts, and none was found before in its chain.
    pub fn enter(
        &mut self,
        alloc: Global,
        attributes: &Attributes,
        features: &Features,
    ) -> Result<bool, CondCompError>
        ensures entered { Enters features.now self.old (marks (attributes_tree attributes.now)) result self.new }
        ensures nothing_found { IfOk result (λ counts. counts ≡ true → self.new.inside ≡ None) }
    {
        let kind = kind_of(attributes);
        let more = self.chain.is_open && continues(kind);
        if !more {
            if let Some(error) = self.inside.take() {
                return Err(error);
            }
        }
        check_conditions(alloc, attributes, kind, !more, features)?;
        let before = chain_at(self.chain, kind);
        let outlook = outlook_in(before, kind, attributes, features);
        self.chain = chain_behind(before, kind, outlook);
        Ok(self.inside.is_none() && !matches!(outlook, Outlook::Goes))
    }

    /// Takes note of what was found inside an item where an error there counts.
    pub fn found(&mut self, checked: Result<(), CondCompError>) -> Result<(), CondCompError>
        ensures found { OnOk result ((self.new.chain ≡ self.old.chain) × ((fault : Option CondCompError) → TellsFault fault checked → self.new.inside ≡ option_or self.old.inside fault)) }
        ensures refused { OnErr result (result ≡ Err OutOfMemory) }
    {
        match checked {
            Ok(()) => Ok(()),
            Err(CondCompError::OutOfMemory) => Err(CondCompError::OutOfMemory),
            Err(error) => {
                if self.inside.is_none() {
                    self.inside = Some(error);
                }
                Ok(())
            }
        }
    }

    /// Behind the last item.
    pub fn end(self) -> Result<(), CondCompError>
        ensures { TellsFault self.inside result }
    {
        match self.inside {
            None => Ok(()),
            Some(error) => Err(error),
        }
    }
}
