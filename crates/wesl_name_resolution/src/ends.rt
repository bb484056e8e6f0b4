//! What chains of published imports end at.

ghost use Rattle.std.specs.Prelude.{◌≡◌, ◌≢◌, [], ◌⊎◌, Some, IfOk, OnOk, IfErr, get_or, length};
ghost use Rattle.std.specs.List.{Contains};
ghost use Rattle.wesl_module_index.specs.Loaded.{AreTabled};
ghost use Rattle.wesl_chains.specs.Outlines.{Symbol, Finder};
ghost use Rattle.wesl_name_resolution.specs.Links.{symbol_of, symbol_via};
ghost use Rattle.wesl_name_resolution.specs.Ends.{AreEnds, AreRight, NoneSought, Keeps, SetsOne, SetsAll, Walks, IsBehind, IsKnown, IsWithin, is_looked_at, said_by, end_at, counts_of, item_counts};
ghost use Rattle.wesl_name_resolution.specs.declared.denote.Via.{Via};
ghost use Rattle.wesl_name_resolution.specs.declared.ends.End.TheVariants as end;

use crate::denote::{Link, Step, Via, found_at, link_via};
use std::alloc::{AllocError, Global};
use wesl_module_index::{DeclarationId, Modules};

/// What the chain ends at that a published item begins.
#[derive(Clone, Copy)]
pub(crate) enum End {
    /// Nobody has looked yet.
    Unknown,
    /// Somebody is looking.
    ReferenceTarget,
    Declared(DeclarationId),
    /// It stops behind this item, since what that one names is missing, private or not loaded.
    Stops(Via),
    /// It goes round.
    Never,
}

/// What the chains of published imports end at, for modules as they were loaded once.
#[derive(Drop)]
pub struct Ends {
    /// For each module, by number, what is known of its items.
    ends: Vec<Vec<End>>,
}

impl Ends {
    /// The ends of all chains in the loaded modules. Each item is looked at once.
    pub fn new(alloc: Global, modules: &Modules) -> Result<Ends, AllocError>
        ensures { IfOk result (λ ends. AreEnds modules.now ends) }
    {
        let mut ends = Ends {
            ends: unknown(alloc, modules)?,
        };
        for module in 0..modules.len() {
            for item in 0..ends.count(module) {
                ends.find(alloc, modules, Via { module, item })?;
            }
        }
        Ok(ends)
    }

    fn count(&self, module: usize) -> usize
        ensures { result ≡ get_or (counts_of self.now.ends.items) «module» 0 }
    {
        match self.ends.get(module) {
            None => 0,
            Some(items) => items.len(),
        }
    }

    pub(crate) fn get(&self, via: Via) -> End
        ensures { result ≡ end_at self.now.ends.items via }
    {
        match self.ends.get(via.module) {
            None => End::Unknown,
            Some(items) => match items.get(via.item) {
                None => End::Unknown,
                Some(end) => *end,
            },
        }
    }

    fn set(&mut self, via: Via, end: End)
        ensures { SetsOne self.old.ends.items via end self.new.ends.items }
    {
        if let Some(items) = self.ends.get_mut(via.module)
            && let Some(known) = items.get_mut(via.item)
        {
            *known = end;
        }
    }

    /// Finds the end of the chain that a published item begins, and with it that of all items on the way.
    fn find(&mut self, alloc: Global, modules: &Modules, first: Via) -> Result<(), AllocError>
        requires right { AreRight modules.now self.old.ends.items }
        requires none_sought { NoneSought self.old.ends.items }
        ensures right { OnOk result (AreRight modules.now self.new.ends.items) }
        ensures none_sought { OnOk result (NoneSought self.new.ends.items) }
        ensures counts { OnOk result (counts_of self.new.ends.items ≡ counts_of self.old.ends.items) }
        ensures keeps { OnOk result (Keeps self.old.ends.items self.new.ends.items) }
        ensures first { OnOk result ((s : Symbol) → symbol_via modules.now first ≡ Some s → IsWithin self.old.ends.items first → end_at self.new.ends.items first ≢ end.Unknown) }
    {
        let mut met = Vec::new(alloc);
        let end = self.walk(modules, first, &mut met)?;
        for via in met.as_slice() {
            self.set(*via, end);
        }
        Ok(())
    }

    /// Goes along a chain and notes which items it met; what it ends at.
    fn walk(&mut self, modules: &Modules, first: Via, met: &mut Vec<Via>) -> Result<End, AllocError>
        requires right { AreRight modules.now self.old.ends.items }
        requires none_sought { NoneSought self.old.ends.items }
        requires none_met { met.old.items ≡ [] }
        ensures { IfOk result (λ end. Walks modules.now self.old.ends.items first met.new.items self.new.ends.items end) }
    {
        let mut via = first;
        for _item in 0..=modules.item_count() {
            let known = self.get(via);
            if is_known(known) {
                return Ok(told(known));
            }
            let Some(link) = link_via(modules, via) else {
                return Ok(End::Unknown);
            };
            self.set(via, End::ReferenceTarget);
            met.push(via)?;
            match behind(modules, via, link) {
                Err(end) => return Ok(end),
                Ok(next) => via = next,
            }
        }
        Ok(End::Never)
    }
}

/// Whether somebody has looked.
fn is_known(end: End) -> bool
    ensures { result ≡ is_looked_at end }
{
    match end {
        End::Unknown => false,
        _ => true,
    }
}

/// What a known end says of a chain that comes there: one that is still sought goes round.
fn told(end: End) -> End
    ensures { result ≡ said_by end }
{
    match end {
        End::ReferenceTarget => End::Never,
        end => end,
    }
}

/// The next item of a chain; else what the chain ends at.
fn behind(modules: &Modules, via: Via, link: Link<'_>) -> Result<Via, End>
    ensures known { IfErr result IsKnown }
    ensures leads { IfOk result (λ next. (t : Symbol) × (symbol_via modules.now next ≡ Some t)) }
    ensures behind { (find : Finder) → AreTabled modules.now find → symbol_via modules.now via ≡ Some (symbol_of link.entry) → IsBehind modules.now find (symbol_of link.entry) result }
{
    match found_at(modules, link) {
        Step::Leads(next, _) => Ok(next),
        Step::Declared(spot) => Err(End::Declared(spot)),
        Step::Missing | Step::Private | Step::Unloaded => Err(End::Stops(via)),
    }
}

fn unknown(alloc: Global, modules: &Modules) -> Result<Vec<Vec<End>>, AllocError>
    ensures counts { IfOk result (λ rows. counts_of rows.items ≡ item_counts modules.now.list.items) }
    ensures unknown { IfOk result (λ rows. (via : Via) → end_at rows.items via ≡ end.Unknown) }
{
    let mut all = Vec::new(alloc);
    for number in 0..modules.len() {
        let count = match modules.get(number) {
            None => 0,
            Some(module) => module.items.len(),
        };
        let mut ends = Vec::new(alloc);
        for _item in 0..count {
            ends.push(End::Unknown)?;
        }
        all.push(ends)?;
    }
    Ok(all)
}
