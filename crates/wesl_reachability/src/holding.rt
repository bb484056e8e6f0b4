//! What is reached, and which modules chains pass.

ghost use Rattle.std.specs.Prelude.{◌≡◌, [], length, slice_get, OnOk};
ghost use Rattle.wesl_mark.specs.declared.place.Kind.TheVariants.{Directive, Assertion};
ghost use Rattle.wesl_reachability.specs.Holding.{Reaches, ReachesAll, ReachesKind, ReachesIf, StandsAt, Answers, TakesIn, Passes, Arrives};

use crate::flags::{flags, set, set_one};
use std::alloc::{AllocError, Global};
use wesl_mark::{Kind, Place};
use wesl_name_resolution::{DeclarationId, Modules};

/// For each module, by number, which of its places are reached.
pub type Reached = Vec<Vec<bool>>;

/// What is reached so far, and which modules were passed.
#[derive(Drop)]
pub(crate) struct Holding {
    pub reached: Reached,
    /// The reached places, in the order in which they were.
    pub work: Vec<DeclarationId>,
    /// For each module, by number, whether a chain passed it.
    pub passed: Vec<bool>,
}

impl Holding {
    pub fn new(alloc: Global) -> Holding
        ensures reached { result.reached.items ≡ [] }
        ensures work { result.work.items ≡ [] }
        ensures passed { result.passed.items ≡ [] }
    {
        Holding {
            reached: Vec::new(alloc),
            work: Vec::new(alloc),
            passed: Vec::new(alloc),
        }
    }

    /// Takes in the places of the next module, none of which is reached.
    pub fn take_in(&mut self, alloc: Global, places: usize) -> Result<(), AllocError>
        ensures { OnOk result (TakesIn places self.old self.new) }
    {
        self.reached.push(flags(alloc, places)?)?;
        self.passed.push(false)?;
        Ok(())
    }

    /// The place that was reached as this one.
    pub fn spot_at(&self, at: usize) -> Option<DeclarationId>
        ensures { result ≡ slice_get self.now.work.items at }
    {
        self.work.get(at).copied()
    }

    /// Reaches a place.
    pub fn reach(&mut self, spot: DeclarationId) -> Result<(), AllocError>
        ensures { OnOk result (Reaches spot self.old self.new) }
    {
        if set(&mut self.reached, spot.module, spot.place) {
            self.work.push(spot)?;
        }
        Ok(())
    }

    /// Reaches places.
    pub fn reach_all(&mut self, spots: &[DeclarationId]) -> Result<(), AllocError>
        ensures { OnOk result (ReachesAll spots.now self.old self.new) }
    {
        for spot in spots {
            self.reach(*spot)?;
        }
        Ok(())
    }

    /// Reaches a place, if it is to be.
    fn reach_if(&mut self, spot: DeclarationId, is_one: bool) -> Result<(), AllocError>
        ensures { OnOk result (ReachesIf spot is_one self.old self.new) }
    {
        if is_one {
            self.reach(spot)?;
        }
        Ok(())
    }

    /// Reaches the directives of a module.
    pub fn reach_directives(&mut self, module: usize, places: &[Place]) -> Result<(), AllocError>
        ensures { OnOk result (ReachesKind «module» places.now Directive (length places.now) self.old self.new) }
    {
        for place in 0..places.len() {
            let is_one = is_directive(places, place);
            self.reach_if(DeclarationId { module, place }, is_one)?;
        }
        Ok(())
    }

    fn reach_assertions(&mut self, module: usize, places: &[Place]) -> Result<(), AllocError>
        ensures { OnOk result (ReachesKind «module» places.now Assertion (length places.now) self.old self.new) }
    {
        for place in 0..places.len() {
            let is_one = is_assertion(places, place);
            self.reach_if(DeclarationId { module, place }, is_one)?;
        }
        Ok(())
    }

    /// A chain passes a module: its assertions are reached.
    pub fn pass(&mut self, modules: &Modules, number: usize) -> Result<(), AllocError>
        ensures { OnOk result (Passes modules.now.list.items number self.old self.new) }
    {
        if set_one(&mut self.passed, number)
            && let Some(module) = modules.get(number)
        {
            self.reach_assertions(number, module.places.as_slice())?;
        }
        Ok(())
    }

    /// A chain ends at a declaration: it is reached, and its module is passed.
    pub fn arrive(&mut self, modules: &Modules, spot: DeclarationId) -> Result<(), AllocError>
        ensures { OnOk result (Arrives modules.now.list.items spot self.old self.new) }
    {
        self.pass(modules, spot.module)?;
        self.reach(spot)
    }
}

/// Whether a directive stands at a place of these.
fn is_directive(places: &[Place], at: usize) -> bool
    ensures { Answers result (StandsAt places.now at Directive) }
{
    match places.get(at) {
        None => false,
        Some(place) => matches!(place.kind, Kind::Directive),
    }
}

/// Whether an assertion stands at a place of these.
fn is_assertion(places: &[Place], at: usize) -> bool
    ensures { Answers result (StandsAt places.now at Assertion) }
{
    match places.get(at) {
        None => false,
        Some(place) => matches!(place.kind, Kind::Assertion),
    }
}
