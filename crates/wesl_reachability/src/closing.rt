//! What is reached in the loaded modules.

ghost use Rattle.std.specs.Prelude.{◌≡◌, List, [], Some, length, slice_get, IfOk, OnOk};
ghost use Rattle.wesl_name_resolution.specs.Links.{symbol_of};
ghost use Rattle.wesl_module_index.specs.declared.module.Module.{Module};
ghost use Rattle.wesl_module_index.specs.declared.modules.Modules.{Modules};
ghost use Rattle.wesl_reachability.specs.Cells.{HasRoom, IsSet};
ghost use Rattle.wesl_reachability.specs.Holding.{ReachesAll, Passes};
ghost use Rattle.wesl_reachability.specs.Uses.{uses_in};
ghost use Rattle.wesl_reachability.specs.Closing.{Seeks, goes_on, JoinsOn, EndsAs, Keeps, FollowsOne, Searches, AreFollowed, IsFollowed, AreDone, IsOpen, IsClosed, ClosesExactly, LeadsOnTo, ReachesMore, TakesAsked, SeeksAll, LacksOne};
ghost use Rattle.wesl_reachability.specs.Asking.{waits_for, waiting};
ghost use Rattle.wesl_reachability.specs.Sound.{FollowsSoundly, FollowsAllSoundly, FollowsPlaceSoundly, KeepsSound, ReachesSoundly, PassesSoundly};
ghost use Rattle.wesl_reachability.specs.Taking.{TakesModule, HasTaken, TakesAll};
ghost use Rattle.wesl_chains.specs.Outlines.{Finder};
ghost use Rattle.wesl_module_index.specs.Loaded.{AreTabled};

use crate::asked::{Asked, Pending};
use crate::chains::{Chains, Joined};
use crate::flags::{flags, set};
use crate::holding::{Holding, Reached};
use crate::passing::pass_before;
use std::alloc::{AllocError, Global};
use std::mem;
use wesl_name_resolution::{
    DeclarationId, Denoted, Link, Module, Modules, Start, Step, Via, found_at, start_of,
};

/// What is reached so far in the loaded modules.
#[derive(Drop)]
pub struct Closing {
    alloc: Global,
    holding: Holding,
    /// For each module, by number, which of its references were followed.
    followed: Vec<Vec<bool>>,
    /// How many of the reached places were followed.
    done: usize,
    /// The published imports that chains went through.
    chains: Chains,
    asked: Asked,
    is_missing: bool,
}

impl Closing {
    /// Nothing is reached, in no modules.
    pub fn new(alloc: Global) -> Closing
        ensures { (modules : List Module) → HasTaken modules 0 result }
    {
        Closing {
            alloc,
            holding: Holding::new(alloc),
            followed: Vec::new(alloc),
            done: 0,
            chains: Chains::new(alloc),
            asked: Asked::new(alloc),
            is_missing: false,
        }
    }

    /// Whether some reached reference denotes nothing.
    pub fn is_missing(&self) -> bool
        ensures { result ≡ self.now.is_missing }
    {
        self.is_missing
    }

    /// Which places are reached.
    pub fn reached(&self) -> &Reached
        ensures { result.now ≡ self.now.holding.reached }
    {
        &self.holding.reached
    }

    /// Which places are reached.
    pub fn into_reached(self) -> Reached
        ensures { result ≡ self.holding.reached }
    {
        let Closing {
            alloc: _,
            holding,
            followed: _,
            done: _,
            chains: _,
            asked: _,
            is_missing: _,
        } = self;
        let Holding {
            reached,
            work: _,
            passed: _,
        } = holding;
        reached
    }

    /// What reached references ask for. It is forgotten here.
    pub fn take_asked(&mut self) -> Asked
        ensures { TakesAsked self.old result self.new }
    {
        mem::replace(&mut self.asked, Asked::new(self.alloc))
    }

    /// Takes the modules in that are loaded since, and reaches their directives.
    pub fn take_in(&mut self, modules: &Modules) -> Result<(), AllocError>
        ensures { OnOk result (TakesAll modules.now self.old self.new) }
    {
        for number in self.holding.reached.len()..modules.len() {
            self.take_in_one(modules, number)?;
        }
        Ok(())
    }

    fn take_in_one(&mut self, modules: &Modules, number: usize) -> Result<(), AllocError>
        ensures { OnOk result ((one : Module) → slice_get modules.now.list.items number ≡ Some one → TakesModule number one self.old self.new) }
    {
        match modules.get(number) {
            None => Ok(()),
            Some(module) => self.take_in_module(number, module),
        }
    }

    fn take_in_module(&mut self, number: usize, module: &Module) -> Result<(), AllocError>
        ensures { OnOk result (TakesModule number «module».now self.old self.new) }
    {
        self.holding.take_in(self.alloc, module.places.len())?;
        self.followed
            .push(flags(self.alloc, module.list.reference_count())?)?;
        self.chains.take_in(number, module.items.len())?;
        self.holding
            .reach_directives(number, module.places.as_slice())
    }

    /// Reaches places.
    pub fn reach_all(&mut self, spots: &[DeclarationId]) -> Result<(), AllocError>
        ensures reaches { OnOk result (ReachesAll spots.now self.old.holding self.new.holding) }
        ensures same { ReachesMore self.old self.new }
        ensures open { OnOk result ((modules : Modules) → IsOpen modules self.old → IsOpen modules self.new) }
        ensures sound { OnOk result (ReachesSoundly spots.now self.old self.new) }
    {
        self.holding.reach_all(spots)
    }

    /// A chain passes a module: its assertions are reached.
    pub fn pass(&mut self, modules: &Modules, number: usize) -> Result<(), AllocError>
        ensures passes { OnOk result (Passes modules.now.list.items number self.old.holding self.new.holding) }
        ensures same { ReachesMore self.old self.new }
        ensures open { OnOk result (IsOpen modules.now self.old → IsOpen modules.now self.new) }
        ensures sound { OnOk result (PassesSoundly modules.now number self.old self.new) }
    {
        self.holding.pass(modules, number)
    }

    /// Follows the references of what is reached, and of what they reach.
    pub fn follow_all(&mut self, modules: &Modules) -> Result<(), AllocError>
        ensures searches { OnOk result (Searches modules.now self.old self.new) }
        ensures done { OnOk result (AreDone modules.now self.old self.old.done → AreDone modules.now self.new (length self.new.holding.work.items)) }
        ensures closed { OnOk result (IsOpen modules.now self.old → IsClosed modules.now self.new × IsOpen modules.now self.new) }
        ensures sound { OnOk result (KeepsSound modules.now self.old self.new) }
        ensures exact { OnOk result (ClosesExactly modules.now self.old self.new) }
    {
        for at in self.done..usize::MAX {
            let Some(spot) = self.holding.spot_at(at) else {
                return Ok(());
            };
            self.follow_place(modules, spot)?;
            self.done = at + 1;
        }
        // No list is that long.
        Err(AllocError)
    }

    fn follow_place(&mut self, modules: &Modules, spot: DeclarationId) -> Result<(), AllocError>
        ensures searches { OnOk result (Searches modules.now self.old self.new) }
        ensures followed { OnOk result (IsFollowed modules.now self.new.followed.items spot) }
        ensures sound { OnOk result (FollowsPlaceSoundly modules.now spot self.old self.new) }
        ensures done { self.new.done ≡ self.old.done }
    {
        self.follow_references(modules, spot.module, uses_of(modules, spot))
    }

    fn follow_references(
        &mut self,
        modules: &Modules,
        number: usize,
        references: &[u32],
    ) -> Result<(), AllocError>
        ensures searches { OnOk result (Searches modules.now self.old self.new) }
        ensures followed { OnOk result (AreFollowed self.new.followed.items number references.now) }
        ensures sound { OnOk result (FollowsAllSoundly modules.now number references.now self.old self.new) }
        ensures done { self.new.done ≡ self.old.done }
    {
        for reference in references {
            self.follow(modules, number, *reference)?;
        }
        Ok(())
    }

    fn follow(&mut self, modules: &Modules, number: usize, reference: u32) -> Result<(), AllocError>
        ensures searches { OnOk result (Searches modules.now self.old self.new) }
        ensures followed { OnOk result (HasRoom self.old.followed.items number reference → IsSet self.new.followed.items number reference) }
        ensures sound { OnOk result (FollowsSoundly modules.now number reference self.old self.new) }
        ensures done { self.new.done ≡ self.old.done }
    {
        let is_first = set(&mut self.followed, number, reference as usize);
        if is_first {
            self.follow_first(modules, number, reference)?;
        }
        Ok(())
    }

    fn follow_first(
        &mut self,
        modules: &Modules,
        number: usize,
        reference: u32,
    ) -> Result<(), AllocError>
        ensures follows { OnOk result (FollowsOne modules.now number reference self.old self.new) }
        ensures done { self.new.done ≡ self.old.done }
    {
        match start_of(modules, number, reference) {
            Start::Leads(link) => self.seek(modules, link, None),
            Start::Ends(denoted) => self.end(modules, denoted),
        }
    }

    /// What a reference denotes is known at once.
    fn end(&mut self, modules: &Modules, denoted: Denoted<'_>) -> Result<(), AllocError>
        ensures ends { OnOk result (EndsAs modules.now denoted.entry self.old self.new) }
        ensures keeps { OnOk result (Keeps modules.now self.old self.new) }
        ensures done { self.new.done ≡ self.old.done }
    {
        match denoted {
            Denoted::Declared(spot) => self.holding.arrive(modules, spot),
            Denoted::Missing(..) => {
                self.is_missing = true;
                Ok(())
            }
            Denoted::Private(..) => {
                self.is_missing = true;
                Ok(())
            }
            Denoted::Free => Ok(()),
            Denoted::Unloaded(_) => Ok(()),
        }
    }

    /// Goes along the chain from what a published import names, or a reference. Where it ends at a declaration, that is reached, and all
    /// modules of the chain are passed. Where another chain went before, it goes no further.
    fn seek(
        &mut self,
        modules: &Modules,
        first: Link<'_>,
        before: Option<Via>,
    ) -> Result<(), AllocError>
        ensures seeks { OnOk result (Seeks modules.now (symbol_of first.entry, before) [] self.old self.new) }
        ensures done { self.new.done ≡ self.old.done }
    {
        let mut before = before;
        let mut link = first;
        for _item in 0..=modules.item_count() {
            let further = self.go(modules, link, before)?;
            match further {
                None => return Ok(()),
                Some((via, next)) => {
                    before = Some(via);
                    link = next;
                }
            }
        }
        self.note_missing();
        Ok(())
    }

    /// A name denotes nothing.
    fn note_missing(&mut self)
        ensures lacks { LacksOne self.old self.new }
        ensures followed { self.new.followed ≡ self.old.followed }
        ensures done { self.new.done ≡ self.old.done }
    {
        self.is_missing = true;
    }

    /// Looks for an item that an import or a reference leads to. Where the chain is to be followed on: the import that leads on, and the item
    /// that it leads to.
    fn go<'a>(
        &mut self,
        modules: &'a Modules,
        link: Link<'a>,
        before: Option<Via>,
    ) -> Result<Option<(Via, Link<'a>)>, AllocError>
        ensures seeks { IfOk result (λ r. Seeks modules.now (symbol_of link.entry, before) (goes_on r) self.old self.new) }
        ensures leads { IfOk result (λ r. (find : Finder) → AreTabled modules.now find → LeadsOnTo find (symbol_of link.entry) (goes_on r)) }
        ensures done { self.new.done ≡ self.old.done }
    {
        match found_at(modules, link) {
            Step::Declared(spot) => {
                pass_before(
                    self.alloc,
                    modules,
                    before,
                    &mut self.holding,
                    &mut self.chains,
                )?;
                self.holding.arrive(modules, spot)?;
                Ok(None)
            }
            Step::Unloaded => {
                self.asked.ask(self.alloc, link, before)?;
                Ok(None)
            }
            Step::Missing => {
                self.is_missing = true;
                Ok(None)
            }
            Step::Private => {
                self.is_missing = true;
                Ok(None)
            }
            Step::Leads(via, next) => {
                let goes = self.join(modules, before, via)?;
                if goes {
                    Ok(Some((via, next)))
                } else {
                    Ok(None)
                }
            }
        }
    }

    /// A chain comes to a published import. Whether it is to be followed on.
    fn join(&mut self, modules: &Modules, before: Option<Via>, via: Via) -> Result<bool, AllocError>
        ensures joins { IfOk result (λ b. JoinsOn modules.now before via b self.old self.new) }
        ensures done { self.new.done ≡ self.old.done }
    {
        let joined = self.chains.join(modules, before, via)?;
        match joined {
            Joined::First => Ok(true),
            Joined::Passed => {
                pass_before(
                    self.alloc,
                    modules,
                    before,
                    &mut self.holding,
                    &mut self.chains,
                )?;
                Ok(false)
            }
            Joined::Waiting => Ok(false),
            Joined::Itself => {
                self.is_missing = true;
                Ok(false)
            }
        }
    }

    /// Goes on with what was asked for, once the modules are loaded.
    pub fn seek_asked(&mut self, modules: &Modules, asked: &Asked) -> Result<(), AllocError>
        ensures { OnOk result (SeeksAll modules.now (waiting asked.now) [] self.old self.new) }
    {
        for pending in &asked.pending {
            self.seek_pending(modules, pending)?;
        }
        Ok(())
    }

    fn seek_pending(&mut self, modules: &Modules, pending: &Pending) -> Result<(), AllocError>
        ensures { OnOk result (Seeks modules.now (waits_for pending.now) [] self.old self.new) }
    {
        let link = Link {
            target: &pending.target,
            name: pending.name.as_str(),
        };
        self.seek(modules, link, pending.before)
    }
}

/// The references of a place.
fn uses_of(modules: &Modules, spot: DeclarationId) -> &[u32]
    ensures { result.now ≡ uses_in (slice_get modules.now.list.items spot.«module») spot.place }
{
    match modules.get(spot.module) {
        None => &[],
        Some(module) => references_at(module, spot.place),
    }
}

fn references_at(module: &Module, place: usize) -> &[u32]
    ensures { result.now ≡ uses_in (Some module.now) place }
{
    match module.uses.get(place) {
        None => &[],
        Some(uses) => uses.as_slice(),
    }
}
