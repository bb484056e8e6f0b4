//! The published imports that chains went through.

ghost use Rattle.std.specs.Prelude.{◌≡◌, [], ◌++◌, Some, IfOk, OnOk};
ghost use Rattle.wesl_reachability.specs.declared.chains.State.TheVariants.{Met};
ghost use Rattle.wesl_reachability.specs.Holding.{Answers};
ghost use Rattle.wesl_reachability.specs.Joining.{state_at, before_at, AddsStep, Goes, PutsState, joined_of, Meets, IsOnward, Joins, PassesImport, AreNew, AreEmpty, TakesImports};

use crate::links::{Links, is_same};
use std::alloc::{AllocError, Global};
use wesl_name_resolution::{Modules, Via};

/// How a chain goes on at a published import.
#[derive(Clone, Copy)]
pub(crate) enum Joined {
    /// No chain went through it before.
    First,
    /// A chain went through it, and arrived at a declaration.
    Passed,
    /// A chain went through it, and waits for a module that is not loaded, or is lost.
    Waiting,
    /// The chain itself went through it: it goes round.
    Itself,
}

/// What is known of an import.
#[derive(Clone, Copy)]
pub(crate) enum State {
    New,
    /// Chains went through it.
    Met,
    /// Chains went through it and arrived at a declaration, so that its module is passed.
    Passed,
}

/// The items of all imports, module by module, and the steps between them that chains took.
#[derive(Drop)]
pub(crate) struct Chains {
    alloc: Global,
    states: Vec<Vec<State>>,
    /// The imports from which chains went on to an import.
    before: Vec<Vec<Vec<Via>>>,
    links: Links,
}

impl Chains {
    pub fn new(alloc: Global) -> Chains
        ensures states { result.states.items ≡ [] }
        ensures before { result.before.items ≡ [] }
        ensures links { result.links.onward.items ≡ [] }
    {
        Chains {
            alloc,
            states: Vec::new(alloc),
            before: Vec::new(alloc),
            links: Links::new(alloc),
        }
    }

    /// Takes in the items of the next module.
    pub fn take_in(&mut self, module: usize, items: usize) -> Result<(), AllocError>
        ensures { OnOk result (TakesImports «module» items self.old self.new) }
    {
        let states = new_states(self.alloc, items)?;
        self.states.push(states)?;
        let before = no_steps(self.alloc, items)?;
        self.before.push(before)?;
        self.links.take_in(self.alloc, module, items)
    }

    fn state(&self, via: Via) -> Option<State>
        ensures { result ≡ state_at self.now via }
    {
        match self.states.get(via.module) {
            None => None,
            Some(row) => row.get(via.item).copied(),
        }
    }

    fn set_state(&mut self, via: Via, state: State)
        ensures { PutsState via state self.old self.new }
    {
        if let Some(row) = self.states.get_mut(via.module)
            && let Some(known) = row.get_mut(via.item)
        {
            *known = state;
        }
    }

    /// Notes that a chain went from one import to another.
    fn add_step(&mut self, from: Via, to: Via) -> Result<(), AllocError>
        ensures steps { OnOk result (AddsStep from to self.old.before.items self.new.before.items) }
        ensures states { self.new.states ≡ self.old.states }
        ensures links { self.new.links ≡ self.old.links }
    {
        if let Some(row) = self.before.get_mut(to.module)
            && let Some(before) = row.get_mut(to.item)
        {
            before.push(from)?;
        }
        Ok(())
    }

    /// Whether a chain goes round that goes on from an import to another.
    fn goes_round(&mut self, modules: &Modules, from: Via, to: Via) -> Result<bool, AllocError>
        ensures { IfOk result (λ b. Goes modules.now from to self.old b self.new) }
    {
        match self.links.last(modules, to) {
            None => Ok(true),
            Some(last) => {
                if is_same(last, from) {
                    return Ok(true);
                }
                self.links.lead(from, last);
                self.add_step(from, to)?;
                Ok(false)
            }
        }
    }

    /// A chain goes from one import, or from a reference, on to another import.
    pub fn join(
        &mut self,
        modules: &Modules,
        before: Option<Via>,
        via: Via,
    ) -> Result<Joined, AllocError>
        ensures { IfOk result (λ r. Joins modules.now before via self.old r self.new) }
    {
        let state = self.meet(via);
        match before {
            None => Ok(how_joined(state)),
            Some(from) => self.go_on(modules, from, via, state),
        }
    }

    /// A chain goes from one import on to another, of which this was known before.
    fn go_on(
        &mut self,
        modules: &Modules,
        from: Via,
        via: Via,
        state: Option<State>,
    ) -> Result<Joined, AllocError>
        ensures { IfOk result (λ r. IsOnward modules.now (Some from) via self.old state r self.new) }
    {
        let is_round = self.goes_round(modules, from, via)?;
        if is_round {
            return Ok(Joined::Itself);
        }
        Ok(how_joined(state))
    }

    /// A chain comes to an import. What was known of it before.
    fn meet(&mut self, via: Via) -> Option<State>
        ensures state { result ≡ state_at self.old via }
        ensures meets { Meets via self.old result self.new }
    {
        let state = self.state(via);
        self.meet_as(via, state);
        state
    }

    fn meet_as(&mut self, via: Via, state: Option<State>)
        ensures { Meets via self.old state self.new }
    {
        match state {
            Some(State::New) => self.set_state(via, State::Met),
            Some(State::Met) | Some(State::Passed) | None => {}
        }
    }

    /// Whether chains arrive at an import for the first time. Then the imports that lead to it are added to those that chains arrive at.
    pub fn pass(&mut self, via: Via, arrived: &mut Vec<Via>) -> Result<bool, AllocError>
        ensures { IfOk result (λ b. PassesImport via self.old arrived.old.items b self.new arrived.new.items) }
    {
        if self.is_met(via) {
            self.set_state(via, State::Passed);
            add_all(arrived, self.steps_to(via))?;
            return Ok(true);
        }
        Ok(false)
    }

    fn is_met(&self, via: Via) -> bool
        ensures { Answers result (state_at self.now via ≡ Some Met) }
    {
        match self.state(via) {
            Some(State::Met) => true,
            Some(State::New) | Some(State::Passed) | None => false,
        }
    }

    fn steps_to(&self, via: Via) -> &[Via]
        ensures { result.now ≡ before_at self.now via }
    {
        match self.before.get(via.module) {
            None => &[],
            Some(row) => match row.get(via.item) {
                None => &[],
                Some(before) => before.as_slice(),
            },
        }
    }
}

/// How a chain goes on at an import of which this was known.
fn how_joined(state: Option<State>) -> Joined
    ensures { result ≡ joined_of state }
{
    match state {
        Some(State::New) => Joined::First,
        Some(State::Passed) => Joined::Passed,
        Some(State::Met) | None => Joined::Waiting,
    }
}

fn new_states(alloc: Global, count: usize) -> Result<Vec<State>, AllocError>
    ensures { IfOk result (λ row. AreNew count row.items) }
{
    let mut row = Vec::new(alloc);
    for _item in 0..count {
        row.push(State::New)?;
    }
    Ok(row)
}

fn no_steps(alloc: Global, count: usize) -> Result<Vec<Vec<Via>>, AllocError>
    ensures { IfOk result (λ row. AreEmpty count row.items) }
{
    let mut row = Vec::new(alloc);
    for _item in 0..count {
        let none = Vec::new(alloc);
        row.push(none)?;
    }
    Ok(row)
}

fn add_all(list: &mut Vec<Via>, more: &[Via]) -> Result<(), AllocError>
    ensures { OnOk result (list.new.items ≡ list.old.items ++ more.now) }
{
    list.extend_from_slice(more)
}
