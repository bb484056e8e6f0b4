//! Loading of modules.

ghost use Rattle.std.specs.Prelude.{◌≡◌};
ghost use Rattle.wesl_resolvers.specs.Found.{SameAnswers, SameTexts};
ghost use Rattle.wesl_load.specs.Asked.{StayAsked};

use crate::held_unit::HeldUnit;
use std::alloc::Global;
use wesl_mark::MarkList;
use wesl_marks::mark_unit;
use wesl_reachability::{Asked, ImportError, Module, Modules, Target};
use wesl_resolvers::Resolver;
use wgsl_base::{CloneIn, Text};
use wgsl_declarations::TranslationUnit;
use wgsl_path::ModulePath;

/// A module's tree that is at hand, and the printed path of the module.
#[derive(Drop)]
pub(crate) struct Given {
    pub printed_path: Text,
    pub unit: HeldUnit,
}

/// A tree that is at hand, held.
pub(crate) fn given_of(other: Option<(Text, TranslationUnit)>) -> Option<Given> {
    match other {
        None => None,
        Some((printed_path, unit)) => Some(Given {
            printed_path,
            unit: HeldUnit::new(unit),
        }),
    }
}

/// The modules that are loaded, and their trees.
#[derive(Drop)]
pub(crate) struct Loaded {
    pub alloc: Global,
    pub modules: Modules,
    pub units: Vec<HeldUnit>,
    /// A tree that is taken where its module is loaded, in place of what the resolver has.
    pub given: Option<Given>,
}

impl Loaded {
    pub fn new(alloc: Global, given: Option<Given>) -> Loaded {
        Loaded {
            alloc,
            modules: Modules::new(alloc),
            units: Vec::new(alloc),
            given,
        }
    }

    /// Adds the module at a path. It is refused where a name is declared or imported twice.
    pub fn add(&mut self, path: &ModulePath, unit: HeldUnit) -> Result<(), ImportError> {
        let module = tabulated(self.alloc, path, unit.get())?;
        self.modules.push(self.alloc, module)?;
        self.units.push(unit)?;
        Ok(())
    }

    /// Loads the modules that are asked for, in byte order of their printed paths.
    pub fn load_all<R: Resolver>(
        &mut self,
        resolver: &mut R,
        asked: &Asked,
        max_modules: u32,
    ) -> Result<(), ImportError>
        ensures same_answers { SameAnswers (R.answers resolver.old) (R.answers resolver.new) }
        ensures same_texts { SameTexts (R.texts resolver.old) (R.texts resolver.new) }
        ensures same_names { R.display_names resolver.new ≡ R.display_names resolver.old }
        ensures same_reference { R.holds resolver.new ≡ R.holds resolver.old }
        ensures asked { StayAsked (R.asked resolver.old) (R.asked resolver.new) }
    {
        for found in asked.modules.values() {
            self.load(resolver, found, max_modules)?;
        }
        Ok(())
    }

    fn load<R: Resolver>(
        &mut self,
        resolver: &mut R,
        target: &Target,
        max_modules: u32,
    ) -> Result<(), ImportError>
        ensures same_answers { SameAnswers (R.answers resolver.old) (R.answers resolver.new) }
        ensures same_texts { SameTexts (R.texts resolver.old) (R.texts resolver.new) }
        ensures same_names { R.display_names resolver.new ≡ R.display_names resolver.old }
        ensures same_reference { R.holds resolver.new ≡ R.holds resolver.old }
        ensures asked { StayAsked (R.asked resolver.old) (R.asked resolver.new) }
    {
        if self.modules.len() >= max_modules as usize {
            return Err(ImportError::TooManyModules(target.path.clone_in(self.alloc)?));
        }
        if let Some(unit) = self.take_given(target.printed_path.as_str()) {
            return self.add(&target.path, unit);
        }
        let unit = resolved(self.alloc, resolver, &target.path)?;
        self.add(&target.path, unit)
    }

    /// The tree that is at hand, if it is that of the module at this printed path.
    fn take_given(&mut self, printed_path: &str) -> Option<HeldUnit> {
        if self.is_given(printed_path) {
            let Given {
                printed_path: _,
                unit,
            } = self.given.take()?;
            return Some(unit);
        }
        None
    }

    fn is_given(&self, printed_path: &str) -> bool {
        match &self.given {
            None => false,
            Some(given) => given.printed_path.as_str() == printed_path,
        }
    }
}

/// The tables of the module at a path. It is refused where a name is declared or imported twice.
pub(crate) fn tabulated(
    alloc: Global,
    path: &ModulePath,
    unit: &TranslationUnit,
) -> Result<Module, ImportError> {
    let mut list = MarkList::new(alloc);
    let places = mark_unit(alloc, &mut list, unit)?;
    Module::new(alloc, path, unit.imports.as_slice(), list, places)
}

fn resolved<R: Resolver>(
    alloc: Global,
    resolver: &mut R,
    path: &ModulePath,
) -> Result<HeldUnit, ImportError>
    ensures same_answers { SameAnswers (R.answers resolver.old) (R.answers resolver.new) }
    ensures same_texts { SameTexts (R.texts resolver.old) (R.texts resolver.new) }
    ensures same_names { R.display_names resolver.new ≡ R.display_names resolver.old }
    ensures same_reference { R.holds resolver.new ≡ R.holds resolver.old }
    ensures asked { StayAsked (R.asked resolver.old) (R.asked resolver.new) }
{
    match resolver.resolve_module(alloc, path) {
        Ok(unit) => Ok(HeldUnit::new(unit)),
        Err(error) => Err(ImportError::from(error)),
    }
}
