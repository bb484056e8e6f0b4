//! The rounds of loading.

ghost use Rattle.std.specs.Prelude.{◌≡◌};
ghost use Rattle.wesl_resolvers.specs.Found.{SameAnswers, SameTexts};
ghost use Rattle.wesl_load.specs.Asked.{StayAsked};

use crate::held_unit::HeldUnit;
use crate::loading::{Given, Loaded, given_of, tabulated};
use crate::resolutions::Resolutions;
use std::alloc::{AllocError, Global};
use wesl_reachability::{
    Asked, Closing, Ends, ImportError, Module, all_places, first_missing, kept_missing, kept_places,
};
use wesl_resolvers::Resolver;
use wgsl_base::{CloneIn, Text};
use wgsl_declarations::TranslationUnit;
use wgsl_path::ModulePath;

/// Loads the modules that the kept names of the root lead to, and holds what they lead to. Where no name is kept, the root's entry points
/// are.
///
/// The rounds: each takes the newly asked modules in byte order of their printed paths. Then the reached declarations are closed over the
/// loaded modules, and the first occurrence in them that denotes nothing is refused, by printed path, then place, then the order of the
/// text. What is still asked for is the next round.
pub fn resolve_lazy<R: Resolver>(
    alloc: Global,
    keep: &[Text],
    unit: TranslationUnit,
    path: &ModulePath,
    resolver: &mut R,
    max_modules: u32,
) -> Result<Resolutions, ImportError>
    ensures same_answers { SameAnswers (R.answers resolver.old) (R.answers resolver.new) }
    ensures same_texts { SameTexts (R.texts resolver.old) (R.texts resolver.new) }
    ensures same_names { R.display_names resolver.new ≡ R.display_names resolver.old }
    ensures same_reference { R.holds resolver.new ≡ R.holds resolver.old }
    ensures asked { StayAsked (R.asked resolver.old) (R.asked resolver.new) }
{
    resolve_lazy_with(alloc, keep, unit, path, None, resolver, max_modules)
}

/// As `resolve_lazy`. Where the module at this other printed path is loaded, its unit is the one that is given, and the resolver is not
/// asked for it.
pub fn resolve_lazy_with<R: Resolver>(
    alloc: Global,
    keep: &[Text],
    unit: TranslationUnit,
    path: &ModulePath,
    other: Option<(Text, TranslationUnit)>,
    resolver: &mut R,
    max_modules: u32,
) -> Result<Resolutions, ImportError>
    ensures same_answers { SameAnswers (R.answers resolver.old) (R.answers resolver.new) }
    ensures same_texts { SameTexts (R.texts resolver.old) (R.texts resolver.new) }
    ensures same_names { R.display_names resolver.new ≡ R.display_names resolver.old }
    ensures same_reference { R.holds resolver.new ≡ R.holds resolver.old }
    ensures asked { StayAsked (R.asked resolver.old) (R.asked resolver.new) }
{
    let unit = HeldUnit::new(unit);
    let given = given_of(other);
    let mut loading = rooted(alloc, unit, path, given, max_modules, false)?;
    loading.keep(keep)?;
    loading.run(resolver, max_modules)
}

/// Loads the modules that all declarations of loaded modules lead to, and holds all of them.
pub fn resolve_eager<R: Resolver>(
    alloc: Global,
    unit: TranslationUnit,
    path: &ModulePath,
    resolver: &mut R,
    max_modules: u32,
) -> Result<Resolutions, ImportError>
    ensures same_answers { SameAnswers (R.answers resolver.old) (R.answers resolver.new) }
    ensures same_texts { SameTexts (R.texts resolver.old) (R.texts resolver.new) }
    ensures same_names { R.display_names resolver.new ≡ R.display_names resolver.old }
    ensures same_reference { R.holds resolver.new ≡ R.holds resolver.old }
    ensures asked { StayAsked (R.asked resolver.old) (R.asked resolver.new) }
{
    resolve_eager_with(alloc, unit, path, None, resolver, max_modules)
}

/// As `resolve_eager`. Where the module at this other printed path is loaded, its unit is the one that is given, and the resolver is not
/// asked for it.
pub fn resolve_eager_with<R: Resolver>(
    alloc: Global,
    unit: TranslationUnit,
    path: &ModulePath,
    other: Option<(Text, TranslationUnit)>,
    resolver: &mut R,
    max_modules: u32,
) -> Result<Resolutions, ImportError>
    ensures same_answers { SameAnswers (R.answers resolver.old) (R.answers resolver.new) }
    ensures same_texts { SameTexts (R.texts resolver.old) (R.texts resolver.new) }
    ensures same_names { R.display_names resolver.new ≡ R.display_names resolver.old }
    ensures same_reference { R.holds resolver.new ≡ R.holds resolver.old }
    ensures asked { StayAsked (R.asked resolver.old) (R.asked resolver.new) }
{
    let unit = HeldUnit::new(unit);
    let given = given_of(other);
    let loading = rooted(alloc, unit, path, given, max_modules, true)?;
    loading.run(resolver, max_modules)
}

/// Tests of a root what `resolve_eager` tests of it, and then that it declares the kept names, which `resolve_eager` doesn't test.
pub fn test_root(
    alloc: Global,
    keep: &[Text],
    unit: &TranslationUnit,
    path: &ModulePath,
) -> Result<(), ImportError> {
    let module = tabulated(alloc, path, unit)?;
    test_kept(alloc, keep, &module)
}

fn test_kept(alloc: Global, keep: &[Text], root: &Module) -> Result<(), ImportError> {
    match kept_missing(root, keep) {
        None => Ok(()),
        Some(name) => {
            let name = name.clone_in(alloc)?;
            let path = root.target.path.clone_in(alloc)?;
            Err(ImportError::MissingDecl(path, name))
        }
    }
}

/// The modules that are loaded, and what is reached in them.
#[derive(Drop)]
struct Loading {
    loaded: Loaded,
    closing: Closing,
    /// Whether all declarations of loaded modules count as reached.
    is_eager: bool,
}

/// The root alone, with its directives and assertions.
fn rooted(
    alloc: Global,
    unit: HeldUnit,
    path: &ModulePath,
    given: Option<Given>,
    max_modules: u32,
    is_eager: bool,
) -> Result<Loading, ImportError> {
    if max_modules == 0 {
        return Err(ImportError::TooManyModules(path.clone_in(alloc)?));
    }
    let mut loading = Loading {
        loaded: Loaded::new(alloc, given),
        closing: Closing::new(alloc),
        is_eager,
    };
    loading.loaded.add(path, unit)?;
    loading.take_in(0)?;
    loading.closing.pass(&loading.loaded.modules, 0)?;
    Ok(loading)
}

impl Loading {
    /// Takes in the modules from this number on.
    fn take_in(&mut self, first: usize) -> Result<(), AllocError> {
        self.closing.take_in(&self.loaded.modules)?;
        if self.is_eager {
            let spots = all_places(self.loaded.alloc, &self.loaded.modules, first)?;
            self.closing.reach_all(spots.as_slice())?;
        }
        Ok(())
    }

    fn keep(&mut self, keep: &[Text]) -> Result<(), ImportError> {
        if let Some(root) = self.loaded.modules.get(0) {
            test_kept(self.loaded.alloc, keep, root)?;
        }
        let spots = kept_places(self.loaded.alloc, &self.loaded.modules, keep)?;
        self.closing.reach_all(spots.as_slice())?;
        Ok(())
    }

    fn run<R: Resolver>(
        mut self,
        resolver: &mut R,
        max_modules: u32,
    ) -> Result<Resolutions, ImportError>
        ensures same_answers { SameAnswers (R.answers resolver.old) (R.answers resolver.new) }
        ensures same_texts { SameTexts (R.texts resolver.old) (R.texts resolver.new) }
        ensures same_names { R.display_names resolver.new ≡ R.display_names resolver.old }
        ensures same_reference { R.holds resolver.new ≡ R.holds resolver.old }
        ensures asked { StayAsked (R.asked resolver.old) (R.asked resolver.new) }
    {
        let mut asked = self.close()?;
        for _round in 1..max_modules {
            if asked.is_empty() {
                break;
            }
            asked = self.next_round(resolver, &asked, max_modules)?;
        }
        test_none_asked(self.loaded.alloc, &asked)?;
        Ok(self.finished()?)
    }

    fn next_round<R: Resolver>(
        &mut self,
        resolver: &mut R,
        asked: &Asked,
        max_modules: u32,
    ) -> Result<Asked, ImportError>
        ensures same_answers { SameAnswers (R.answers resolver.old) (R.answers resolver.new) }
        ensures same_texts { SameTexts (R.texts resolver.old) (R.texts resolver.new) }
        ensures same_names { R.display_names resolver.new ≡ R.display_names resolver.old }
        ensures same_reference { R.holds resolver.new ≡ R.holds resolver.old }
        ensures asked { StayAsked (R.asked resolver.old) (R.asked resolver.new) }
    {
        let first = self.loaded.modules.len();
        self.loaded.load_all(resolver, asked, max_modules)?;
        self.take_in(first)?;
        self.closing.seek_asked(&self.loaded.modules, asked)?;
        self.close()
    }

    /// Closes what is reached, and answers what is asked for.
    fn close(&mut self) -> Result<Asked, ImportError> {
        self.closing.follow_all(&self.loaded.modules)?;
        if self.closing.is_missing()
            && let Some(error) = first_missing(
                self.loaded.alloc,
                &self.loaded.modules,
                self.closing.reached(),
            )?
        {
            return Err(error);
        }
        Ok(self.closing.take_asked())
    }

    fn finished(self) -> Result<Resolutions, AllocError> {
        let ends = Ends::new(self.loaded.alloc, &self.loaded.modules)?;
        let Loading {
            loaded,
            closing,
            is_eager: _,
        } = self;
        let Loaded {
            alloc: _,
            modules,
            units,
            given: _,
        } = loaded;
        Ok(Resolutions {
            modules,
            units,
            held: closing.into_reached(),
            ends,
        })
    }
}

/// Refuses the first module that is asked for, which would be one too many.
fn test_none_asked(alloc: Global, asked: &Asked) -> Result<(), ImportError> {
    match asked.modules.values().next() {
        None => Ok(()),
        Some(target) => {
            let path = target.path.clone_in(alloc)?;
            Err(ImportError::TooManyModules(path))
        }
    }
}
