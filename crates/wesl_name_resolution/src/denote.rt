//! What a name denotes: a declaration of its own module, or the end of a chain of published imports.

ghost use Rattle.std.specs.Prelude.{◌≡◌, ℕ, Some, slice_get, string_bytes};
ghost use Rattle.std.specs.Option.{option_map};
ghost use Rattle.wesl_module_index.specs.declared.modules.Modules.{Modules};
ghost use Rattle.wesl_module_index.specs.Tables.{import_said, import_at, import_sense, symbol_named};
ghost use Rattle.wesl_module_index.specs.Loaded.{AreTabled};
ghost use Rattle.wesl_chains.specs.Outlines.{Path, Symbol, Finder};
ghost use Rattle.wesl_chains.specs.Chains.{next, missing};
ghost use Rattle.wesl_name_resolution.specs.Links.{symbol_of, symbol_via, step_of, item_step, IsFoundIn, IsFoundAs, IsByImport, IsBegunAs, outcome_of, beginning_of, begins, StopsAs};
ghost use Rattle.wesl_name_resolution.specs.Ends.{AreEnds, Starts, IsDenotation, ComesTo};

use crate::ends::{End, Ends};
use wesl_module_index::{
    DeclarationId, ImportItem, Meaning, Module, Modules, ReferenceTarget, Target,
};
use wgsl_path::ModulePath;

/// An item that is sought in a module.
#[derive(Clone, Copy)]
pub struct Link<'a> {
    pub target: &'a Target,
    pub name: &'a str,
}

/// An item of a module's imports: the module's number, and the item's number there.
#[derive(Clone, Copy)]
pub struct Via {
    pub module: usize,
    pub item: usize,
}

/// What a module has under a name that another module seeks there.
#[derive(Clone, Copy)]
pub enum Step<'a> {
    Declared(DeclarationId),
    /// The module publishes an import of the name, by this item, which leads on.
    Leads(Via, Link<'a>),
    /// Nothing, or a published import of one bare name.
    Missing,
    /// An import that is not published.
    Private,
    /// The module is not loaded.
    Unloaded,
}

/// What a reference denotes whose first name no local declaration hides.
#[derive(Clone, Copy)]
pub enum Denoted<'a> {
    Declared(DeclarationId),
    /// An item of a module that is not loaded.
    Unloaded(Link<'a>),
    /// Nothing: the module at this path lacks the item of this name.
    Missing(&'a ModulePath, &'a str),
    /// Nothing: the module at this path only imports the item of this name.
    Private(&'a ModulePath, &'a str),
    /// A name that the module neither declares nor imports.
    Free,
}

/// Where the search for what a reference denotes begins.
#[derive(Clone, Copy)]
pub enum Start<'a> {
    Ends(Denoted<'a>),
    Leads(Link<'a>),
}

/// What the module of an item has under its name.
#[tactic(auto, using(crate::proofs::Steps::found))]
pub fn found_at<'a>(modules: &'a Modules, link: Link<'a>) -> Step<'a>
    ensures step { (find : Finder) → AreTabled modules.now find → step_of modules.now result ≡ next find (symbol_of link.entry) }
    ensures found { IsFoundIn modules.now (symbol_of link.entry).home result }
    ensures named { IsFoundAs modules.now (symbol_of link.entry) result }
{
    let Some(number) = modules.number_of(link.target.printed_path.as_str()) else {
        return Step::Unloaded;
    };
    let Some(module) = modules.get(number) else {
        return Step::Unloaded;
    };
    match module.scope.get(link.name) {
        None => Step::Missing,
        Some(Meaning::Declared(place)) => Step::Declared(DeclarationId {
            module: number,
            place: *place,
        }),
        Some(Meaning::Imported(item)) => found_by(
            module,
            Via {
                module: number,
                item: *item,
            },
        ),
    }
}

fn found_by(module: &Module, via: Via) -> Step<'_>
    ensures step { (ms : Modules) → step_of ms result ≡ item_step (import_at module.now via.item) }
    ensures found { (ms : Modules) (home : Path) → slice_get ms.list.items via.«module» ≡ Some module.now → IsFoundIn ms home result }
    ensures by_import { IsByImport via result }
{
    match module.items.get(via.item) {
        None => Step::Missing,
        Some(item) if !item.is_published => Step::Private,
        Some(item) => match link_of(module, item) {
            None => Step::Missing,
            Some(link) => Step::Leads(via, link),
        },
    }
}

/// What an item of a module's imports names; none where it is one bare name.
fn link_of<'a>(module: &'a Module, item: &'a ImportItem) -> Option<Link<'a>>
    ensures { option_map symbol_of result ≡ symbol_named (import_said module.now.targets.items item.now) }
{
    let target = module.target_of(item)?;
    Some(Link {
        target,
        name: item.name.as_str(),
    })
}

/// What an item that a published import leads to names.
pub(crate) fn link_via(modules: &Modules, via: Via) -> Option<Link<'_>>
    ensures { option_map symbol_of result ≡ symbol_via modules.now via }
{
    let module = modules.get(via.module)?;
    let item = module.items.get(via.item)?;
    if item.is_published {
        link_of(module, item)
    } else {
        None
    }
}

/// Where the search begins for what a reference of the module of this number denotes, if no local declaration hides its first name.
pub fn start_of<'a>(modules: &'a Modules, number: usize, reference: u32) -> Start<'a>
    ensures starts { Starts modules.now number reference result }
    ensures begun { IsBegunAs modules.now number reference result }
{
    let Some(module) = modules.get(number) else {
        return Start::Ends(Denoted::Free);
    };
    match module.sought.get(reference as usize) {
        None => Start::Ends(Denoted::Free),
        Some(ReferenceTarget::Free) => Start::Ends(Denoted::Free),
        Some(ReferenceTarget::Declared(place)) => Start::Ends(Denoted::Declared(DeclarationId {
            module: number,
            place: *place,
        })),
        Some(ReferenceTarget::Imported(item)) => match module.items.get(*item) {
            None => Start::Ends(Denoted::Free),
            Some(item) => start_by(module, item),
        },
        Some(ReferenceTarget::Item(target, name)) => Start::Leads(Link {
            target,
            name: name.as_str(),
        }),
    }
}

fn start_by<'a>(module: &'a Module, item: &'a ImportItem) -> Start<'a>
    ensures begun { (ms : Modules) (number reference : ℕ) → IsBegunAs ms number reference result }
    ensures starts { (ms : Modules) → beginning_of ms result ≡ begins (string_bytes module.now.target.printed_path) (import_sense (Some (import_said module.now.targets.items item.now))) }
{
    match link_of(module, item) {
        None => Start::Ends(Denoted::Missing(&module.target.path, item.name.as_str())),
        Some(link) => Start::Leads(link),
    }
}

/// What a reference of the module of this number denotes, if no local declaration hides its first name. The ends are those of the modules.
pub fn denotation<'a>(
    modules: &'a Modules,
    ends: &Ends,
    number: usize,
    reference: u32,
) -> Denoted<'a>
    ensures { AreEnds modules.now ends.now → IsDenotation modules.now number reference result }
{
    match start_of(modules, number, reference) {
        Start::Ends(denoted) => denoted,
        Start::Leads(link) => denoted_by(modules, ends, link),
    }
}

/// What the chain from an item ends at. A chain that never ends denotes nothing, and its first item is named.
fn denoted_by<'a>(modules: &'a Modules, ends: &Ends, first: Link<'a>) -> Denoted<'a>
    ensures { AreEnds modules.now ends.now → (find : Finder) → AreTabled modules.now find → ComesTo find (symbol_of first.entry) (outcome_of modules.now result) }
{
    match found_at(modules, first) {
        Step::Leads(via, _) => match ends.get(via) {
            End::Declared(spot) => Denoted::Declared(spot),
            End::Stops(last) => stopped(modules, last, first),
            End::Unknown | End::ReferenceTarget | End::Never => missing(first),
        },
        step => stopped_at(step, first),
    }
}

fn missing(link: Link<'_>) -> Denoted<'_>
    ensures { (ms : Modules) → outcome_of ms result ≡ Some (missing (symbol_of link.entry)) }
{
    Denoted::Missing(&link.target.path, link.name)
}

/// What a chain denotes whose last item is this.
fn stopped<'a>(modules: &'a Modules, last: Via, first: Link<'a>) -> Denoted<'a>
    ensures { (find : Finder) → AreTabled modules.now find → (t : Symbol) → symbol_via modules.now last ≡ Some t → StopsAs t (next find t) (outcome_of modules.now result) }
{
    match link_via(modules, last) {
        None => missing(first),
        Some(link) => stopped_at(found_at(modules, link), link),
    }
}

/// What a chain denotes that stops at an item.
fn stopped_at<'a>(step: Step<'a>, link: Link<'a>) -> Denoted<'a>
    ensures { (ms : Modules) → IsFoundIn ms (symbol_of link.entry).home step.entry → StopsAs (symbol_of link.entry) (step_of ms step.entry) (outcome_of ms result) }
{
    match step {
        Step::Declared(spot) => Denoted::Declared(spot),
        Step::Private => Denoted::Private(&link.target.path, link.name),
        Step::Unloaded => Denoted::Unloaded(link),
        Step::Missing | Step::Leads(..) => missing(link),
    }
}
