//! Modules of the whole language, loaded, and linked into one unit.

ghost use Rattle.std.specs.Prelude.{◌≡◌, [], IfOk};
ghost use Rattle.core_resolver.specs.Asked.{StayAsked};

use crate::refusal::{of_import, of_resolve};
use core_resolver::{BeyondCore, HeldUnit, Resolutions, resolve_eager, resolve_lazy, test_root};
use std::alloc::{AllocError, Global};
use std::mem;
use wesl_assemble::{Numbering, assemble, number_held};
use wesl_module_index::{DeclarationId, Module, Modules};
use wesl_resolvers::Resolver;
use wesl_validate::{Outline, read_outline};
use weslc_errors::{CompileError, EscapeMangler, Mode, Options};
use wgsl_base::{Items, Text};
use wgsl_declarations::TranslationUnit;
use wgsl_path::ModulePath;

/// The one unit that modules are linked into, and where its parts come from.
#[derive(Drop)]
pub struct LinkedModules {
    /// The unit, without imports.
    pub unit: HeldUnit,
    /// What the names of the unit denote, as it was linked.
    pub outline: Outline,
    /// The loaded modules.
    pub modules: Modules,
    /// Where each directive and, behind them, each declaration of the unit comes from.
    pub origins: Vec<DeclarationId>,
    /// Where each symbol of the unit is declared, by number.
    pub numbering: Numbering,
    /// The name in the unit of each symbol, by number.
    pub names: Vec<Text>,
}

impl LinkedModules {
    ghost use Rattle.std.specs.Prelude.{◌≡◌};

    /// Takes the unit, without imports. What stays in its place is empty.
    pub fn take_unit(&mut self, alloc: Global) -> TranslationUnit
        ensures { result ≡ self.old.unit }
    {
        let empty = HeldUnit::new(TranslationUnit {
            imports: Items::new(alloc),
            global_directives: Items::new(alloc),
            global_declarations: Items::new(alloc),
        });
        mem::replace(&mut self.unit, empty).into_inner()
    }
}

/// What is linked, or the first fault of linking: too many modules, one that is not found, whose text or conditions are at fault or in
/// which a condition is left, a name that is declared twice, missing or private, or a name that is read otherwise than meant. The
/// resolver's modules have their conditions decided. A module that is parsed already may be handed in. The root is not relative.
pub fn link_modules<R: Resolver>(
    alloc: Global,
    resolver: &mut R,
    beyond: Option<BeyondCore>,
    root: &ModulePath,
    options: &Options,
) -> Result<LinkedModules, CompileError>
    ensures imports { IfOk result (λ linked. linked.unit.imports ≡ []) }
    ensures asked { StayAsked (R.asked resolver.old) (R.asked resolver.new) }
    ensures same_reference { R.holds resolver.new ≡ R.holds resolver.old }
{
    if options.max_modules == 0 {
        return Err(CompileError::too_many_modules(alloc, root)?);
    }
    let unit = root_unit(alloc, resolver, beyond, root)?;
    link_root(alloc, unit, resolver, root, options)
}

/// The root's unit, which may be parsed already.
fn root_unit<R: Resolver>(
    alloc: Global,
    resolver: &mut R,
    beyond: Option<BeyondCore>,
    root: &ModulePath,
) -> Result<HeldUnit, CompileError>
    ensures asked { StayAsked (R.asked resolver.old) (R.asked resolver.new) }
    ensures same_reference { R.holds resolver.new ≡ R.holds resolver.old }
{
    if let Some(BeyondCore { path, unit }) = beyond
        && path == *root
    {
        return Ok(unit);
    }
    match resolver.resolve_module(alloc, root) {
        Ok(unit) => Ok(HeldUnit::new(unit)),
        Err(error) => Err(of_resolve(error)),
    }
}

fn link_root<R: Resolver>(
    alloc: Global,
    unit: HeldUnit,
    resolver: &mut R,
    root: &ModulePath,
    options: &Options,
) -> Result<LinkedModules, CompileError>
    ensures imports { IfOk result (λ linked. linked.unit.imports ≡ []) }
    ensures asked { StayAsked (R.asked resolver.old) (R.asked resolver.new) }
    ensures same_reference { R.holds resolver.new ≡ R.holds resolver.old }
{
    let mut resolutions = resolved(alloc, unit, resolver, root, options)?;
    let numbering = number_held(alloc, &resolutions)?;
    let names = printed_names(alloc, &resolutions.modules, &numbering)?;
    let mut origins = Vec::new(alloc);
    let unit = assembled(
        alloc,
        &mut resolutions,
        &numbering,
        names.as_slice(),
        &mut origins,
    )?;
    let outline = read_outline(alloc, unit.get())?;
    refuse_clash(alloc, &outline)?;
    let Resolutions {
        modules,
        units: _,
        held: _,
        ends: _,
    } = resolutions;
    Ok(LinkedModules {
        unit,
        outline,
        modules,
        origins,
        numbering,
        names,
    })
}

/// Refuses the first name that is read otherwise than meant.
fn refuse_clash(alloc: Global, outline: &Outline) -> Result<(), CompileError> {
    match outline.names_clash(alloc)? {
        Some(name) => Err(CompileError::name_clash(Text::from_str(alloc, name)?)),
        None => Ok(()),
    }
}

fn assembled(
    alloc: Global,
    resolutions: &mut Resolutions,
    numbering: &Numbering,
    names: &[Text],
    origins: &mut Vec<DeclarationId>,
) -> Result<HeldUnit, AllocError>
    ensures { IfOk result (λ unit. unit.imports ≡ []) }
{
    match assemble(alloc, resolutions, numbering, names, origins) {
        Ok(unit) => Ok(HeldUnit::new(unit)),
        Err(error) => Err(error),
    }
}

/// The modules that are loaded, and what is held of them.
fn resolved<R: Resolver>(
    alloc: Global,
    unit: HeldUnit,
    resolver: &mut R,
    root: &ModulePath,
    options: &Options,
) -> Result<Resolutions, CompileError>
    ensures asked { StayAsked (R.asked resolver.old) (R.asked resolver.new) }
    ensures same_reference { R.holds resolver.new ≡ R.holds resolver.old }
{
    match options.mode {
        Mode::Lazy => lazily(alloc, unit, resolver, root, options),
        Mode::Eager => {
            let mut resolutions = eagerly(alloc, unit, resolver, root, options)?;
            resolutions.strip_except(alloc, options.keep.as_slice())?;
            Ok(resolutions)
        }
        Mode::Whole => eagerly(alloc, unit, resolver, root, options),
    }
}

fn lazily<R: Resolver>(
    alloc: Global,
    unit: HeldUnit,
    resolver: &mut R,
    root: &ModulePath,
    options: &Options,
) -> Result<Resolutions, CompileError>
    ensures asked { StayAsked (R.asked resolver.old) (R.asked resolver.new) }
    ensures same_reference { R.holds resolver.new ≡ R.holds resolver.old }
{
    let keep = options.keep.as_slice();
    match resolve_lazy(
        alloc,
        keep,
        unit.into_inner(),
        root,
        resolver,
        options.max_modules,
    ) {
        Ok(resolutions) => Ok(resolutions),
        Err(error) => Err(of_import(error)),
    }
}

fn eagerly<R: Resolver>(
    alloc: Global,
    unit: HeldUnit,
    resolver: &mut R,
    root: &ModulePath,
    options: &Options,
) -> Result<Resolutions, CompileError>
    ensures asked { StayAsked (R.asked resolver.old) (R.asked resolver.new) }
    ensures same_reference { R.holds resolver.new ≡ R.holds resolver.old }
{
    if let Err(error) = test_root(alloc, options.keep.as_slice(), unit.get(), root) {
        return Err(of_import(error));
    }
    match resolve_eager(
        alloc,
        unit.into_inner(),
        root,
        resolver,
        options.max_modules,
    ) {
        Ok(resolutions) => Ok(resolutions),
        Err(error) => Err(of_import(error)),
    }
}

/// The name of each symbol in the linked unit, by number: the root's names stay, and those of other modules are mangled.
fn printed_names(
    alloc: Global,
    modules: &Modules,
    numbering: &Numbering,
) -> Result<Vec<Text>, AllocError> {
    let mut names = Vec::new(alloc);
    for spot in numbering.spots() {
        names.push(printed_name(alloc, modules.get(spot.module), *spot)?)?;
    }
    Ok(names)
}

fn printed_name(
    alloc: Global,
    module: Option<&Module>,
    spot: DeclarationId,
) -> Result<Text, AllocError> {
    let Some(module) = module else {
        return Ok(Text::new(alloc));
    };
    match module.name_at(spot.place) {
        None => Ok(Text::new(alloc)),
        Some(name) if spot.module == 0 => Text::from_str(alloc, name),
        Some(name) => EscapeMangler.mangle(alloc, &module.target.path, name),
    }
}
