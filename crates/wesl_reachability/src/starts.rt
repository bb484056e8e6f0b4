//! Where reaching begins.

ghost use Rattle.std.specs.Prelude.{◌≡◌, Some, length, slice_get, IfOk, OnOk};
ghost use Rattle.wesl_module_index.specs.declared.module.Module.{Module};
ghost use Rattle.wesl_reachability.specs.Holding.{Answers};
ghost use Rattle.wesl_reachability.specs.Starts.{AreAll, IsPlaceFrom, IsEntryPoint, StandsAsEntryPoint, IsNamed, IsKeptIn, AddsIf, AddsNamed, AddsPlaces};

use std::alloc::{AllocError, Global};
use wesl_mark::{Kind, Place};
use wesl_module_index::Meaning;
use wesl_name_resolution::{DeclarationId, Module, Modules};
use wgsl_base::Text;

/// The declarations of the root with these names, those that are there; where no name is given, its entry points: the functions with a
/// stage attribute.
pub fn kept_places(
    alloc: Global,
    modules: &Modules,
    keep: &[Text],
) -> Result<Vec<DeclarationId>, AllocError>
    ensures { IfOk result (λ spots. AreAll spots.items (IsKeptIn keep.now (slice_get modules.now.list.items 0))) }
{
    match modules.get(0) {
        None => Ok(Vec::new(alloc)),
        Some(root) if keep.is_empty() => entry_points(alloc, root),
        Some(root) => named_places(alloc, root, keep),
    }
}

fn entry_points(alloc: Global, root: &Module) -> Result<Vec<DeclarationId>, AllocError>
    ensures { IfOk result (λ spots. AreAll spots.items (IsEntryPoint root.now)) }
{
    let mut spots = Vec::new(alloc);
    for place in 0..root.places.len() {
        let is_one = is_entry_point(root.places.as_slice(), place);
        add_if(&mut spots, DeclarationId { module: 0, place }, is_one)?;
    }
    Ok(spots)
}

/// Whether a function with a stage attribute stands at a place of these.
fn is_entry_point(places: &[Place], at: usize) -> bool
    ensures { Answers result (StandsAsEntryPoint places.now at) }
{
    match places.get(at) {
        None => false,
        Some(place) => matches!(
            place.kind,
            Kind::Function {
                is_entry_point: true,
                ..
            }
        ),
    }
}

/// Adds a place, if it is to be.
fn add_if(
    spots: &mut Vec<DeclarationId>,
    spot: DeclarationId,
    is_one: bool,
) -> Result<(), AllocError>
    ensures { OnOk result (AddsIf spot is_one spots.old.items spots.new.items) }
{
    if is_one {
        spots.push(spot)?;
    }
    Ok(())
}

fn named_places(
    alloc: Global,
    root: &Module,
    keep: &[Text],
) -> Result<Vec<DeclarationId>, AllocError>
    ensures { IfOk result (λ spots. AreAll spots.items (IsNamed root.now keep.now)) }
{
    let mut spots = Vec::new(alloc);
    for name in keep {
        add_named(&mut spots, root, name.as_str())?;
    }
    Ok(spots)
}

/// Adds the root's declaration of a name, if there is one.
fn add_named(spots: &mut Vec<DeclarationId>, root: &Module, name: &str) -> Result<(), AllocError>
    ensures { OnOk result (AddsNamed root.now name.now spots.old.items spots.new.items) }
{
    match root.scope.get(name) {
        Some(Meaning::Declared(place)) => {
            spots.push(DeclarationId {
                module: 0,
                place: *place,
            })?;
            Ok(())
        }
        Some(Meaning::Imported(_)) => Ok(()),
        None => Ok(()),
    }
}

/// All places of the modules from this number on.
pub fn all_places(
    alloc: Global,
    modules: &Modules,
    first: usize,
) -> Result<Vec<DeclarationId>, AllocError>
    ensures { IfOk result (λ spots. AreAll spots.items (IsPlaceFrom modules.now.list.items first)) }
{
    let mut spots = Vec::new(alloc);
    for number in first..modules.len() {
        add_module(&mut spots, modules, number)?;
    }
    Ok(spots)
}

/// Adds the places of a module.
fn add_module(
    spots: &mut Vec<DeclarationId>,
    modules: &Modules,
    number: usize,
) -> Result<(), AllocError>
    ensures { OnOk result ((one : Module) → slice_get modules.now.list.items number ≡ Some one → AddsPlaces number (length one.places.items) spots.old.items spots.new.items) }
{
    match modules.get(number) {
        None => Ok(()),
        Some(module) => add_places(spots, number, module.places.len()),
    }
}

/// Adds so many places of a module.
fn add_places(spots: &mut Vec<DeclarationId>, number: usize, count: usize) -> Result<(), AllocError>
    ensures { OnOk result (AddsPlaces number count spots.old.items spots.new.items) }
{
    for place in 0..count {
        spots.push(DeclarationId {
            module: number,
            place,
        })?;
    }
    Ok(())
}
