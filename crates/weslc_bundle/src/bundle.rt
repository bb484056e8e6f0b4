//! A bundle: what the program is asked for.

ghost use Rattle.std.specs.Prelude.{◌≡◌, ◌⊎◌, IfOk, IfErr, OnOk};
ghost use Rattle.weslc_bundle.specs.Bundles.{IsApart, IsFirstTwice, IsBundle, HandsOver, IsFault, IsHandedFault};
ghost use Rattle.weslc_bundle.specs.Held.{Holds};

use crate::features::set_features;
use crate::handed::{Asked, read_asked};
use crate::request::{BundleError, Command, Module, Request};
use std::alloc::{AllocError, Global};
use std::collections::BTreeSet;
use weslc_compile::{Options, VirtualResolver};
use weslc_values::RunSettings;
use wgsl_base::{CloneIn, Items};
use wgsl_path::ModulePath;

/// A request whose modules are ready to be loaded.
#[derive(Drop)]
pub struct Bundle {
    pub command: Command,
    pub root: ModulePath,
    pub resolver: VirtualResolver,
    pub options: Options,
    /// What is handed to a run or an evaluation.
    pub handed: RunSettings,
}

/// Reads a bundle. After the faults of its keys comes a path that is there twice.
pub fn read_bundle(alloc: Global, bytes: &[u8]) -> Result<Bundle, BundleError>
    ensures bundle { IfOk result (λ bundle. (request : Request) × IsBundle bytes.now request × HandsOver request bundle) }
    ensures fault { IfErr result (λ e. (e ≡ BundleError.OutOfMemory) ⊎ (IsFault bytes.now e ⊎ IsHandedFault bytes.now e)) }
    ensures only { IfErr result (λ e. (e ≡ BundleError.OutOfMemory) ⊎ (IsHandedFault bytes.now e ⊎ ((request : Request) → ¬ IsBundle bytes.now request))) }
{
    let asked = read_asked(alloc, bytes)?;
    let Asked { request, handed } = asked;
    let Request {
        command,
        root,
        modules,
        features,
        keep,
        mode,
        max_modules,
        max_steps,
    } = request;
    check_paths(alloc, modules.as_slice())?;
    let resolver = resolver_of(alloc, modules)?;
    let features = set_features(alloc, &features)?;
    Ok(Bundle {
        command,
        root,
        resolver,
        options: Options {
            features,
            keep,
            mode,
            max_modules,
            max_steps,
        },
        handed,
    })
}

/// Whether no two modules stand at one path; the first that stands at the path of an earlier one is refused.
fn check_paths(alloc: Global, modules: &[Module]) -> Result<(), BundleError>
    ensures apart { OnOk result (IsApart modules.now) }
    ensures twice { IfErr result (λ e. (e ≡ BundleError.OutOfMemory) ⊎ ((path : ModulePath) × IsFirstTwice modules.now path × (e ≡ BundleError.DuplicateModule path))) }
{
    let mut taken = BTreeSet::new(alloc);
    for module in modules {
        if !taken.insert(module.path.to_string(alloc)?)? {
            return Err(BundleError::DuplicateModule(module.path.clone_in(alloc)?));
        }
    }
    Ok(())
}

/// All modules, no two of which stand at one path.
fn resolver_of(alloc: Global, modules: Items<Module>) -> Result<VirtualResolver, AllocError>
    requires { IsApart modules }
    ensures { IfOk result (λ resolver. Holds resolver modules) }
{
    let mut resolver = VirtualResolver::new(alloc);
    for module in modules.into_vec() {
        let Module { path, text } = module;
        resolver.add_module(path, text)?;
    }
    Ok(resolver)
}
