//! From modules to the first fault.

use crate::checking::names::{CheckRefusal, name_refusal};
use std::alloc::Global;
use weslc_calls::{
    CompileError, Conditions, Decided, HeldModules, LinkedModules, Options, Preprocessor, Resolver,
    Unprintable, print_checked,
};
use wgsl_path::ModulePath;
use wgsl_token::fault::Refusal;

/// Whether some text stands for a linked unit.
fn check_printable(alloc: Global, linked: &mut LinkedModules) -> Result<(), CompileError> {
    match print_checked(alloc, linked.unit.get_mut()) {
        Ok(_) => Ok(()),
        Err(Unprintable::Node(name)) => Err(CompileError::unprintable(name)),
        Err(Unprintable::GaveUp(Refusal::OutOfMemory)) => Err(CompileError::OutOfMemory),
        Err(Unprintable::GaveUp(refusal)) => Err(CompileError::gave_up(refusal)),
    }
}

/// The first fault. Names are checked first, since printing takes empty items from the unit, whose places are counted.
fn check_linked(alloc: Global, linked: &mut LinkedModules) -> Result<(), CheckRefusal> {
    match name_refusal(alloc, linked)? {
        Some(refusal) => Err(CheckRefusal::Name(refusal)),
        None => Ok(check_printable(alloc, linked)?),
    }
}

/// The first fault of modules that are linked, and whose names are checked, if there is one. Conditions are decided as each module is
/// resolved. The root is not relative.
pub fn check<R: Resolver>(
    alloc: Global,
    resolver: &mut R,
    root: &ModulePath,
    options: &Options,
) -> Result<(), CheckRefusal> {
    let features = &options.features;
    let inner = Preprocessor::new(resolver, Conditions { features });
    let mut decided = Decided { inner };
    let mut held = HeldModules::link(alloc, &mut decided, None, root, options)?;
    check_linked(alloc, held.get_mut())
}
