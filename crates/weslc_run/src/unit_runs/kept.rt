//! The options of a call with other names to be kept.

use core_calls::{Feature, Features, Options};
use std::alloc::{AllocError, Global};
use wgsl_base::{CloneIn, Items, Text};

/// The options but for feature flags, which linking doesn't read, and with these names to be kept.
fn with_keep(alloc: Global, options: &Options, keep: Items<Text>) -> Options {
    Options {
        features: Features::new(alloc, Feature::Disable),
        keep,
        mode: options.mode,
        max_modules: options.max_modules,
        max_steps: options.max_steps,
    }
}

/// The options with one more name to be kept.
pub(crate) fn keeping(alloc: Global, options: &Options, name: &str) -> Result<Options, AllocError> {
    let mut keep = options.keep.clone_in(alloc)?;
    keep.push(Text::from_str(alloc, name)?)?;
    Ok(with_keep(alloc, options, keep))
}

/// The options with one name alone to be kept.
pub(crate) fn keeping_only(
    alloc: Global,
    options: &Options,
    name: &str,
) -> Result<Options, AllocError> {
    let mut keep = Items::new(alloc);
    keep.push(Text::from_str(alloc, name)?)?;
    Ok(with_keep(alloc, options, keep))
}
