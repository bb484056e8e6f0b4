//! The options that a JSON object asks for.

use crate::features::{read_features, set_features};
use crate::request::{BundleError, read_keep, read_max_modules, read_max_steps, read_mode};
use serde_json::Value;
use std::alloc::Global;
use weslc_compile::Options;

/// Reads the keys of a bundle that are options, in this order: `features`, `default_feature`, `keep`, `mode`, `max_modules`, `max_steps`.
/// Any may be missing, and other keys are not looked at.
pub fn read_options(alloc: Global, value: &Value) -> Result<Options, BundleError> {
    let settings = read_features(alloc, value)?;
    let keep = read_keep(alloc, value)?;
    let mode = read_mode(value)?;
    let max_modules = read_max_modules(value)?;
    let max_steps = read_max_steps(value)?;
    let features = set_features(alloc, &settings)?;
    Ok(Options {
        features,
        keep,
        mode,
        max_modules,
        max_steps,
    })
}
