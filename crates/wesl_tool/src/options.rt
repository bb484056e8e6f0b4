//! The options of a call.

use std::alloc::{AllocError, Global};
use wesl_command::Request;
use wesl_diagnostics::{BundleError, Feature, Features, Key, Mode, Options};
use wgsl_base::{Items, Text};

/// What a flag is set to, by its word.
fn feature_of(word: &str) -> Option<Feature> {
    match word {
        "enable" => Some(Feature::Enable),
        "disable" => Some(Feature::Disable),
        "keep" => Some(Feature::Keep),
        "error" => Some(Feature::Error),
        _ => None,
    }
}

fn features_of(alloc: Global, request: &Request<'_>) -> Result<Features, BundleError> {
    let default = match request.default_feature {
        Some(word) => feature_of(word),
        None => Some(Feature::Disable),
    };
    let Some(default) = default else {
        return Err(BundleError::Value(Key::DefaultFeature));
    };
    let mut features = Features::new(alloc, default);
    for flag in request.flags.as_slice() {
        let Some(feature) = feature_of(flag.setting) else {
            return Err(BundleError::Value(Key::Features));
        };
        features.set(String::from_str(alloc, flag.name)?, feature)?;
    }
    Ok(features)
}

fn mode_of(word: Option<&str>) -> Mode {
    match word {
        Some("eager") => Mode::Eager,
        Some("whole") => Mode::Whole,
        _ => Mode::Lazy,
    }
}

fn keep_of(alloc: Global, request: &Request<'_>) -> Result<Items<Text>, AllocError> {
    let mut keep = Items::new(alloc);
    for name in request.keep.as_slice() {
        keep.push(Text::from_str(alloc, name)?)?;
    }
    Ok(keep)
}

/// The options of a request, or that a flag has none of the settings.
pub fn options_of(alloc: Global, request: &Request<'_>) -> Result<Options, BundleError> {
    let features = features_of(alloc, request)?;
    let keep = keep_of(alloc, request)?;
    Ok(Options {
        features,
        keep,
        mode: mode_of(request.mode),
        max_modules: request.max_modules.unwrap_or(256),
        max_steps: request.max_steps.unwrap_or(1_000_000),
    })
}
