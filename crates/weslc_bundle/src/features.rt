//! What a bundle's feature flags are set to.

ghost use Rattle.std.specs.Prelude.{◌≡◌, List, IfOk};
ghost use Rattle.serde_json.specs.View.{view, members_view};
ghost use Rattle.weslc_bundle.specs.Bundles.{Answers, required, feature_of, flags_in, flags_at, default_feature_at, features_at, AreSet};

use crate::request::{BundleError, Key};
use serde_json::{Map, Value};
use std::alloc::{AllocError, Global};
use wesl_conditions::{Feature, Features};
use wgsl_base::{Items, Text};

/// A feature flag, and what it is set to.
#[derive(Drop)]
pub struct Flag {
    pub name: Text,
    pub feature: Feature,
}

/// What feature flags are set to. One that is not listed is set to the default.
#[derive(Drop)]
pub struct FeatureSettings {
    pub flags: Items<Flag>,
    pub default: Feature,
}

/// Reads the keys `features` and `default_feature`, in this order.
pub(crate) fn read_features(alloc: Global, value: &Value) -> Result<FeatureSettings, BundleError>
    ensures { Answers FeatureSettings result (features_at (view value.now)) }
{
    let flags = read_flags(alloc, value)?;
    let default = read_default_feature(value)?;
    Ok(FeatureSettings { flags, default })
}

fn read_flags(alloc: Global, value: &Value) -> Result<Items<Flag>, BundleError>
    ensures { Answers (List Flag) result (flags_at (view value.now)) }
{
    let Some(features) = value.get("features") else {
        return Ok(Items::new(alloc));
    };
    match features.as_object() {
        Some(members) => read_each_flag(alloc, members),
        None => Err(BundleError::Value(Key::Features)),
    }
}

/// An object in which each member is a flag.
fn read_each_flag(alloc: Global, members: &Map<String, Value>) -> Result<Items<Flag>, BundleError>
    ensures { Answers (List Flag) result (required (BundleError.Value Key.Features) (flags_in (members_view members.now.entries))) }
{
    let mut flags = Items::new(alloc);
    for (name, value) in members.iter() {
        let Some(feature) = read_feature(value) else {
            return Err(BundleError::Value(Key::Features));
        };
        let name = Text::from_str(alloc, name.as_str())?;
        flags.push(Flag { name, feature })?;
    }
    Ok(flags)
}

fn read_default_feature(value: &Value) -> Result<Feature, BundleError>
    ensures { result ≡ default_feature_at (view value.now) }
{
    let Some(default) = value.get("default_feature") else {
        return Ok(Feature::Disable);
    };
    match read_feature(default) {
        Some(feature) => Ok(feature),
        None => Err(BundleError::Value(Key::DefaultFeature)),
    }
}

/// What a flag is set to, by its word.
pub fn read_feature(value: &Value) -> Option<Feature>
    ensures { result ≡ feature_of (view value.now) }
{
    match value.as_str() {
        Some("enable") => Some(Feature::Enable),
        Some("disable") => Some(Feature::Disable),
        Some("keep") => Some(Feature::Keep),
        Some("error") => Some(Feature::Error),
        _ => None,
    }
}

/// The flags, each set so.
pub(crate) fn set_features(
    alloc: Global,
    settings: &FeatureSettings,
) -> Result<Features, AllocError>
    ensures { IfOk result (AreSet settings.now) }
{
    let mut features = Features::new(alloc, settings.default);
    for flag in settings.flags.as_slice() {
        let name = String::from_str(alloc, flag.name.as_str())?;
        features.set(name, flag.feature)?;
    }
    Ok(features)
}
