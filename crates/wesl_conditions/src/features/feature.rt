//! What feature flags are set to.

use indexmap::IndexMap;
use std::alloc::{AllocFailed, Global};

/// What a feature flag is set to.
#[derive(Clone, Copy, Debug, PartialEq, Eq)]
pub enum Feature {
    /// It is true.
    Enable,
    /// It is false.
    Disable,
    /// It is not decided yet.
    Keep,
    /// A condition that names it is an error.
    Error,
}

impl From<bool> for Feature {
    ghost use Rattle.std.specs.Prelude.{◌≡◌, if◌then◌else◌};
    ghost use Rattle.wesl_conditions.specs.declared.features.feature.Feature.TheVariants.{Enable, Disable};

    ghost from_gives = { λ enabled feature. feature ≡ (if enabled then Enable else Disable) };

    fn from(enabled: bool) -> Feature {
        if enabled {
            Feature::Enable
        } else {
            Feature::Disable
        }
    }
}

/// What each feature flag is set to. A flag that is not listed is set to the default.
#[derive(Debug, Drop)]
pub struct Features {
    pub default: Feature,
    pub flags: IndexMap<String, Feature>,
}

impl Features {
    ghost use Rattle.std.specs.Prelude.{◌≡◌, ℕ, List, OnOk, OnErr, if◌then◌else◌, string_bytes};
    ghost use Rattle.std.specs.Str.{bytes_eq};
    ghost use Rattle.wesl_conditions.specs.Settings.{setting};

    /// No flag is listed. It needs no memory.
    pub fn new(alloc: Global, default: Feature) -> Features
        ensures { (name : List ℕ) → setting result name ≡ default }
    {
        Features {
            default,
            flags: IndexMap::new(alloc),
        }
    }

    /// Sets a flag. Where memory is refused nothing is changed.
    pub fn set(
        &mut self,
        name: String,
        feature: Feature,
    ) -> Result<(), AllocFailed<(String, Feature)>>
        ensures set { OnOk result ((n : List ℕ) → setting self.new n ≡ (if bytes_eq n (string_bytes name) then feature else setting self.old n)) }
        ensures refused { OnErr result ((n : List ℕ) → setting self.new n ≡ setting self.old n) }
    {
        self.flags.insert(name, feature)?;
        Ok(())
    }

    /// What a flag is set to.
    pub fn get(&self, name: &str) -> Feature
        ensures { result ≡ setting self.now name.now }
    {
        match self.flags.get(name) {
            Some(feature) => *feature,
            None => self.default,
        }
    }
}
