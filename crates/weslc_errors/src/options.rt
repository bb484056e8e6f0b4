//! What a call is asked for.

use std::alloc::Global;
use wesl_conditions::{Feature, Features};
use wgsl_base::{Items, Text};

/// How much of the modules is linked.
#[derive(Clone, Copy, Debug, PartialEq, Eq)]
pub enum Mode {
    /// What the kept names lead to. Only modules that this leads to are loaded.
    Lazy,
    /// What the kept names lead to. All that the loaded modules name is loaded.
    Eager,
    /// All declarations of the loaded modules. All that they name is loaded.
    Whole,
}

/// How modules are linked and compiled.
#[derive(Debug, Drop)]
pub struct Options {
    /// What the feature flags of conditions are set to.
    pub features: Features,
    /// The names of the root to be kept; where there is none, its entry points are.
    pub keep: Items<Text>,
    pub mode: Mode,
    /// How many modules may be loaded, the root counted.
    pub max_modules: u32,
    /// How many steps the evaluation of one expression or declaration may take. A step is a call of a function, which no
    /// expression takes yet when a module is compiled, so that nothing reaches this limit.
    pub max_steps: u64,
}

impl Options {
    ghost use Rattle.std.specs.Prelude.{◌≡◌, ℕ, List, []};
    ghost use Rattle.wesl_conditions.specs.declared.features.feature.Feature.TheVariants.{Disable};
    ghost use Rattle.wesl_conditions.specs.Settings.{setting};
    ghost use Rattle.weslc_errors.specs.declared.options.Mode.TheVariants.{Lazy};

    /// Every feature disabled, no name, lazy, 256 modules and a million steps.
    pub fn new(alloc: Global) -> Options
        ensures features { (name : List ℕ) → setting result.features name ≡ Disable }
        ensures keep { result.keep ≡ [] }
        ensures mode { result.mode ≡ Lazy }
        ensures max_modules { result.max_modules ≡ 256 }
        ensures max_steps { result.max_steps ≡ 1000000 }
    {
        Options {
            features: Features::new(alloc, Feature::Disable),
            keep: Items::new(alloc),
            mode: Mode::Lazy,
            max_modules: 256,
            max_steps: 1_000_000,
        }
    }
}
