//! What linking starts from, and what it asks for.

use core_scopes::Modules;
use std::collections::{BTreeMap, BTreeSet};
use wgsl_base::Text;
use wgsl_path::ModulePath;

/// The loaded modules, the root's printed path, and the names that are kept there.
#[derive(Clone, Copy)]
pub struct Linking<'a> {
    pub modules: &'a Modules,
    pub root: &'a str,
    pub keep: &'a [Text],
}

/// The reached declarations: for each module, by its printed path, their places there and their names in the linked unit.
pub type HeldNames = BTreeMap<String, BTreeMap<usize, Text>>;

/// The modules that are asked for and not loaded, by their printed paths.
pub type Asked = BTreeMap<String, AskedModule>;

/// A module that is asked for, and the names that are sought there.
#[derive(Drop)]
pub struct AskedModule {
    pub path: ModulePath,
    pub names: BTreeSet<String>,
}
