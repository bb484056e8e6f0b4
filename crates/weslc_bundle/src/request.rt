//! What a bundle asks for, in JSON.

ghost use Rattle.std.specs.Prelude.{◌≡◌, ◌⊎◌, ⊤, List, ℕ, Some, None, IfErr, IfOk, option_map};
ghost use Rattle.serde_json.specs.View.{view, items_view, members_view};
ghost use Rattle.serde_json.specs.Find.{as_object, as_str};
ghost use Rattle.weslc_bundle.specs.Bundles.{Answers, is_call_key, is_run_key, is_key, unknown, keys_known, value_of, request_in, command_at, root_at, required, text_at, path_in, modules_at, has_two, each, module_of, keep_at, mode_at, max_modules_at, max_steps_at};

use crate::features::{FeatureSettings, read_features};
use serde_json::{Map, Value};
use std::alloc::{AllocError, AllocFailed, Global};
use std::fmt;
use std::fmt::Display;
use weslc_compile::Mode;
use wgsl_base::{Items, Text};
use wgsl_path::{ModulePath, ModulePathParseError, PathOrigin};

/// Which call a bundle asks for.
#[derive(Clone, Copy)]
pub enum Command {
    Link,
    Compile,
    Precompile,
    Run,
    Eval,
}

/// A key of a bundle.
#[derive(Clone, Copy)]
pub enum Key {
    Command,
    Root,
    Modules,
    Features,
    DefaultFeature,
    Keep,
    Mode,
    MaxModules,
    MaxSteps,
    Entry,
    Inputs,
    Bindings,
    Overrides,
    Expression,
}

/// A module's text, and the path that it stands at.
#[derive(Drop)]
pub struct Module {
    pub path: ModulePath,
    pub text: Text,
}

/// What a bundle asks for, its modules in the order of the JSON.
#[derive(Drop)]
pub struct Request {
    pub command: Command,
    pub root: ModulePath,
    pub modules: Items<Module>,
    pub features: FeatureSettings,
    pub keep: Items<Text>,
    pub mode: Mode,
    pub max_modules: u32,
    pub max_steps: u64,
}

/// Why bytes are no bundle.
#[derive(Drop)]
pub enum BundleError {
    /// They are no JSON object.
    NotAnObject,
    /// There is a key that no bundle has: the first in byte order.
    UnknownKey(Text),
    /// What stands under this key is missing or is nothing that may stand there.
    Value(Key),
    /// There are two modules at this path.
    DuplicateModule(ModulePath),
    /// Memory was refused. This says nothing of the bytes.
    OutOfMemory,
}

impl From<AllocError> for BundleError {
    ghost use Rattle.std.specs.Prelude.{◌≡◌};
    ghost use Rattle.weslc_bundle.specs.declared.request.BundleError.TheVariants.{OutOfMemory};

    ghost from_gives = { λ _ e. e ≡ OutOfMemory };

    fn from(_: AllocError) -> BundleError {
        BundleError::OutOfMemory
    }
}

impl<T: Drop> From<AllocFailed<T>> for BundleError {
    ghost use Rattle.std.specs.Prelude.{◌≡◌};
    ghost use Rattle.weslc_bundle.specs.declared.request.BundleError.TheVariants.{OutOfMemory};

    ghost from_gives = { λ _ e. e ≡ OutOfMemory };

    fn from(_: AllocFailed<T>) -> BundleError {
        BundleError::OutOfMemory
    }
}

impl fmt::Display for Key {
    ghost use Rattle.std.specs.Prelude.{Some};
    ghost use Rattle.weslc_bundle.specs.Bundles.{key_name};

    ghost output = { λ key. Some (key_name key) };

    fn fmt<W: fmt::Write>(&self, f: &mut fmt::Formatter<W>) -> fmt::Result {
        match self {
            Key::Command => f.write_str("command"),
            Key::Root => f.write_str("root"),
            Key::Modules => f.write_str("modules"),
            Key::Features => f.write_str("features"),
            Key::DefaultFeature => f.write_str("default_feature"),
            Key::Keep => f.write_str("keep"),
            Key::Mode => f.write_str("mode"),
            Key::MaxModules => f.write_str("max_modules"),
            Key::MaxSteps => f.write_str("max_steps"),
            Key::Entry => f.write_str("entry"),
            Key::Inputs => f.write_str("inputs"),
            Key::Bindings => f.write_str("bindings"),
            Key::Overrides => f.write_str("overrides"),
            Key::Expression => f.write_str("expression"),
        }
    }
}

pub(crate) fn read_value(alloc: Global, bytes: &[u8]) -> Result<Value, BundleError>
    ensures value { IfOk result (λ value. value_of bytes.now ≡ Some (view value)) }
    ensures fault { IfErr result (λ e. (e ≡ BundleError.OutOfMemory) ⊎ ((e ≡ BundleError.NotAnObject) × (value_of bytes.now ≡ None))) }
{
    let Ok(text) = str::from_utf8(bytes) else {
        return Err(BundleError::NotAnObject);
    };
    match Value::from_str(alloc, text) {
        Ok(value) => Ok(value),
        Err(error) if error.is_memory() => Err(BundleError::OutOfMemory),
        Err(_) => Err(BundleError::NotAnObject),
    }
}

/// Reads what a JSON object asks for. Its keys are tested in a fixed order: unknown ones first, then `command`, `root`,
/// `modules`, `features`, `default_feature`, `keep`, `mode`, `max_modules`, `max_steps`.
pub(crate) fn read_members(alloc: Global, value: &Value) -> Result<Request, BundleError>
    ensures { Answers Request result (request_in (view value.now)) }
{
    check_keys(alloc, value)?;
    let command = read_command(value)?;
    let root = read_root(alloc, value)?;
    let modules = read_modules(alloc, value)?;
    let features = read_features(alloc, value)?;
    let keep = read_keep(alloc, value)?;
    let mode = read_mode(value)?;
    let max_modules = read_max_modules(value)?;
    let max_steps = read_max_steps(value)?;
    Ok(Request {
        command,
        root,
        modules,
        features,
        keep,
        mode,
        max_modules,
        max_steps,
    })
}

fn check_keys(alloc: Global, value: &Value) -> Result<(), BundleError>
    ensures { Answers ⊤ result (keys_known (as_object (view value.now))) }
{
    let Some(members) = value.as_object() else {
        return Err(BundleError::NotAnObject);
    };
    match unknown_key(members) {
        Some(key) => Err(BundleError::UnknownKey(Text::from_str(alloc, key)?)),
        None => Ok(()),
    }
}

/// The first key in byte order that no bundle has.
fn unknown_key(members: &Map<String, Value>) -> Option<&str>
    ensures { option_map (λ key. key.now) result ≡ unknown (members_view members.now.entries) }
{
    for key in members.keys() {
        if !is_key(key.as_str()) {
            return Some(key.as_str());
        }
    }
    None
}

fn is_key(key: &str) -> bool
    ensures { result ≡ is_key key.now }
{
    is_call_key(key) || is_run_key(key)
}

fn is_call_key(key: &str) -> bool
    ensures { result ≡ is_call_key key.now }
{
    matches!(
        key,
        "command"
            | "root"
            | "modules"
            | "features"
            | "default_feature"
            | "keep"
            | "mode"
            | "max_modules"
            | "max_steps"
    )
}

/// Whether a key is one of what is handed to a run or an evaluation.
fn is_run_key(key: &str) -> bool
    ensures { result ≡ is_run_key key.now }
{
    matches!(
        key,
        "entry" | "inputs" | "bindings" | "overrides" | "expression"
    )
}

fn read_command(value: &Value) -> Result<Command, BundleError>
    ensures { result ≡ command_at (view value.now) }
{
    match text_at(value, "command") {
        Some("link") => Ok(Command::Link),
        Some("compile") => Ok(Command::Compile),
        Some("precompile") => Ok(Command::Precompile),
        Some("run") => Ok(Command::Run),
        Some("eval") => Ok(Command::Eval),
        _ => Err(BundleError::Value(Key::Command)),
    }
}

fn read_root(alloc: Global, value: &Value) -> Result<ModulePath, BundleError>
    ensures { Answers ModulePath result (root_at (view value.now)) }
{
    match text_at(value, "root") {
        Some(text) => read_path(alloc, Key::Root, text),
        None => Err(BundleError::Value(Key::Root)),
    }
}

/// The text at a key.
fn text_at<'a>(value: &'a Value, key: &str) -> Option<&'a str>
    ensures { option_map (λ text. text.now) result ≡ text_at key.now (view value.now) }
{
    value.get(key).and_then(Value::as_str)
}

/// A path that is not relative.
fn read_path(alloc: Global, key: Key, text: &str) -> Result<ModulePath, BundleError>
    ensures { Answers ModulePath result (required (BundleError.Value key) (path_in text.now)) }
{
    match ModulePath::from_str(alloc, text) {
        Ok(path) => {
            if matches!(path.origin, PathOrigin::Relative(_)) {
                Err(BundleError::Value(key))
            } else {
                Ok(path)
            }
        }
        Err(ModulePathParseError::OutOfMemory) => Err(BundleError::OutOfMemory),
        Err(_) => Err(BundleError::Value(key)),
    }
}

fn read_modules(alloc: Global, value: &Value) -> Result<Items<Module>, BundleError>
    ensures { Answers (List Module) result (modules_at (view value.now)) }
{
    match value.get("modules").and_then(Value::as_array) {
        Some(values) => read_each_module(alloc, values.as_slice()),
        None => Err(BundleError::Value(Key::Modules)),
    }
}

fn read_each_module(alloc: Global, values: &[Value]) -> Result<Items<Module>, BundleError>
    ensures { Answers (List Module) result (required (BundleError.Value Key.Modules) (each module_of (items_view values.now))) }
{
    let mut modules = Items::new(alloc);
    for value in values {
        modules.push(read_module(alloc, value)?)?;
    }
    Ok(modules)
}

/// An object of exactly `path` and `text`.
fn read_module(alloc: Global, value: &Value) -> Result<Module, BundleError>
    ensures { Answers Module result (required (BundleError.Value Key.Modules) (module_of (view value.now))) }
{
    if !has_two_members(value) {
        return Err(BundleError::Value(Key::Modules));
    }
    match (text_at(value, "path"), text_at(value, "text")) {
        (Some(path), Some(text)) => {
            let path = read_path(alloc, Key::Modules, path)?;
            let text = Text::from_str(alloc, text)?;
            Ok(Module { path, text })
        }
        _ => Err(BundleError::Value(Key::Modules)),
    }
}

fn has_two_members(value: &Value) -> bool
    ensures { result ≡ has_two (as_object (view value.now)) }
{
    match value.as_object() {
        Some(members) => members.len() == 2,
        None => false,
    }
}

pub(crate) fn read_keep(alloc: Global, value: &Value) -> Result<Items<Text>, BundleError>
    ensures { Answers (List (List ℕ)) result (keep_at (view value.now)) }
{
    let Some(kept) = value.get("keep") else {
        return Ok(Items::new(alloc));
    };
    match kept.as_array() {
        Some(values) => read_names(alloc, values.as_slice()),
        None => Err(BundleError::Value(Key::Keep)),
    }
}

fn read_names(alloc: Global, values: &[Value]) -> Result<Items<Text>, BundleError>
    ensures { Answers (List (List ℕ)) result (required (BundleError.Value Key.Keep) (each as_str (items_view values.now))) }
{
    let mut names = Items::new(alloc);
    for value in values {
        match value.as_str() {
            Some(name) => names.push(Text::from_str(alloc, name)?)?,
            None => return Err(BundleError::Value(Key::Keep)),
        }
    }
    Ok(names)
}

pub(crate) fn read_mode(value: &Value) -> Result<Mode, BundleError>
    ensures { result ≡ mode_at (view value.now) }
{
    let Some(mode) = value.get("mode") else {
        return Ok(Mode::Lazy);
    };
    match mode.as_str() {
        Some("lazy") => Ok(Mode::Lazy),
        Some("eager") => Ok(Mode::Eager),
        Some("whole") => Ok(Mode::Whole),
        _ => Err(BundleError::Value(Key::Mode)),
    }
}

pub(crate) fn read_max_modules(value: &Value) -> Result<u32, BundleError>
    ensures { result ≡ max_modules_at (view value.now) }
{
    let Some(limit) = value.get("max_modules") else {
        return Ok(256);
    };
    match limit.as_u64().map(u32::try_from) {
        Some(Ok(max_modules)) => Ok(max_modules),
        _ => Err(BundleError::Value(Key::MaxModules)),
    }
}

pub(crate) fn read_max_steps(value: &Value) -> Result<u64, BundleError>
    ensures { result ≡ max_steps_at (view value.now) }
{
    let Some(limit) = value.get("max_steps") else {
        return Ok(1_000_000);
    };
    match limit.as_u64() {
        Some(max_steps) => Ok(max_steps),
        None => Err(BundleError::Value(Key::MaxSteps)),
    }
}
