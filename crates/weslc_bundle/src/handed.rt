//! What a bundle hands to a run or an evaluation, beside what it asks for.

ghost use Rattle.std.specs.Prelude.{◌≡◌, ◌⊎◌, Ok, Err, IfOk, IfErr};
ghost use Rattle.serde_json.specs.View.{view};
ghost use Rattle.weslc_bundle.specs.Bundles.{request_of, MayBeWrong, IsHandedFault};
ghost use Rattle.weslc_bundle.specs.Handed.{needed_of, key_like};

use crate::request::{BundleError, Command, Key, Request, read_members, read_value};
use serde_json::Value;
use std::alloc::Global;
use weslc_values::{Needed, RunKey, RunSettings, read_run_settings};
use wgsl_base::OrOutOfMemory;

/// What a bundle asks for, and what it hands to a run or an evaluation.
#[derive(Drop)]
pub struct Asked {
    pub request: Request,
    pub handed: RunSettings,
}

/// Reads what a JSON object asks for, and then the keys of what it hands to a run or an evaluation: `entry`, which a run needs, `inputs`,
/// `bindings`, `overrides`, and `expression`, which an evaluation needs.
pub(crate) fn read_asked(alloc: Global, bytes: &[u8]) -> Result<Asked, BundleError>
    ensures asked { IfOk result (λ asked. request_of bytes.now ≡ Ok asked.request) }
    ensures fault { IfErr result (λ e. (e ≡ BundleError.OutOfMemory) ⊎ ((request_of bytes.now ≡ Err e) ⊎ IsHandedFault bytes.now e)) }
{
    let value = read_value(alloc, bytes)?;
    let request = read_members(alloc, &value)?;
    let handed = read_handed(alloc, &value, request.command)?;
    Ok(Asked { request, handed })
}

fn read_handed(alloc: Global, value: &Value, command: Command) -> Result<RunSettings, BundleError>
    ensures { IfErr result (λ e. (e ≡ BundleError.OutOfMemory) ⊎ ((k : Key) × MayBeWrong command (view value.now) k × (e ≡ BundleError.Value k))) }
{
    match read_run_settings(alloc, value, needed_by(command)) {
        Ok(settings) => Ok(settings),
        Err(OrOutOfMemory::Error(key)) => Err(BundleError::Value(key_of(key))),
        Err(OrOutOfMemory::OutOfMemory) => Err(BundleError::OutOfMemory),
    }
}

/// Which of these keys a command needs.
fn needed_by(command: Command) -> Needed
    ensures { result ≡ needed_of command }
{
    match command {
        Command::Link | Command::Compile | Command::Precompile => Needed::Nothing,
        Command::Run => Needed::Entry,
        Command::Eval => Needed::Expression,
    }
}

fn key_of(key: RunKey) -> Key
    ensures { result ≡ key_like key }
{
    match key {
        RunKey::Entry => Key::Entry,
        RunKey::Inputs => Key::Inputs,
        RunKey::Bindings => Key::Bindings,
        RunKey::Overrides => Key::Overrides,
        RunKey::Expression => Key::Expression,
    }
}
