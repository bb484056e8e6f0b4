//! The commands of a session.

use std::alloc::AllocError;
use wesl_diagnostics::BundleError;
use weslc_workspace::{Feature, Options};
use wgsl_base::Text;
use wgsl_path::ModulePath;

/// What a line asks for.
#[derive(Drop)]
pub enum Command {
    /// An empty workspace with this root.
    Open(ModulePath, Options),
    SetModule(ModulePath, Text),
    RemoveModule(ModulePath),
    SetFeature(Text, Feature),
    SetOptions(Options),
    Compile,
    Link,
    Parses,
    Runs,
}

/// Why a line is no command.
#[derive(Drop)]
pub enum CommandError {
    /// It is no JSON object with one key.
    NotACommand,
    /// No command has this name, or there is a key that the command does not have: the first in byte order.
    UnknownKey(Text),
    /// What stands under this key is missing or is nothing that may stand there.
    Value(&'static str),
    /// The same of a key of a bundle.
    Bundle(BundleError),
    /// Memory was refused. This says nothing of the line.
    OutOfMemory,
}

impl From<AllocError> for CommandError {
    fn from(_: AllocError) -> CommandError {
        CommandError::OutOfMemory
    }
}
