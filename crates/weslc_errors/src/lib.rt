//! What the calls of `weslc` are made of: errors, options, resolvers over texts in memory, and modules that are loaded, mapped and linked.
#![tactic(auto)]

mod error;
mod linking;
mod options;
mod recording;
mod resolver;

pub use core_link::{
    BasicSourceMap, EscapeMangler, ImportError, ResolveError, Resolver, SourceMap,
};
pub use core_unit::{Fault, NameFault, PrintError, ValidateError, print_core};
pub use error::{CompileError, ErrorContext, ImportKind, ResolveKind};
pub use linking::{Linked, linked_unit};
pub use options::{Mode, Options};
pub use recording::RecordingResolver;
pub use resolver::VirtualResolver;
pub use wesl_conditions::{CondCompError, Feature, Features};
pub use wgsl_token::fault::{Error, ErrorKind, Refusal};
