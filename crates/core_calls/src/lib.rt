//! The calls of `weslc`.
#![tactic(auto)]

mod calls;

pub use calls::{compile, link};
pub use core_compiled::{Unprintable, check_unit, print_checked};
pub use weslc_errors::{
    BasicSourceMap, CompileError, Error, ErrorContext, ErrorKind, EscapeMangler, Fault, Feature,
    Features, ImportError, ImportKind, Mode, NameFault, Options, RecordingResolver, Refusal,
    ResolveError, ResolveKind, Resolver, SourceMap, ValidateError, VirtualResolver,
};
