//! The calls of `weslc`.
#![tactic(auto)]

mod calls;
mod part;
mod whole;

pub use calls::link;
pub use core_calls::{
    BasicSourceMap, CompileError, Error, ErrorContext, ErrorKind, EscapeMangler, Fault, Feature,
    Features, ImportKind, Mode, NameFault, Options, ResolveKind, SourceMap, Unprintable,
    ValidateError, print_checked,
};
pub use part::{Answer, CoreAnswer, try_compile};
pub use wesl_preprocess::{Conditions, Decided, Preprocessor};
pub use wesl_resolvers::{NoResolver, RecordingResolver, ResolveError, Resolver};
pub use wesl_virtual_resolver::VirtualResolver;
pub use weslc_link::{
    BeyondCore, HeldModules, LinkedModules, check_clear, declaration_map, link_modules, source_map,
    unclear_name, validate,
};
